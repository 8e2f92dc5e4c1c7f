use crate::event::PowerKind;
use cf_types::{List, Machine, Place, Script, Tables, Ticket};

/// What a run goes by. No event changes it.
#[derive(Drop)]
pub struct Setup {
    pub tables: Tables,
    pub machine: Machine,
    /// The scripts of the callers 1, 2 and so on.
    pub scripts: List<Script>,
}

/// A live device. See autoconf(9).
#[derive(Clone, Copy)]
pub struct Dev {
    /// Counted from 1 in order of attachment, and never used again.
    pub serial: u64,
    /// The row of the tables by which it came.
    pub row: u32,
    pub unit: u32,
    /// The serial of its parent, 0 for the root.
    pub parent: u64,
    /// The number of its spot.
    pub spot: u16,
    pub asleep: bool,
    /// The caller that is about to free it.
    pub condemned: Option<u8>,
}

/// The position of a scan: a place in the list of what its device offers, a row if the bus is indirect, and a spot.
#[derive(Clone, Copy)]
pub struct Position {
    pub attr: u16,
    pub row: u32,
    pub spot: u16,
}

/// A turn of a scan: its position, the place that is searched there, and whether that place is an indirect bus. See
/// autoconf(9).
#[derive(Clone, Copy)]
pub struct Turn {
    pub at: Position,
    pub place: Place,
    pub indirect: bool,
}

/// A device that is attached: its row and its unit, the serial of its parent, and its spot.
#[derive(Clone, Copy)]
pub struct Arrival {
    pub row: u32,
    pub unit: u32,
    pub parent: u64,
    pub spot: u16,
}

/// A locator value that a spot must have in a rescan: the place of the locator in its attribute, and the value.
#[derive(Clone, Copy)]
pub struct Wanted {
    pub place: u8,
    pub value: i64,
}

/// What a caller goes on with.
#[derive(Drop)]
pub enum Frame {
    /// The search below a device: of one attribute alone or of all, for spots that pass the filter, from a position on.
    Scan {
        serial: u64,
        only: Option<u32>,
        filter: List<Wanted>,
        position: Position,
    },
    /// The finalizer of a device.
    Finaliser {
        serial: u64,
    },
}

/// A reference: of which device, by its serial, and who holds it, a caller from 1 to 16.
#[derive(Clone, Copy)]
pub struct Ref {
    pub serial: u64,
    pub caller: u8,
}

/// What a scan is deferred to: the end of its parent's scan, or the time when interrupts work. See autoconf(9).
#[derive(Clone, Copy)]
pub enum Key {
    Parent(u64),
    Interrupts,
}

/// A deferred scan: to what, and of which device.
#[derive(Clone, Copy)]
pub struct Deferred {
    pub key: Key,
    pub child: u64,
}

/// Where the work of a new device goes. See config_defer(9) and config_interrupts(9).
#[derive(Clone, Copy)]
pub enum Placing {
    Nowhere,
    /// To the boot's list, or for a scan to the interrupts queue.
    Queued,
    /// To the queue of the parent.
    PutOff,
    Pushed,
}

/// What a caller is in the middle of.
#[derive(Clone, Copy)]
pub enum Activity {
    Idle,
    /// A transfer that was started.
    Transfer(Ticket),
    /// Freeing the device of this serial, and all below it.
    Frees(u64),
    /// A rescan.
    Scans,
    /// A power command on the device of this serial.
    Power(PowerKind, u64),
    Ended,
}

/// Why a caller does not go on. A wait leaves no event.
#[derive(Clone, Copy, Debug, PartialEq, Eq)]
pub enum Wait {
    /// The boot goes on.
    Boot,
    /// This caller has the power turn.
    Power(u8),
    /// The device of this serial is held.
    Refs(u64),
    /// The device of this serial is searched.
    Scan(u64),
    /// The slot of the device of this serial is held, by the callers of this mask.
    Leases(u64, u16),
}

/// Below which parent a search goes: the root, or a device by its driver and its unit.
#[derive(Clone, Copy)]
pub enum ParentRef {
    Root,
    Dev { device: u32, unit: u32 },
}

/// Numbers of spots: from the first one to before the end.
#[derive(Clone, Copy)]
pub struct Span {
    pub first: u16,
    pub end: u16,
}
