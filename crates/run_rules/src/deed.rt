use crate::event::PowerKind;
use crate::world::{Arrival, Position, Wait};
use cf_types::Ticket;

/// What a caller's next event does, with all that its line leaves out. Devices are given by serial, spots by number. A
/// deed of a command is of the command that its caller is at.
#[derive(Clone, Copy)]
pub enum Deed {
    /// A turn of a scan: the spot that is searched, the position after it, and what comes. See autoconf(9).
    Search {
        parent: u64,
        spot: u16,
        moved: Position,
        got: Option<Arrival>,
    },
    /// The scan on top of the stack is over.
    EndScan {
        of: u64,
    },
    BeginInterrupts,
    /// A finalizer is called: the late spot that it shows, if there is one, and what comes there. One that is called from
    /// the boot's list has its place there, and may begin a new pass.
    Finalise {
        of: u64,
        shown: Option<u16>,
        got: Option<Arrival>,
        listed: Option<u64>,
        anew: bool,
    },
    EndCaller,
    /// After its last command a caller returns a reference.
    Drop {
        of: u64,
    },
    /// A command ends at once with this reply, and nothing else changes.
    Refuse(CommandRefusal),
    /// A reference is granted; a sole one excludes all others.
    Open {
        of: u64,
        sole: bool,
    },
    Close {
        of: u64,
    },
    /// A transfer begins, or ends.
    Start(Ticket),
    Done(Ticket),
    /// A device is condemned with all that is below it. See drvctl(8).
    Detach {
        of: u64,
    },
    /// A condemned device is freed.
    Free {
        of: u64,
    },
    /// A rescan of a device begins: of one attribute alone, or of all that it offers. See drvctl(8).
    Rescan {
        of: u64,
        only: Option<u32>,
    },
    /// A power command begins. See pmf(9).
    BeginPower {
        kind: PowerKind,
        of: u64,
    },
    Sleep {
        of: u64,
    },
    Wake {
        of: u64,
    },
    EndPower(PowerEnd),
    Plug {
        spot: u16,
    },
    /// The hardware of a spot goes, and the device there is condemned.
    Unplug {
        spot: u16,
        of: Option<u64>,
    },
    /// A list or a tree is printed.
    Tell,
}

/// The replies of a command that has no effect. See `Reply`.
#[derive(Clone, Copy)]
pub enum CommandRefusal {
    NoDevice,
    Gone,
    Exclusive,
    TooMany,
    Shared,
    NotHeld,
    Asleep,
    /// The device of this serial is in the way.
    Busy(u64),
    NoRescan,
    BadAttribute,
    BadLocator,
    NoSpot,
}

/// How a power command ends.
#[derive(Clone, Copy)]
pub enum PowerEnd {
    Done,
    /// The target is no longer live.
    Gone,
    /// The driver of the device of this serial does not support it, or failed.
    NotSupported(u64),
    Failed(u64),
}

/// What a caller may do: it has ended, it waits, or it does one thing. A wait leaves no event.
#[derive(Clone, Copy)]
pub enum Choice {
    Ended,
    Waits(Wait),
    Does(Deed),
}
