use crate::{List, Locs, Name, Place};

/// A place of the machine where hardware may be. Spots are numbered from 0 in file order.
#[derive(Drop)]
pub struct Spot {
    pub name: Name,
    /// The number of the spot above it, `None` below the root.
    pub parent: Option<u16>,
    /// The interface attribute on which it is found.
    pub place: Place,
    /// The locator values that the bus finds there.
    pub found: Locs,
    /// It is hidden until a finalizer shows it.
    pub late: bool,
    /// It has no hardware until it is plugged.
    pub absent: bool,
    /// Each transfer ends with a device error.
    pub bad: bool,
}

/// How well the driver of an attachment matches a spot, or every spot.
#[derive(Clone, Copy, Debug)]
pub struct MatchLine {
    pub attach: u32,
    pub spot: Option<u16>,
    /// The match value, 0 to 65,535; 0 is no match. See autoconf(9).
    pub value: u32,
}

/// How a device of an attachment scans an interface attribute: by direct or by indirect configuration. See autoconf(9).
#[derive(Clone, Copy, Debug)]
pub struct StyleLine {
    pub attach: u32,
    pub attr: u32,
    pub indirect: bool,
}

/// What the driver of an attachment refuses or defers.
#[derive(Clone, Copy, Debug)]
pub struct Policy {
    /// It cannot be detached on request.
    pub nodetach: bool,
    /// It cannot be rescanned.
    pub norescan: bool,
    /// It cannot be suspended.
    pub nopower: bool,
    /// Its suspension fails.
    pub failsuspend: bool,
    /// Its children are searched after its parent's scan, as by config_defer(9).
    pub defer: bool,
    /// Its children are searched when interrupts work, as by config_interrupts(9).
    pub interrupts: bool,
    /// It is called again at the end of the boot, as by config_finalize_register(9).
    pub finaliser: bool,
}

impl Policy {
    ghost use Rattle.std.specs.Prelude.{◌≡◌};
    ghost use Rattle.cf_types.specs.Policies.{no_policy};

    /// The policy of a driver that refuses nothing and defers nothing.
    pub fn none() -> Policy
        ensures { result ≡ no_policy }
    {
        Policy {
            nodetach: false,
            norescan: false,
            nopower: false,
            failsuspend: false,
            defer: false,
            interrupts: false,
            finaliser: false,
        }
    }
}

/// What a machine file describes: the hardware that is there, and what its drivers do.
#[derive(Drop)]
pub struct Machine {
    pub spots: List<Spot>,
    /// The last line for an attachment and a spot counts.
    pub matches: List<MatchLine>,
    /// The last line for an attachment and an attribute counts.
    pub styles: List<StyleLine>,
    /// One for each attachment, in order.
    pub policies: List<Policy>,
}

/// A locator value that a rescan gives.
#[derive(Drop)]
pub struct Given {
    pub name: Name,
    pub value: i64,
}

/// A command of a script, after drvctl(8). A device is named by its external name, a spot by its own.
#[derive(Drop)]
pub enum Command {
    /// Take a reference to a device.
    OpenDev(Name),
    /// Take the only reference to a device: nobody may hold another one.
    OpenSole(Name),
    CloseDev(Name),
    Io(Name, u32),
    Detach(Name),
    Rescan {
        device: Name,
        attr: Option<Name>,
        given: List<Given>,
    },
    ListDev(Option<Name>),
    TreeDev(Option<Name>),
    Suspend(Name),
    Resume(Name),
    ResumeTree(Name),
    Plug(Name),
    Unplug(Name),
}

/// The commands of one caller, in order.
pub type Script = List<Command>;

/// A transfer that was started and not yet answered.
#[derive(Clone, Copy, Debug, PartialEq, Eq)]
pub struct Ticket {
    /// The caller, 1 to 16.
    pub caller: u8,
    /// The number of its command, from 1.
    pub number: u32,
    /// The serial of the device.
    pub serial: u64,
    /// The number of the device's spot.
    pub slot: u16,
    /// Whether that spot answers with a device error.
    pub bad: bool,
    /// The value that is sent.
    pub value: u32,
}
