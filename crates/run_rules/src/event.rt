use crate::shared_act::SharedAct;
use cf_types::{List, Name};

/// An event: one line of a history. See `Lines` for its spelling.
#[derive(Drop)]
pub struct Event {
    /// Who did it: 0 for the boot, else 1 to 16 for the script of this number.
    pub caller: u8,
    /// The number of the command that it belongs to, counted from 1; 0 for the boot, and one more than there are
    /// commands once they are over.
    pub number: u32,
    pub act: SharedAct,
}

/// What happened. A device is named by its external name, the root by `root`.
#[derive(Drop)]
pub enum Act {
    /// A spot was searched: the device that was attached there, or none if no driver takes it. See autoconf(9).
    Found {
        parent: Name,
        spot: Name,
        got: Option<Got>,
    },
    /// The search below a device, or below the root, is over.
    ScanEnd {
        device: Name,
    },
    /// Interrupts work from now on. See autoconf(9).
    Interrupts,
    /// A finalizer was called: the late spot that it showed, if one was left. See autoconf(9).
    Final {
        device: Name,
        shown: Option<Shown>,
    },
    /// The caller has ended.
    End,
    /// A caller that has no command left gave a reference back.
    DropRef {
        device: Name,
    },
    /// A reference was asked for.
    OpenDev {
        device: Name,
        reply: Reply,
    },
    /// The only reference was asked for.
    OpenSole {
        device: Name,
        reply: Reply,
    },
    /// A reference was given back.
    CloseDev {
        device: Name,
        reply: Reply,
    },
    /// A transfer was asked for; the reply `Ok` says that it began.
    IoStart {
        device: Name,
        value: u32,
        reply: Reply,
    },
    /// A transfer ended.
    IoDone {
        device: Name,
        answer: IoAnswer,
    },
    /// A device was to be detached with all that is below it. See drvctl(8).
    Detach {
        device: Name,
        reply: Reply,
    },
    /// A device that was to be detached is freed.
    Free {
        device: Name,
    },
    /// A rescan of a device was asked for. See drvctl(8).
    Rescan {
        device: Name,
        reply: Reply,
    },
    /// The children of a device, or of the root, by serial; no names if there is no such device.
    ListDev {
        device: Option<Name>,
        names: Option<List<Name>>,
    },
    /// The tree below a device, or below the root, depth first; no names if there is no such device.
    TreeDev {
        device: Option<Name>,
        names: Option<List<DepthName>>,
    },
    /// A power command began, or did not. See pmf(9).
    Power {
        kind: PowerKind,
        device: Name,
        reply: Reply,
    },
    /// A device was put to sleep.
    Sleep {
        device: Name,
    },
    /// A device was woken.
    Wake {
        device: Name,
    },
    /// A power command ended.
    PowerEnd {
        device: Name,
        reply: Reply,
    },
    /// Hardware came to a spot.
    Plug {
        spot: Name,
        reply: Reply,
    },
    /// Hardware was pulled out of a spot.
    Unplug {
        spot: Name,
        reply: Reply,
    },
}

/// The reply to a command. Only `Ok` says that it had an effect.
#[derive(Drop)]
pub enum Reply {
    Ok,
    /// No live device has the name.
    NoDevice,
    /// The device is condemned, or is no longer live.
    Gone,
    /// A caller has the only reference that there may be.
    Exclusive,
    /// The caller has 15 references already.
    TooMany,
    /// There is a reference already, so none can be the only one.
    Shared,
    NotHeld,
    Asleep,
    /// The device that is in the way.
    Busy(Name),
    /// The device whose driver does not support it.
    NotSupported(Name),
    /// The device whose suspension failed.
    SuspendFailed(Name),
    /// The driver refuses it, or the device offers nothing to search.
    NoRescan,
    BadAttribute,
    BadLocator,
    NoSpot,
}

/// A device that was attached: its name, and the number of its row in the tables.
#[derive(Drop)]
pub struct Got {
    pub name: Name,
    pub row: u32,
}

/// A late spot that a finalizer showed, and the device that was attached there, or none if no driver takes it.
#[derive(Drop)]
pub struct Shown {
    pub spot: Name,
    pub got: Option<Got>,
}

/// The result of a transfer: a number, modulo 2^32, or the error of a bad spot.
#[derive(Clone, Copy, Debug, PartialEq, Eq)]
pub enum IoAnswer {
    Number(u32),
    DeviceError,
}

/// A device in a tree: how many levels it is below the first one, and its name.
#[derive(Drop)]
pub struct DepthName {
    pub depth: u32,
    pub name: Name,
}

/// The power commands of drvctl(8): suspend a subtree, or resume a device with its ancestors, or with its descendants too.
#[derive(Clone, Copy, Debug, PartialEq, Eq)]
pub enum PowerKind {
    Suspend,
    Resume,
    ResumeTree,
}

/// How the lines of a history are written: without the spots of searches and the rows of devices (format 1), or with
/// them (format 2).
#[derive(Clone, Copy, Debug, PartialEq, Eq)]
pub enum Format {
    First,
    Second,
}
