use cf_types::{List, Name};

/// The rows of these devices of the configuration come and go together. A group is identified by its place in the plan.
#[derive(Drop)]
pub struct Group {
    pub name: Name,
    pub devices: List<u32>,
}

/// A command of a plan: rows are added or taken away, or free spots are searched. See config_cfdata_attach(9) and
/// config_cfdata_detach(9).
#[derive(Clone, Copy, Debug, PartialEq, Eq)]
pub enum PlanCommand {
    Add(u32),
    Remove(u32),
    Scan,
}

/// Groups of rows, which begin off, and commands that come one after the other: at most 500 of both together.
#[derive(Drop)]
pub struct Plan {
    pub groups: List<Group>,
    pub commands: List<PlanCommand>,
}

/// What a command is told.
#[derive(Drop)]
pub enum LiveReply {
    Ok,
    OnAlready,
    OffAlready,
    /// This device may not be detached.
    Busy(Name),
}

/// A device that came, or one that went.
#[derive(Drop)]
pub enum LiveLine {
    Attached { name: Name, parent: Name, row: u32 },
    Freed { name: Name },
}
