use crate::{List, Name};

/// A line of the device tree, as drvctl(8) lists it: one live device.
#[derive(Drop)]
pub struct DevLine {
    /// How many devices are above it: 0 for a child of the root.
    pub depth: u32,
    /// Its driver's name with its unit.
    pub name: Name,
    /// The name of its parent, `root` for a child of the root.
    pub parent: Name,
    /// The number of its row in the tables.
    pub row: u32,
    pub asleep: bool,
    pub condemned: bool,
    /// Who holds it, by caller.
    pub holders: List<Hold>,
}

/// What one caller holds of a device.
#[derive(Clone, Copy)]
pub struct Hold {
    /// The caller, 1 to 16.
    pub caller: u8,
    /// How many references it has, 1 to 15.
    pub count: u8,
    /// Whether its reference is the only one that there may be.
    pub sole: bool,
}
