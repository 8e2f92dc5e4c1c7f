//! The codes of a plan's bad lines that scripts do not have; the codes 1, 2 and 4 are those of scripts.

/// A device of a group is none of the configuration.
pub const NO_DEVICE: u8 = 5;

/// An earlier line has a group of this name.
pub const GROUP_TWICE: u8 = 6;

/// No earlier line has a group of this name.
pub const NO_GROUP: u8 = 7;

/// A device of a group is in a group already.
pub const DEVICE_TWICE: u8 = 8;
