//! The codes that a watch file has beside the first three of scripts.

/// The line would be one more than a watch file may have.
pub const TOO_MANY_LINES: u8 = 4;

/// An earlier line subscribed it.
pub const SUBSCRIBED_TWICE: u8 = 9;

/// No earlier line subscribed it.
pub const NOT_SUBSCRIBED: u8 = 10;
