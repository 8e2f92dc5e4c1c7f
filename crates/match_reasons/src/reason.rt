//! The reasons.

/// Why a row does not take a spot. Of several reasons the first one in this order is told.
#[derive(Clone, Copy)]
pub enum Reason {
    /// It wants another parent: it attaches to another interface attribute, or names another device.
    Parent,
    /// It wants another value of the locator at this place among those of the attribute.
    Locator(u32),
    /// Its driver does not match: the match value is 0.
    NoMatch,
    /// Its unit is taken, by the live device of this serial.
    Taken(u64),
    /// The row of this number has a greater match value, or an equal one and comes earlier.
    Beaten(u32),
}

/// A row by its number, and why it does not take the spot; the row that takes it has no reason.
#[derive(Clone, Copy)]
pub struct RowReason {
    pub row: u32,
    pub reason: Option<Reason>,
}
