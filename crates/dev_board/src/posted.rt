use crate::told::Told;
use cf_types::Ticket;

/// What a board answers to the result of a transfer.
#[derive(Drop)]
pub enum Posted {
    /// Exactly the end of the transfer was appended, at this place.
    Did(u64, Told),
    /// The result's ticket is not this one, which the board keeps for the caller; nothing changed.
    Stale(Option<Ticket>, Told),
    /// The board was stopped, first by this caller.
    Stopped(u8, Told),
    /// Memory ran out, and nothing changed: the caller is still in its transfer.
    Memory,
}
