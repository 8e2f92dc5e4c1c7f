use cf_types::Ticket;
use dev_board::Told;

/// What the lock answers to a caller.
#[derive(Drop)]
pub enum LockAnswer {
    /// Exactly the one event that the caller does next was appended, at this place.
    Did(u64, Told),
    /// The caller waits for the result of this transfer.
    Transfer(Ticket, Told),
    /// The caller has ended.
    Closed,
    /// The result's ticket is not this one, which the board keeps for the caller.
    Stale(Option<Ticket>, Told),
    /// The board was stopped, first by this caller.
    Stopped(u8, Told),
    /// Nobody goes on: each caller has ended or waits, and some wait. Nothing changed.
    Stuck,
    /// Memory ran out, and nothing changed.
    Memory,
}
