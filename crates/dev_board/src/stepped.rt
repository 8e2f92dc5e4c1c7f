use crate::told::Told;
use cf_types::Ticket;
use run_rules::Wait;

/// What a step answers.
#[derive(Drop)]
pub enum Stepped {
    /// Exactly the one event that the caller does next was appended, at this place.
    Did(u64, Told),
    /// The caller waits for this, and nothing changed.
    Waits(Wait),
    /// The caller waits for the result of this transfer, and nothing changed.
    Transfer(Ticket, Told),
    /// The board was stopped, first by this caller.
    Stopped(u8, Told),
    /// The caller has ended.
    Closed,
    /// Memory ran out, and nothing changed.
    Memory,
}
