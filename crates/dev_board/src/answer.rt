use cf_types::Ticket;

/// What a caller was answered, as a witness shows it.
#[derive(Clone, Copy)]
pub enum Answer {
    /// Its event was appended at this place.
    Did(u64),
    /// It has a transfer that was started.
    Transfer(Ticket),
    /// The result is not that of the transfer that the board keeps for the caller.
    Stale(Option<Ticket>),
    /// The board was stopped, first by this caller.
    Stopped(u8),
}

/// What an answer means for the leases of its caller; a slot is the number of a spot.
#[derive(Clone, Copy)]
pub enum LeaseStep {
    Keep,
    Take(u16),
    Give(u16),
}
