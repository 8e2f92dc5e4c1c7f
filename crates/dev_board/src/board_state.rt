use run_rules::Event;
use run_world::Going;

/// What steps change: the world, the history that led to it, and the stops.
#[derive(Drop)]
pub struct BoardState {
    pub going: Going,
    pub events: Vec<Event>,
    /// How often the board was stopped, and by whom first.
    pub stops: u64,
    pub stopped: Option<u8>,
}
