//! What a caller does next: the choice that the parts of a board lead to.
#![tactic(auto)]

mod command;
mod due;
mod freeing;
mod hindered;
mod late;
mod looks;
mod next;
mod next_due;
mod plan;
mod power;
mod rescan;
mod search;
mod unit;

pub use next::{choose, goes_by_frames, next_in_power, next_on_scan};
