//! What a scan does next in a world of plain lists: which spot is looked at, and which row and unit take it. A turn of a scan
//! looks at each spot of its bus at most once, and at the rows that suit a spot up to the first open one.
#![tactic(auto)]

mod count;
mod matches;
mod seeker;
mod turns;
mod units;

pub use matches::arrival;
pub use seeker::Seeker;
pub use turns::{is_indirect, is_open, next_scan};
