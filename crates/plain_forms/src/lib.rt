//! What the board keeps in indexes, found by linear search over every row, every device or every reference. A history
//! is followed by these searches, event by event; cases compare the programs with them.
#![tactic(auto)]

mod devices;
mod follower;
mod refs;
mod replies;
mod search;
mod world;

pub use follower::{Followed, follow};
