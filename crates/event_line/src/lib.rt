//! Events, and how each of them is put into one line of a history.
#![tactic(auto)]

mod act;
mod line;
mod parts;

pub use act::put_act;
pub use line::{put_event, put_event_1};
