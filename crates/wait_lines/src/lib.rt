//! The lines that say who waits for whom, where scripts stand still.
#![tactic(auto)]

mod line;

pub use line::put_wait;
