//! The instances that a configuration states and that are not in its tables: those that a later `no` took back, and the orphans; which
//! of them a word names, and the line of each. See config(5).
#![tactic(auto)]

mod gone;
mod statement;
mod taken;
mod words;

pub use gone::{Statements, put_gone};
pub use words::begins;
