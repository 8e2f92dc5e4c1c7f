//! Which sources a configuration selects by its `file` statements. See config(5).
#![tactic(auto)]

mod condition;
mod marks;
mod names;
mod sources;
mod statement;
mod symbol;
mod texts;

pub use names::chosen;
pub use sources::select;
