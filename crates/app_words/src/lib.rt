//! The words of the programs: what they ask for, and the status that a run ends with. See config(1).
#![tactic(auto)]

mod bound;
mod called;
mod count;
mod operands;
mod program;
mod status;
mod words;

pub use bound::{bound_words, most_worlds};
pub use called::words_behind_name;
pub use program::Program;
pub use status::Status;
pub use words::{Task, WordStop, Words, asked_name, read_words};
