//! Reads one statement of a configuration file, as the grammar of config(5) has it.
#![tactic(auto)]

mod attach;
mod checked;
mod define;
mod directive;
mod fault;
mod file;
mod form;
mod grammar;
mod instance;
mod item;
mod keyword;
mod negation;

pub use grammar::{GrammarStop, statement, word_of};
pub use keyword::condition_spelling;
