//! Cuts a machine file into its lines of words. The format is this project's own.
#![tactic(auto)]

mod line;
mod stop;
mod text;

pub use line::{MachineStop, cut_words, first_line, has_bad_byte, uncommented, words_of};
pub use stop::LineStop;
pub use text::bad_line;
