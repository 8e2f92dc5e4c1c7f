//! Reads all the files that the words of a program name. See config(1).
#![tactic(auto)]

mod explained;
mod file;
mod inputs;
mod machine_file;
mod made;
mod plans;
mod scripts;
mod stop;

pub use app_words::{Program, Status};
pub use explained::{Explained, read_explained};
pub use inputs::{Inputs, read_inputs};
pub use stop::status_of_stop;
