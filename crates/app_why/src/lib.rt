//! What the program `devwhy` does, from its words to its status.
#![tactic(auto)]

mod top;

pub use app_words::Status;
pub use top::{Why, devwhy_top};
