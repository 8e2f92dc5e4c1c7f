//! What the program `drvall` does, from its words to its status.
#![tactic(auto)]

mod laws;
mod text;
mod top;

pub use app_words::Status;
pub use laws::every_tells_runs;
pub use top::drvall_top;
