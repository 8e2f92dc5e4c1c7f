//! What the program `drvrun` does, from its words to its status.
#![tactic(auto)]

mod laws;
mod scripts;
mod stuck;
mod top;

pub use app_words::Status;
pub use laws::printed_taken;
pub use scripts::side_by_side;
pub use top::drvrun_top;
