//! Workers over a shared board: each script of drvctl(8) commands runs in a thread of its own. All of it is this project's profile.
#![tactic(auto)]

mod medium;
mod run;
mod worker;

pub use medium::{Medium, SoftMedium};
pub use run::run_scripts;
pub use worker::work;
