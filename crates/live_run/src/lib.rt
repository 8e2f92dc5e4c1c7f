//! What a plan prints: each command is given to live tables and told with its reply and its lines, and then comes the device
//! tree that is left.
#![tactic(auto)]

mod run;
mod told;

pub use run::{LiveRun, live_run};
