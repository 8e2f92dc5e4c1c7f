//! Tables that come and go: what the commands of a plan mean. Nothing here runs: its definitions are in specs/, and the
//! contract of each function is a law.
#![tactic(auto)]

pub mod code;
mod laws;
mod plan;

pub use laws::{
    adds_settle, adds_undone, never_off, passes_append, removes_free, scans_settle, stays_sound,
};
pub use plan::{Group, LiveLine, LiveReply, Plan, PlanCommand};
