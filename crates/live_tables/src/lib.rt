//! Tables that come and go: groups of rows are added and taken away while devices live, after config_cfdata_attach(9) and
//! config_cfdata_detach(9).
#![tactic(auto)]

mod come;
mod commands;
mod doomed;
mod driver_groups;
mod ends;
mod live_tables;
mod look;
mod members;
mod names;
mod on_groups;
mod read;
mod remove;
mod search;
mod tree;
mod verb;

pub use live_rules::{Group, LiveLine, LiveReply, Plan, PlanCommand};
pub use live_tables::LiveTables;
pub use read::read_plan;
