//! Every order in which the callers of scripts can take their turns behind the boot of a machine: all worlds that turns lead to,
//! those in which all have ended, and those in which nobody can go on.
#![tactic(auto)]

mod boot;
mod every;
mod kind;
mod known;
mod laws;
mod search;
mod text;
mod turn;
mod ways;

pub use every::{Every, every_order};
pub use laws::{leads_as_runs, order_is_played};
pub use ways::Way;
