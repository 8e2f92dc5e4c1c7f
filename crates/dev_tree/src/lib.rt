//! The live devices: which there are, where each is, and what is below what.
#![tactic(auto)]

mod bare;
mod branches;
mod lookup;
mod mark;
mod resting;
mod spots;
mod tree;

pub use branches::Branches;
pub use run_rules::Dev;
pub use tree::DevTree;
