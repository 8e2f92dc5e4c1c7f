//! The deferred scans: to the end of their parent's scan, or to the time when interrupts work.
#![tactic(auto)]

mod deferred;

pub use deferred::DeferQueue;
pub use run_rules::Key;
