//! Laws of a boot: it leaves no hardware without a driver that some row would take. Nothing here runs: the contract of each
//! function is a law.
#![tactic(auto)]

mod laws;

pub use laws::{boot_settled, boot_settles, fewer_candidates, no_new_winner, runs_are_thorough};
