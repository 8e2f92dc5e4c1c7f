//! Laws of the scripts of a run: its history shows whether each ran to its end. Nothing here runs: each function's
//! contract is a law.
#![tactic(auto)]

mod laws;

pub use laws::{all_whole, ended_whole};
