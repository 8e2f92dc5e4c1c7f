//! Laws of rereading: which texts are accepted as a history, and as which. Nothing here runs: each function's contract
//! is a law.
#![tactic(auto)]

mod laws;

pub use laws::{
    history_taken, meant_in_lines, meant_taken, older_taken, own_taken, runs_taken, taken_in_both,
};
