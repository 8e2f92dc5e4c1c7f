//! Laws of a whole history: what is below a device at whatever depth, the order of a script's commands, its transfers, and the
//! tree. Nothing here runs: the contract of each function is a law.
#![tactic(auto)]

mod laws;

pub use laws::{
    all_in_order, chains_live, commands_in_order, done_after_started, first_answers,
    nothing_lives_below, root_reached, started_then_done, tree_told_whole, whole_subtree_sleeps,
};
