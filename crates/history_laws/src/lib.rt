//! The laws of every history: what is counted on its lines is what the world has, and what may be relied on. Nothing here
//! runs: each function's contract is a law.
#![tactic(auto)]

mod laws;

pub use laws::{
    boot_calm, comes_below_awake, comes_fresh, counted, freed_childless, freed_living,
    freed_unheld, held_alone, held_few, held_in_use, held_living, lawful, names_differ,
    references_counted, reliable, sleep_below, tree_told,
};
