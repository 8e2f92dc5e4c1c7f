//! The tables of a configuration with the graph of their attributes: what the compiler makes, and what a run begins with.
#![tactic(auto)]

mod compiled;

pub use compiled::Compiled;
