//! Which device offers which interface attribute.
#![tactic(auto)]

mod build;
mod entry;
mod gather;
mod graph;
mod merge;
mod prepare;

pub use build::graph_of;
pub use gather::{GraphStop, MAX_INTERFACES};
pub use graph::Graph;
