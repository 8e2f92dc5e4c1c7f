//! What is printed of a world: the names of its devices and spots, the lists of names in events, and the lines of its
//! tree.
#![tactic(auto)]

mod listed_names;
mod names;
mod tree;

pub use listed_names::{list_names, live_name, tree_names};
pub use names::{arrival_got, device_name, parent_name, shown_of, spot_name};
pub use tree::tree_of;
