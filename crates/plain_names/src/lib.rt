//! What is printed of a world in plain lists: the names of its devices and spots, and the lines of its tree.
#![tactic(auto)]

mod kin;
mod names;
mod tree;

pub use names::{device_named, got_of, parent_name, shown_of, spot_name, unit_name};
pub use tree::{list_names, tree_lines, tree_names};
