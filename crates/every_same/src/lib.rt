//! Whether two plain worlds are the same, and the print by which one is found among many.
#![tactic(auto)]

mod print;
mod same;

pub use print::print_of;
pub use same::same_world;
