//! The lines of the device tree.
#![tactic(auto)]

mod line;
mod parts;

pub use cf_types::{DevLine, Hold};
pub use line::put_dev;
