//! The rows of a configuration and its warnings, from the instances that survive.
#![tactic(auto)]

mod device;
mod group;
mod idle;
mod marks;
mod rows;
mod units;

pub use idle::{Warned, file_name, warnings};
pub use marks::{Split, split_by_marks};
pub use rows::rows_of;
