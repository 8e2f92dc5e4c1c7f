//! Which row of the tables takes a spot: the best match of autoconf(9).
#![tactic(auto)]

mod choice;
mod fits;
mod fixed;
mod index;
mod kinds;
mod leaders;
mod lists;
mod live;
mod own;
mod placed;
mod value;
mod values;

pub use choice::{Rows, Sought, best, winner};
pub use fits::found_at;
pub use fixed::{DriverUnit, FixedRows};
pub use index::RowIndex;
pub use leaders::Leaders;
pub use live::LiveRows;
pub use run_rules::ParentRef;
