//! What the reader of histories makes once of the tables and the machine: for each spot the rows that suit it, the best
//! first, and the styles by attachment. At each spot it tests the rows of the spot's place. Beside it, for each
//! row how many live devices have its driver and unit; a device that comes or goes costs one look at each row of its
//! driver.
#![tactic(auto)]

mod drivers;
mod lines;
mod lists;
mod placed;
mod styles;
mod suited;
mod taken;
mod values;

pub use drivers::DriverRows;
pub use styles::Styles;
pub use suited::{Suited, passes};
pub use taken::Taken;
