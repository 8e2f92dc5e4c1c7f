//! Why a driver took a spot and why others did not, in words: a line for each row.
#![tactic(auto)]

mod head;
mod lines;
mod look;
mod named;
mod row;
mod words;

pub use lines::{column, reason_lines};
pub use look::Look;
pub use named::{device_name, place_name, spot_name};
pub use row::{put_why, row_front};
