//! Why a row of the tables takes a spot, and why each other row does not. See autoconf(9).
#![tactic(auto)]

mod laws;
mod locators;
mod matches;
mod reason;
mod told;

pub use laws::{all_told, first_reasons, winner_alone};
pub use matches::{counting_line, match_value};
pub use reason::{Reason, RowReason};
pub use told::{Search, Told, reason_at, search_of, told_of};
