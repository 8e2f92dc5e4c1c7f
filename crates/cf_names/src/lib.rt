//! What is declared, with look-ups by name and by device that need no scan.
#![tactic(auto)]

mod attached;
mod catalog;
mod hash;
mod index;
mod numbers;
mod spots;

pub use catalog::Catalog;
pub use hash::{HashKey, NameHash};
pub use index::Room;
pub use numbers::{NameNumbers, add_name, no_numbers, number_in};
pub use spots::{FirstSpot, MAX_SCANNED, SpotKey, Spots};
