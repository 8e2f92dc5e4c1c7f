//! In which order devices sleep and wake. See pmf(9).
#![tactic(auto)]

mod above;
mod order;
mod under;

pub use order::{next_sleep, next_wake};
