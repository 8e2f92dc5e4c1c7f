//! The units of devices that are taken, and the least one that is free.
#![tactic(auto)]

mod clear;
mod map;
#[cfg(test)]
mod marks;
mod units;

pub use units::Units;
