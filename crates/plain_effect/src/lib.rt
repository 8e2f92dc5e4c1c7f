//! What a deed does to a world of plain lists.
#![tactic(auto)]

mod after;
mod effect;

pub use effect::apply;
