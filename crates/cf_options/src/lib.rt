//! The options, makeoptions, file systems and pseudo-devices that no later negation takes back. See config(5).
#![tactic(auto)]

mod copies;
mod idle;
mod kept;
mod last;
mod lists;
mod standing;

pub use lists::{ItemLists, items};
