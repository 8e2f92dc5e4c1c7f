//! The locators of a place, the values that an instance gives for them, and which values of a row fit those that are
//! found. See config(5) and autoconf(9).
#![tactic(auto)]

mod fits;
mod place;
mod values;

pub use fits::{fits_locator, submatch};
pub use place::locators_at;
pub use values::fill;
