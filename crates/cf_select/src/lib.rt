//! Which instances no later negation takes back, and to which of them a chain of carriers leads from the root. See
//! config(5).
#![tactic(auto)]

mod lists;
mod marks;
mod named;
mod negations;
mod places;
mod standing;
mod waiting;
mod want;
mod wants;

pub use marks::rooted;
pub use standing::{SurvivingInstances, survivors};
