//! What keeps devices from being freed, and which of those to be freed comes next. See config_detach(9).
#![tactic(auto)]

mod engine;
mod marks;

pub use engine::{Detachment, hindered, next_free};
pub use marks::Marks;
