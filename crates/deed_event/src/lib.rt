//! The event of what a caller does next.
#![tactic(auto)]

mod command_act;
mod event;

pub use command_act::answer_for;
pub use event::deed_event;
