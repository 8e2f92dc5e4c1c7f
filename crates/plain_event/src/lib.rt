//! The event that a deed is in a world of plain lists.
#![tactic(auto)]

mod act;
mod command_act;
mod kept;
mod names;
mod teller;
mod telling;
mod told;

pub use act::{ActKey, Again, KnownAct};
pub use teller::Teller;
pub use telling::told_before;
pub use told::{event_of, number_of};
