//! The references to devices, and the spots' slots: whether a spot's device may be held, and when it may be freed.
#![tactic(auto)]

mod buried;
#[cfg(test)]
mod listed;
mod masks;
mod plain;
mod refs;
mod slots;
mod state;

pub use buried::{Buried, Bury};
pub use plain::PlainSlots;
pub use refs::Refs;
pub use slots::Slots;
pub use state::SlotState;
