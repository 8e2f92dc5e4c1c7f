//! What a caller or the boot does next in a world of plain lists.
#![tactic(auto)]

mod choose;
mod command;
mod late;
mod power;
mod rescan;
mod under;
mod waking;

pub use choose::next;
pub use late::hangs_below;
