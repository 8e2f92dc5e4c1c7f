//! Of each spot the last search of a boot that came to it, with the devices that were live then; and what the boot leaves. It plays
//! the boot over the plain world.
#![tactic(auto)]

mod boot;
mod laws;
mod see;
mod visit;

pub use boot::{BootLooks, MOST_EVENTS, boot_deed, boot_looks, boot_on};
pub use laws::{boots_are_turns, boots_miss_none, visits_take_winners};
pub use see::look_at;
pub use visit::{Look, Visit};
