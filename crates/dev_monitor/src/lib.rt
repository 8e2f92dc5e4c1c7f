//! A monitor of devices: subscribers read which devices came and went, as drvctl(4) tells it, through queues of bounded length.
#![tactic(auto)]

mod laws;
mod monitor;
mod news;
mod note;
mod parents;
mod queue;
mod reading;

pub use laws::{each_detach_told, reads_in_order};
pub use monitor::Monitor;
pub use note::Note;
pub use reading::Reading;
