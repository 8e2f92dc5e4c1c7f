//! Reads a machine file: the hardware that is there, and what its drivers do. The format is this project's own.
#![tactic(auto)]

mod draft;
mod driver;
mod index;
mod line;
mod locator;
mod lookup;
mod machine;
mod names;
mod numbers;
mod spot;
mod word;

pub use machine::read_machine;
pub use machine_text::MachineStop;
