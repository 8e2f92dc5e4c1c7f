//! What the statements of a configuration declare, and the first code of each.
#![tactic(auto)]

mod declarations;
mod define;
mod entry;
mod fault;
mod grow;
mod join;
mod judge;
mod lookup;
mod names;
mod spot;

pub use declarations::Declarations;
pub use judge::MAX_INSTANCES;
