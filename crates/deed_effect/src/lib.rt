//! What a deed changes: the parts of a board, and the slots of the spots whose devices come and go.
#![tactic(auto)]

mod attach;
mod commit;
mod effect;
mod freed;
mod room;
mod run;
mod slots;

pub use room::make_room;
pub use run::{finish_transfer, run_deed};
pub use slots::Halt;
