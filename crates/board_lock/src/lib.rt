//! A board behind one lock, with a seat for each script, so that scripts run in threads of their own. Behind the lock
//! are the board, the keeper of the leases, and three books: of the callers that ended, of their events, and of the
//! rights to stop that are left. A caller's share of each book is in its seat. All of this is this project's profile.
#![tactic(auto)]

mod deal;
mod finish;
mod lease_slots;
mod locked;
mod names;
mod parts;
mod returned;
mod seat;
mod shared;
mod tally;
mod turn;

pub use lease_slots::LeaseSlots;
pub use names::{Closings, Dids, Naming, Stops};
pub use parts::RunParts;
pub use seat::{Done, DoneEnd, Seat};
pub use shared::{Finished, SharedBoard};
pub use turn::LockAnswer;
