//! Leases on slots: each slot is a word that changes by single atomic steps, so that a caller that holds a device can
//! look, without a lock, whether it is still live. Bits 0 to 15 of a word are those of callers 1 to 16, bit 16 says
//! that the slot is live, bit 17 that it is condemned, and the others are its generation. All of it is this project's
//! profile.
#![tactic(auto)]

mod holding;
mod lease;
mod rule;
mod table;
mod view;

pub use holding::Leases;
pub use lease::Lease;
pub use rule::LeaseRule;
pub use table::{LeaseKeeper, LeaseSeat, LeaseTable, Taken};
pub use view::{Claim, SeatRecord, SlotRecord, SlotWord, View};
