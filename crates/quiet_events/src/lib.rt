//! Which events end nobody's wait: after such an event, each caller that waited still waits for the same, so nobody has to
//! be woken. The contract is the law. All of it is this project's profile.
#![tactic(auto)]

mod waits;

pub use waits::may_end_wait;
