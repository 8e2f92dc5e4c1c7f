//! Laws of progress: every run ends; whoever waits forever is in a ring of callers, each of which waits for a device
//! that the next one holds; and scripts that give back what they hold before they remove devices never come to that.
//! The contracts of the functions that do nothing are the laws.
#![tactic(auto)]

mod ends;
mod plain;
mod ring;

pub use ends::{comes_to_rest, each_lowers, rounds_end, runs_end};
pub use plain::{
    ends_for_all, held_at_most_text, passes, plain_scripts_free_empty_handed, plain_scripts_go_on,
    rounds_end_for_all, sparing_pass, test_decides,
};
pub use ring::{ends_alone, goes_ends_or_rings, never_stuck, ring_where_stuck, stuck_in_a_ring};
