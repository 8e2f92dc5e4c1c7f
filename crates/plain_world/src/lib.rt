//! A world in plain lists, apart from the board: what it holds, and what it goes by.
#![tactic(auto)]

mod caller;
mod live;
mod look;
mod put_off;
mod refs;
mod rules;
mod script;
mod spot_list;
mod stretch;
mod tally;
mod wanted;
mod world;

pub use caller::{Caller, new_scan, same_key};
pub use live::Live;
pub use look::{
    attach_at, device_at, device_on, driver_at, is_live, is_occupied, is_pinned, is_sole, is_under,
    spot_of,
};
pub use put_off::PutOff;
pub use refs::Refs;
pub use rules::{
    Rules, attach_of, attr_named, driver_of, found_at, has, is_bad, is_nothing, is_number, offered,
    place_of, policy_of, row_at, same_place, spot_named,
};
pub use script::{command_at, command_of, has_ended, over_of};
pub use spot_list::SpotList;
pub use stretch::{stretch_at, stretches_of};
pub use wanted::{wanted_by, wanted_of};
pub use world::{Plain, copied, opening};
