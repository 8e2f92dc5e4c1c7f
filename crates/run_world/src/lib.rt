//! The world of a run, as the parts of a board hold it: what is looked up in it, and what its callers are in the middle of.
#![tactic(auto)]

mod activity;
mod caller;
mod going;
mod held;
mod named;
mod parts;
mod recent;
mod rescan_filter;
mod same_tree;
mod script;
mod site;
mod spot_set;
mod spots;

pub use activity::{begin, begin_scan, finish, is_ended};
pub use caller::CallerState;
pub use going::Going;
pub use held::Held;
pub use named::{attr_named, device_named, spot_named};
pub use parts::{Core, append, opening_core};
pub use recent::{Called, Recent, Telling};
pub use rescan_filter::{locator_place, wanted_by};
pub use script::{command_of, given_by};
pub use site::Site;
pub use spot_set::SpotSet;
pub use spots::{attach_of, driver_name, driver_of, has, is_occupied, place_of, policy_of};
