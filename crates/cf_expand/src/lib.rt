//! Reads a configuration file with all that it includes, without the parts that its conditions leave out. See config(5).
#![tactic(auto)]

mod alone;
mod conditions;
mod known_text;
mod lines;
mod open;
mod placed;
mod prefixes;
mod progress;
mod reading;
mod source;
mod statement;
mod steps;
mod stop;
mod unread;

pub use reading::expand;
pub use stop::ExpandStop;
