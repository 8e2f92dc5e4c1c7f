//! Events, and the one line that spells each of them in a history.
#![tactic(auto)]

mod cut;
mod formed;
mod read;
mod read_act;
mod read_names;
mod read_reply;
mod word;

pub use event_line::{put_act, put_event, put_event_1};
pub use read::{read_caller, read_event};
pub use run_rules::{Act, DepthName, Event, Got, IoAnswer, PowerKind, Reply, SharedAct, Shown};
