//! Replay: a printed history, read by an independent reader over plain lists.
#![tactic(auto)]

mod cut;
mod head;
mod history;
mod means;
mod reader;

pub use history::{ReplayStop, Replayed, replay, reread};
