//! What a search for devices goes through: the stack of what has begun, and the next turn of a scan.
#![tactic(auto)]

mod bus;
mod scan;
mod spans;
mod spots;
mod stack;
mod styles;

pub use run_rules::{Frame, Position, Span, Turn, Wanted};
pub use scan::{Ground, Searched, next_turn, offered};
pub use spans::{ChildSpans, Children};
pub use spots::is_child;
pub use stack::Stack;
pub use styles::Styles;
