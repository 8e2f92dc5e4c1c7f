//! The listing of compiled tables, line by line.
#![tactic(auto)]

mod definition;
mod entry;
mod item;
mod row;
mod word;

pub use entry::{put_line, put_line_at_once, put_line_with};
