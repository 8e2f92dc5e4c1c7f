//! Cuts a configuration file into tokens.
#![tactic(auto)]

mod check;
mod front;
mod line;
mod rest;
mod text;

pub use cf_types::{Token, TokenKind};
pub use line::LexStop;
pub use rest::{Cutting, Rest, cut_statement, skip};
pub use text::cut;
