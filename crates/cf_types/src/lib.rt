//! The plain types that the other crates share: lists and names, statements and tokens, tables, machines and scripts, and
//! the codes of their faults.
#![tactic(auto)]

pub mod code;
mod declared;
mod few;
mod held;
mod instance;
mod item_list;
mod keyword;
mod list;
mod locs;
mod machine;
mod memory;
mod name;
mod pieces;
mod put;
mod shared;
mod stmt;
mod tables;
mod tree;

pub use declared::Declared;
pub use few::Few;
pub use held::{Held, Items, Pieces};
pub use instance::{AttachPlace, Instance, Joined, Target};
pub use item_list::ItemList;
pub use keyword::{CONDITION_WORDS, KEYWORDS, Keyword};
pub use list::{List, Text};
pub use locs::Locs;
pub use machine::{Command, Given, Machine, MatchLine, Policy, Script, Spot, StyleLine, Ticket};
pub use memory::Memory;
pub use name::Name;
pub use pieces::{PieceList, PieceSpan, PieceView};
pub use put::{put_bytes, put_decimal};
pub use shared::SharedText;
pub use stmt::{
    AtSpec, CondWord, Expanded, GivenLoc, Item, ItemKind, Piece, Placed, Stmt, Token, TokenKind,
    UnitMark,
};
pub use tables::{
    Attach, Attr, Device, Locator, ParentSpec, Place, Pseudo, Refusal, Row, Tables, WarnKind,
    Warning,
};
pub use tree::{DevLine, Hold};
