//! Reads the parts of a statement: its words, names, paths, numbers, units and locators. See config(5).
#![tactic(auto)]

mod known;
mod lists;
mod locator;
mod name;
mod unit;
mod value;
mod word;

pub use known::Known;
pub use locator::locators_of;
pub use name::{
    alone_name, alone_path, bytes_of, is_name_word, is_path_word, known_name, name_of, names_of,
};
pub use unit::{MarkedUnit, place_of, unit_chunk};
pub use value::{count_of, value_of};
pub use word::{Word, behind_first, count_parts, first_part, parted_at, split_before};
