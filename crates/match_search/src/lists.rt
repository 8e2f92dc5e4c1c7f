//! Lists of rows by their places.
ghost use Rattle.std.specs.Prelude.{◌≡◌, ◌≤◌, length, IfOk, OnOk};
ghost use Rattle.match_search.specs.Lists.{AreListed, HasRow, rows_in};

use crate::fixed::no_lists;
use cf_types::{Memory, Place, Row};
use std::alloc::Global;

/// The rows at each attribute; those of the root and of attributes without a list are together.
#[derive(Drop)]
pub struct PlaceLists {
    root: Vec<u16>,
    attrs: Vec<Vec<u16>>,
}

/// Adds a row to those of its place.
fn add_row(lists: &mut PlaceLists, place: Place, row: u16) -> Result<(), Memory>
    ensures { OnOk result (HasRow lists.old lists.new place row) }
{
    match place {
        Place::At(attr) if (attr as usize) < lists.attrs.len() => {
            lists.attrs[attr as usize].push(row)?;
        }
        _ => lists.root.push(row)?,
    }
    Ok(())
}

impl PlaceLists {
    /// These rows by their places, with a list for each of so many attributes.
    pub fn make(alloc: Global, attrs: usize, rows: &[Row]) -> Result<PlaceLists, Memory>
        requires { length rows.now ≤ 65536 }
        ensures { IfOk result (AreListed rows.now) }
    {
        let mut lists = PlaceLists {
            root: Vec::new(alloc),
            attrs: no_lists(alloc, attrs)?,
        };
        for (number, row) in rows.iter().enumerate() {
            add_row(&mut lists, row.place, number as u16)?;
        }
        Ok(lists)
    }

    /// Rows among which are those of a place. It takes no memory.
    pub fn rows(&self, place: Place) -> &[u16]
        ensures { result.now ≡ rows_in self.now place }
    {
        match place {
            Place::At(attr) => match self.attrs.get(attr as usize) {
                Some(list) => list,
                None => &self.root,
            },
            Place::Root => &self.root,
        }
    }
}
