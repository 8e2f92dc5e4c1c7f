//! The rows at each place.
ghost use Rattle.std.specs.Prelude.{◌≡◌, ◌≤◌, ◌++◌, ◌∷◌, [], if◌then◌else◌, length, IfOk, OnOk};
ghost use Rattle.cf_types.specs.declared.tables.Place.{Place as Where};
ghost use Rattle.run_rules.specs.World.{same_place};
ghost use Rattle.plain_rows.specs.Placed.{ArePlaced, rows_in};

use crate::lists::{add, list_of};
use cf_types::{Memory, Place, Row};
use std::alloc::Global;

/// The rows at the root, and those at each attribute, in their order.
#[derive(Drop)]
pub struct PlacedRows {
    root: Vec<u32>,
    attrs: Vec<Vec<u32>>,
}

/// Adds a row to those of its place.
fn add_row(alloc: Global, placed: &mut PlacedRows, place: Place, row: u32) -> Result<(), Memory>
    ensures { OnOk result ((q : Where) → rows_in placed.new q ≡ rows_in placed.old q ++ (if same_place place q then row ∷ [] else [])) }
{
    match place {
        Place::Root => placed.root.push(row)?,
        Place::At(attr) => add(alloc, &mut placed.attrs, attr, row)?,
    }
    Ok(())
}

impl PlacedRows {
    /// These rows by their places.
    pub fn make(alloc: Global, rows: &[Row]) -> Result<PlacedRows, Memory>
        requires { length rows.now ≤ 8192 }
        ensures { IfOk result (ArePlaced rows.now) }
    {
        let mut placed = PlacedRows {
            root: Vec::new(alloc),
            attrs: Vec::new(alloc),
        };
        for (number, row) in rows.iter().enumerate() {
            add_row(alloc, &mut placed, row.place, number as u32)?;
        }
        Ok(placed)
    }

    /// The rows at a place, in their order.
    pub fn rows(&self, place: Place) -> &[u32]
        ensures { result.now ≡ rows_in self.now place }
    {
        match place {
            Place::Root => &self.root,
            Place::At(attr) => list_of(&self.attrs, attr),
        }
    }
}
