//! The rows at each place, and of these the rows with each first value.
ghost use Rattle.std.specs.Prelude.{◌≡◌, ◌≤◌, [], ◌∷◌, ◌++◌, List, if◌then◌else◌, length, IfOk, OnOk};
ghost use Rattle.cf_types.specs.Numbers.{below};
ghost use Rattle.cf_types.specs.declared.tables.Row.{Row as Line};
ghost use Rattle.match_search.specs.Placed.{AreLooked, ArePlaced, is_under, rows_at, rows_of, rows_under};

use crate::lists::PlaceLists;
use cf_types::{Memory, Place, Row, Tables};
use std::alloc::Global;
use std::collections::HashMap;
use std::hash::Hash;

/// A place, and a value of its first locator where only the rows with that value are meant.
#[derive(Clone, Copy, PartialEq, Eq, Hash)]
pub struct PlaceKey {
    pub place: Place,
    pub first: Option<i64>,
}

/// The rows at each place, and of these the rows with each first value, in their order.
#[derive(Drop)]
pub struct PlacedRows {
    lists: HashMap<PlaceKey, Vec<u16>>,
}

/// Adds a row to those of a key.
fn add<K: Eq + Hash + Drop>(
    lists: &mut HashMap<K, Vec<u16>>,
    key: K,
    row: u16,
    alloc: Global,
) -> Result<(), Memory>
    ensures { OnOk result ((q : K) → rows_at K.eq lists.new q ≡ (if K.eq key q then rows_at K.eq lists.old q ++ row ∷ [] else rows_at K.eq lists.old q)) }
{
    lists.entry(key)?.or_insert(Vec::new(alloc)).push(row)?;
    Ok(())
}

/// Adds a row by its place, and by its place with its first value.
fn add_row(
    lists: &mut HashMap<PlaceKey, Vec<u16>>,
    number: u16,
    row: &Row,
    alloc: Global,
) -> Result<(), Memory>
    ensures { OnOk result ((q : PlaceKey) → rows_of q lists.new ≡ rows_of q lists.old ++ (if is_under q row.now then number ∷ [] else [])) }
{
    let place = row.place;
    add(lists, PlaceKey { place, first: None }, number, alloc)?;
    if let Some(&value) = row.locs.items().first() {
        add(
            lists,
            PlaceKey {
                place,
                first: Some(value),
            },
            number,
            alloc,
        )?;
    }
    Ok(())
}

impl PlacedRows {
    /// These rows by their places.
    pub fn make(alloc: Global, rows: &[Row]) -> Result<PlacedRows, Memory>
        requires { length rows.now ≤ 65536 }
        ensures { IfOk result (ArePlaced rows.now) }
    {
        let mut lists = HashMap::with_capacity(alloc, rows.len() / 2)?;
        for (number, row) in rows.iter().enumerate() {
            add_row(&mut lists, number as u16, row, alloc)?;
        }
        Ok(PlacedRows { lists })
    }

    /// The rows of a key, in their order. It takes no memory.
    pub fn rows(&self, key: PlaceKey) -> &[u16]
        ensures { (rows : List Line) → ArePlaced rows self.now → result.now ≡ rows_under rows key (length rows) }
    {
        match self.lists.get(&key) {
            Some(rows) => rows,
            None => &[],
        }
    }
}

/// The rows among which those that suit a spot are looked for: by their places, and if they are many by their first
/// values too.
#[derive(Drop)]
pub enum Looked {
    Listed(PlaceLists),
    Placed(PlacedRows),
}

/// From how many rows on they are looked for by their first values too.
const MANY: usize = 1024;

/// The rows of these tables, to look among them.
pub fn look_among(alloc: Global, tables: &Tables) -> Result<Looked, Memory>
    requires { length tables.now.rows ≤ 65536 }
    ensures { IfOk result (AreLooked tables.now.rows) }
{
    let rows = tables.rows.items();
    if rows.len() < MANY {
        let lists = PlaceLists::make(alloc, tables.attrs.len(), rows)?;
        return Ok(Looked::Listed(lists));
    }
    Ok(Looked::Placed(PlacedRows::make(alloc, rows)?))
}
