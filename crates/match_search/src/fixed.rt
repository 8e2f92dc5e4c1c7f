//! The rows without a star by their devices and units, and which of them are live once a device has come or gone.
ghost use Rattle.std.specs.Prelude.{◌≡◌, ◌<◌, ◌≤◌, [], length, IfOk, OnOk};
ghost use Rattle.match_search.specs.Fixed.{AreFixed, HasToo, fixed_in, hits_at, lists_of, place_in, rows_set};

use crate::live::LiveRows;
use cf_types::{Memory, Row, Tables};
use std::alloc::Global;
use std::marker::Model;

/// A unit of a driver.
#[derive(Clone, Copy)]
pub struct DriverUnit {
    pub device: u32,
    pub unit: u32,
}

/// The rows without a star, in lists by device and unit: all of a device and a unit are in one list. Contracts see the
/// lists.
#[derive(Drop)]
pub struct FixedRows {
    lists: Vec<Vec<u16>>,
}

impl Model for FixedRows {
    ghost use Rattle.std.specs.Prelude.{ℕ, List};
    ghost use Rattle.match_search.specs.Fixed.{lists_of};

    ghost Value = { List (List ℕ) };

    ghost view = { λ fixed. lists_of fixed.lists.items };
}

/// So many lists, without rows.
pub fn no_lists(alloc: Global, count: usize) -> Result<Vec<Vec<u16>>, Memory>
    ensures { IfOk result (λ lists. length lists.items ≡ count) }
{
    let mut lists = Vec::with_capacity(alloc, count)?;
    for _list in 0..count {
        lists.push(Vec::new(alloc))?;
    }
    Ok(lists)
}

/// The place of the list of a unit among so many.
#[inline(always)]
fn place_of(count: usize, of: DriverUnit) -> usize
    requires { 0 < count }
    ensures is { result ≡ place_in count of.device of.unit }
    ensures within { result < count }
{
    (of.device as usize + of.unit as usize) % count
}

/// Adds a row to the list of its device and unit, if it has no star.
fn add_row(lists: &mut Vec<Vec<u16>>, number: u16, row: &Row) -> Result<(), Memory>
    requires { 0 < length lists.old.items }
    ensures { OnOk result (HasToo (lists_of lists.old.items) (lists_of lists.new.items) number row.now) }
{
    if row.star {
        return Ok(());
    }
    let of = DriverUnit {
        device: row.device,
        unit: row.unit,
    };
    let place = place_of(lists.len(), of);
    lists[place].push(number)?;
    Ok(())
}

/// Whether a row is of this device and unit, and has no star.
#[inline(always)]
fn is_hit(rows: &[Row], row: u16, of: DriverUnit) -> bool
    ensures { result ≡ hits_at rows.now row of.device of.unit }
{
    match rows.get(row as usize) {
        Some(row) => of.device == row.device && of.unit == row.unit && !row.star,
        None => false,
    }
}

impl FixedRows {
    /// Those of these rows.
    pub fn make(alloc: Global, rows: &[Row]) -> Result<FixedRows, Memory>
        requires { length rows.now ≤ 65536 }
        ensures { IfOk result (AreFixed rows.now) }
    {
        let mut lists = no_lists(alloc, rows.len().max(1))?;
        for (number, row) in rows.iter().enumerate() {
            add_row(&mut lists, number as u16, row)?;
        }
        Ok(FixedRows { lists })
    }

    /// The list of a device and a unit.
    #[inline(always)]
    fn rows(&self, of: DriverUnit) -> &[u16]
        requires { 0 < length self.now }
        ensures { result.now ≡ fixed_in self.now of.device of.unit }
    {
        match self.lists.get(place_of(self.lists.len(), of)) {
            Some(rows) => rows,
            None => &[],
        }
    }

    /// Sets whether the rows of a device and a unit are live, those with a star left out. It takes no memory.
    pub fn set(&self, tables: &Tables, rows: &mut LiveRows, of: DriverUnit, live: bool)
        requires fixed { AreFixed tables.now.rows self.now }
        requires length { length rows.old ≡ length tables.now.rows }
        ensures { rows.new ≡ rows_set tables.now.rows rows.old of.device of.unit live }
    {
        let list = self.rows(of);
        for row in list {
            if is_hit(tables.rows.items(), *row, of) {
                rows.set(u32::from(*row), live);
            }
        }
    }
}
