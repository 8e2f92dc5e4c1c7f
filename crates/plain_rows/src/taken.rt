//! How many live devices have the driver and the unit of each row.
ghost use Rattle.std.specs.Prelude.{◌≡◌, ◌<◌, ◌+◌, ◌-◌, ◌^◌, ℕ, length, map, nat_lt, IfOk};
ghost use Rattle.std.specs.List.{slice_index_or};
ghost use Rattle.plain_rows.specs.Taken.{has_unit, times};

use cf_types::{Memory, Row};
use std::alloc::Global;
use std::marker::Model;

/// For each row how many live devices have its driver and unit. Contracts see these numbers in the order of the rows.
#[derive(Drop)]
pub struct Taken {
    counts: Vec<u32>,
}

impl Model for Taken {
    ghost use Rattle.std.specs.Prelude.{ℕ, List};

    ghost Value = { List ℕ };

    ghost view = { λ taken. taken.counts.items };
}

/// Whether a row has this unit.
#[inline(always)]
fn is_of_unit(rows: &[Row], row: u32, unit: u32) -> bool
    ensures { result ≡ has_unit rows.now unit row }
{
    match rows.get(row as usize) {
        Some(row) => unit == row.unit,
        None => false,
    }
}

/// One more for each of some rows that has a unit.
fn raise(counts: &mut [u32], rows: &[Row], listed: &[u32], unit: u32)
    requires rows { length counts.old ≡ length rows.now }
    requires low { (r : ℕ) → slice_index_or counts.old r 0 + times rows.now unit listed.now r < 2 ^ 32 }
    ensures { (r : ℕ) → slice_index_or counts.new r 0 ≡ slice_index_or counts.old r 0 + times rows.now unit listed.now r }
{
    for row in listed {
        if is_of_unit(rows, *row, unit) {
            counts[*row as usize] += 1;
        }
    }
}

/// One less for each of some rows that has a unit.
fn lower(counts: &mut [u32], rows: &[Row], listed: &[u32], unit: u32)
    requires rows { length counts.old ≡ length rows.now }
    ensures { (r : ℕ) → slice_index_or counts.new r 0 ≡ slice_index_or counts.old r 0 - times rows.now unit listed.now r }
{
    for row in listed {
        if is_of_unit(rows, *row, unit) {
            let number = *row as usize;
            counts[number] = counts[number].saturating_sub(1);
        }
    }
}

impl Taken {
    /// No device for any of these rows.
    pub fn make(alloc: Global, rows: &[Row]) -> Result<Taken, Memory>
        ensures { IfOk result (λ taken. taken ≡ map (λ row. 0) rows.now) }
    {
        let mut counts = Vec::with_capacity(alloc, rows.len())?;
        for _row in rows {
            counts.push(0)?;
        }
        Ok(Taken { counts })
    }

    /// A copy of the numbers.
    pub fn copied(&self, alloc: Global) -> Result<Taken, Memory>
        ensures { IfOk result (λ copy. copy ≡ self.now) }
    {
        let counts = Vec::from_slice(alloc, &self.counts)?;
        Ok(Taken { counts })
    }

    /// One more device has this unit and the driver of the listed rows.
    pub fn enter(&mut self, rows: &[Row], listed: &[u32], unit: u32)
        requires rows { length self.old ≡ length rows.now }
        requires low { (r : ℕ) → slice_index_or self.old r 0 + times rows.now unit listed.now r < 2 ^ 32 }
        ensures numbers { (r : ℕ) → slice_index_or self.new r 0 ≡ slice_index_or self.old r 0 + times rows.now unit listed.now r }
        ensures rows { length self.new ≡ length self.old }
    {
        raise(&mut self.counts, rows, listed, unit);
    }

    /// One device fewer has this unit and the driver of the listed rows.
    pub fn leave(&mut self, rows: &[Row], listed: &[u32], unit: u32)
        requires rows { length self.old ≡ length rows.now }
        ensures numbers { (r : ℕ) → slice_index_or self.new r 0 ≡ slice_index_or self.old r 0 - times rows.now unit listed.now r }
        ensures rows { length self.new ≡ length self.old }
    {
        lower(&mut self.counts, rows, listed, unit);
    }

    /// Whether any device has the driver and the unit of a row.
    #[inline(always)]
    pub fn has(&self, row: u32) -> bool
        ensures { result ≡ nat_lt 0 (slice_index_or self.now row 0) }
    {
        match self.counts.get(row as usize) {
            Some(count) => *count > 0,
            None => false,
        }
    }
}
