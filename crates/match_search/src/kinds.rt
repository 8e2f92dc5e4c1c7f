//! Which rows are live, and name a parent, together.
ghost use Rattle.std.specs.Prelude.{◌≡◌, ◌<◌, ◌≤◌, ℕ, true, length, IfOk, slice_index_or};
ghost use Rattle.match_search.specs.Leaders.{AreKinds, naming, naming_at};

use cf_types::{Memory, ParentSpec, Row};
use std::alloc::Global;

/// What rows are sorted by so that those with the same naming are side by side.
#[derive(Clone, Copy, PartialEq, Eq, PartialOrd, Ord)]
struct Keyed {
    device: u32,
    unit: u32,
    parent: Option<u32>,
    parent_unit: Option<u32>,
    row: u16,
}

/// Whether two rows name the same parent, or none both.
fn name_alike(a: Option<ParentSpec>, b: Option<ParentSpec>) -> bool
    ensures { result ≡ true → a ≡ b }
{
    match (a, b) {
        (None, None) => true,
        (Some(one), Some(other)) => one.device == other.device && one.unit == other.unit,
        _ => false,
    }
}

/// Whether two rows are of one device and unit, both starred or not, and name the same parent.
fn are_alike(a: &Row, b: &Row) -> bool
    ensures { result ≡ true → naming a.now ≡ naming b.now }
{
    a.device == b.device && a.unit == b.unit && a.star == b.star && name_alike(a.parent, b.parent)
}

/// The rows in an order in which those that are alike are side by side.
fn sorted(alloc: Global, rows: &[Row]) -> Result<Vec<Keyed>, Memory>
    requires { length rows.now ≤ 65536 }
{
    let mut list = Vec::with_capacity(alloc, rows.len())?;
    for (number, row) in rows.iter().enumerate() {
        list.push(Keyed {
            device: row.device,
            unit: row.unit,
            parent: row.parent.map(|spec| spec.device),
            parent_unit: row.parent.and_then(|spec| spec.unit),
            row: number as u16,
        })?;
    }
    list.sort()?;
    Ok(list)
}

/// Each number below a count.
fn numbers(alloc: Global, count: usize) -> Result<Vec<u16>, Memory>
    requires { count ≤ 65536 }
    ensures { IfOk result (λ list. (length list.items ≡ count) × ((r : ℕ) → r < count → slice_index_or list.items r 0 ≡ r)) }
{
    let mut list = Vec::with_capacity(alloc, count)?;
    for number in 0..count {
        list.push(number as u16)?;
    }
    Ok(list)
}

/// The row of a kind, if another row is alike; else that one, of a kind of its own.
fn kind_of(rows: &[Row], kind: usize, row: usize) -> usize
    requires { row < length rows.now }
    ensures there { result < length rows.now }
    ensures same { naming_at rows.now result ≡ naming_at rows.now row }
{
    if kind < rows.len() && are_alike(&rows[kind], &rows[row]) {
        kind
    } else {
        row
    }
}

/// Of each row the number of one that is alike, the same for those that are.
pub fn kinds_of(alloc: Global, rows: &[Row]) -> Result<Vec<u16>, Memory>
    requires { length rows.now ≤ 65536 }
    ensures { IfOk result (λ kinds. AreKinds rows.now kinds.items) }
{
    let mut kinds = numbers(alloc, rows.len())?;
    let mut kind = 0;
    for next in &sorted(alloc, rows)? {
        let row = next.row as usize;
        if row < rows.len() {
            kind = kind_of(rows, kind, row);
            kinds[row] = kind as u16;
        }
    }
    Ok(kinds)
}
