//! The rows that are looked at for each spot.
ghost use Rattle.std.specs.Prelude.{◌≡◌, ◌<◌, ◌≤◌, false, true, length, List, Some, IfOk, slice_index_or};
ghost use Rattle.cf_types.specs.declared.tables.Row.{Row as Line};
ghost use Rattle.match_search.specs.Leaders.{AreKinds, AreLeaders, AreLeadersOf, NotesToo, chosen, rows_in};

use crate::index::RowIndex;
use crate::kinds::kinds_of;
use cf_types::{Memory, Tables};
use std::alloc::Global;

/// For each spot that many rows suit those rows, the best first, without those that are never live, or never name the
/// parent, where a better one is not. Where that leaves all of them, or few suit it, no list is kept.
#[derive(Drop)]
pub struct Leaders {
    lists: Vec<Option<Vec<u16>>>,
}

/// Notes the kind of a row, if it has one, and says whether it was not noted before.
fn is_new(kinds: &Vec<u16>, seen: &mut Vec<bool>, row: u16) -> bool
    ensures old { result ≡ false → (row < length kinds.now.items) × (slice_index_or seen.old.items (slice_index_or kinds.now.items row 0) false ≡ true) }
    ensures seen { NotesToo kinds.now.items seen.old.items seen.new.items row }
{
    if row as usize >= kinds.len() {
        return true;
    }
    let kind = kinds[row as usize] as usize;
    if kind >= seen.len() {
        return true;
    }
    let noted = seen[kind];
    seen[kind] = true;
    !noted
}

/// The first row of each kind, in their order.
fn firsts(kinds: &Vec<u16>, rows: &[u16]) -> Result<Vec<u16>, Memory>
    ensures { (lines : List Line) → AreKinds lines kinds.now.items → IfOk result (λ list. AreLeaders lines rows.now list.items) }
{
    let alloc = *kinds.allocator();
    let mut seen = vec![in alloc; false; kinds.len()]?;
    let mut list = Vec::new(alloc);
    for row in rows {
        if is_new(kinds, &mut seen, *row) {
            list.push(*row)?;
        }
    }
    Ok(list)
}

/// From how many rows on a list is looked through for rows that may be left out.
const LONG: usize = 8;

/// Whether a spot has so many rows that suit it.
fn has_long(index: &RowIndex) -> bool
    requires { length index.now ≤ 1024 }
{
    for spot in 0..index.count() as u16 {
        if index.rows(spot).len() >= LONG {
            return true;
        }
    }
    false
}

/// The same of a long list, unless all rows are left.
fn kept(kinds: &Vec<u16>, rows: &[u16]) -> Result<Option<Vec<u16>>, Memory>
    ensures { (lines : List Line) → AreKinds lines kinds.now.items → IfOk result (λ list. AreLeaders lines rows.now (chosen rows.now (Some list))) }
{
    if rows.len() < LONG {
        return Ok(None);
    }
    let list = firsts(kinds, rows)?;
    if list.len() < rows.len() {
        Ok(Some(list))
    } else {
        Ok(None)
    }
}

impl Leaders {
    /// Those of the rows of an index.
    pub fn make(alloc: Global, tables: &Tables, index: &RowIndex) -> Result<Leaders, Memory>
        requires few_rows { length tables.now.rows ≤ 65536 }
        requires few_spots { length index.now ≤ 1024 }
        ensures { IfOk result (AreLeadersOf tables.now index.now) }
    {
        if !has_long(index) {
            return Ok(Leaders {
                lists: Vec::new(alloc),
            });
        }
        let kinds = kinds_of(alloc, tables.rows.items())?;
        let mut lists = Vec::with_capacity(alloc, index.count())?;
        for spot in 0..index.count() as u16 {
            lists.push(kept(&kinds, index.rows(spot))?)?;
        }
        Ok(Leaders { lists })
    }

    /// The rows that are looked at for a spot: those that are kept, or all that suit it. It takes no memory.
    #[inline(always)]
    pub fn rows<'a>(&'a self, index: &'a RowIndex, spot: u16) -> &'a [u16]
        ensures { result.now ≡ rows_in index.entry.now self.entry.now.lists.items spot }
    {
        match self.lists.get(spot as usize) {
            Some(Some(list)) => list,
            _ => index.rows(spot),
        }
    }
}
