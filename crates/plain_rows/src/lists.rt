//! Lists of rows by a number: that of an attribute, or of a driver.
ghost use Rattle.std.specs.Prelude.{◌≡◌, ◌<◌, ◌==◌, ◌++◌, ◌∷◌, ℕ, [], if◌then◌else◌, length, OnOk};
ghost use Rattle.plain_rows.specs.Lists.{list_at};

use cf_types::Memory;
use std::alloc::Global;

/// Makes the lists reach a number.
fn reach(alloc: Global, lists: &mut Vec<Vec<u32>>, number: u32) -> Result<(), Memory>
    ensures same { (k : ℕ) → list_at lists.new.items k ≡ list_at lists.old.items k }
    ensures ok { OnOk result (number < length lists.new.items) }
{
    for _more in lists.len()..number as usize + 1 {
        lists.push(Vec::new(alloc))?;
    }
    Ok(())
}

/// Adds a row to the list of a number.
pub fn add(alloc: Global, lists: &mut Vec<Vec<u32>>, number: u32, row: u32) -> Result<(), Memory>
    ensures { OnOk result ((k : ℕ) → list_at lists.new.items k ≡ list_at lists.old.items k ++ (if number == k then row ∷ [] else [])) }
{
    reach(alloc, lists, number)?;
    lists[number as usize].push(row)?;
    Ok(())
}

/// The list of a number.
#[inline(always)]
pub fn list_of(lists: &Vec<Vec<u32>>, number: u32) -> &[u32]
    ensures { result.now ≡ list_at lists.now.items number }
{
    match lists.get(number as usize) {
        Some(list) => list,
        None => &[],
    }
}
