ghost use Rattle.std.specs.Prelude.{◌≡◌, ℕ, List, [], ◌∷◌, ◌++◌, OnOk, length};
ghost use Rattle.cf_names.specs.NameNumbers.{AreNumbers, number_in};

use crate::hash::NameHash;
use cf_types::{Memory, Name};
use indexmap::IndexMap;
use std::alloc::Global;

/// Names in the order in which they come, each with its number: that of the first that is the same.
pub type NameNumbers = IndexMap<Name, u32, NameHash>;

/// No name yet. It takes no memory.
pub fn no_numbers(alloc: Global, hash: NameHash) -> NameNumbers
    ensures { AreNumbers result [] }
{
    IndexMap::with_hasher(alloc, hash)
}

/// Makes room for this many more names.
pub fn reserve_names(numbers: &mut NameNumbers, more: usize) -> Result<(), Memory>
    ensures { (names : List (List ℕ)) → AreNumbers numbers.old names → AreNumbers numbers.new names }
{
    numbers.reserve(more)?;
    Ok(())
}

/// The number of a name.
pub fn number_in(numbers: &NameNumbers, name: &Name) -> Option<usize>
    ensures { result ≡ number_in numbers.now name.now }
{
    match numbers.get(name) {
        Some(number) => Some(*number as usize),
        None => None,
    }
}

/// Adds the next name, with its number. If an earlier name is the same, the earlier number stays.
pub fn add_name(numbers: &mut NameNumbers, name: &Name, number: usize) -> Result<(), Memory>
    ensures { OnOk result ((names : List (List ℕ)) → AreNumbers numbers.old names → length names ≡ number → AreNumbers numbers.new (names ++ name.now ∷ [])) }
{
    let Ok(short) = u32::try_from(number) else {
        return Err(Memory);
    };
    let key = name.clone()?;
    numbers.entry(key)?.or_insert(short);
    Ok(())
}
