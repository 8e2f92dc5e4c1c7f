//! Names with their numbers, found by binary search.
ghost use Rattle.std.specs.Prelude.{◌≡◌, ℕ, List, None, OnOk};
ghost use Rattle.machine_model.specs.NumberedNames.{AreInOrder, IsPlaceOf, IsWith, number_in};

use cf_types::Memory;

/// A name with its number.
#[derive(Clone, Copy)]
pub struct Numbered<'t> {
    name: &'t [u8],
    number: usize,
}

/// Names in order, each with its number: that of the first that is the same.
pub type NumberedNames<'t> = Vec<Numbered<'t>>;

/// The place of a name: how many names come before it.
fn place_of(numbers: &NumberedNames, name: &[u8]) -> usize
    requires { AreInOrder numbers.now.items }
    ensures { IsPlaceOf name.now numbers.now.items result }
{
    numbers.partition_point(|numbered| numbered.name.cmp(&name).is_lt())
}

/// The number of a name with this place.
fn number_at(numbers: &NumberedNames, place: usize, name: &[u8]) -> Option<usize>
    requires order { AreInOrder numbers.now.items }
    requires place { IsPlaceOf name.now numbers.now.items place }
    ensures { result ≡ number_in numbers.now.items name.now }
{
    match numbers.get(place) {
        Some(numbered) => if numbered.name == name {
            Some(numbered.number)
        } else {
            None
        },
        None => None,
    }
}

/// The number of a name.
pub fn number_in(numbers: &NumberedNames, name: &[u8]) -> Option<usize>
    requires { AreInOrder numbers.now.items }
    ensures { result ≡ number_in numbers.now.items name.now }
{
    number_at(numbers, place_of(numbers, name), name)
}

/// Adds a name, which is not there yet, at its place.
pub fn add<'t>(numbers: &mut NumberedNames<'t>, name: &'t [u8], number: usize) -> Result<(), Memory>
    requires order { AreInOrder numbers.old.items }
    requires new { number_in numbers.old.items name.now ≡ None }
    ensures order { OnOk result (AreInOrder numbers.new.items) }
    ensures also { OnOk result (IsWith name.now number numbers.old.items numbers.new.items) }
{
    let place = place_of(numbers, name);
    numbers.insert(place, Numbered { name, number })?;
    Ok(())
}

/// Adds a name at the end.
pub fn push<'t>(
    numbers: &mut NumberedNames<'t>,
    name: &'t [u8],
    number: usize,
) -> Result<(), Memory>
    ensures { OnOk result (IsWith name.now number numbers.old.items numbers.new.items) }
{
    numbers.push(Numbered { name, number })?;
    Ok(())
}

/// Puts names in order; of equal names the first stays the first.
pub fn put_in_order(numbers: &mut NumberedNames) -> Result<(), Memory>
    ensures order { OnOk result (AreInOrder numbers.new.items) }
    ensures same { OnOk result ((q : List ℕ) → number_in numbers.new.items q ≡ number_in numbers.old.items q) }
{
    numbers.sort_by_key(|numbered| numbered.name)?;
    Ok(())
}
