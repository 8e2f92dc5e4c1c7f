//! The locator values that a rescan wants. See drvctl(8).
ghost use Rattle.std.specs.Prelude.{◌≡◌, ◌≤◌, ◌<◌, ◌==◌, IfOk, IfSome, length, bytes_eq, position, option_map};
ghost use Rattle.std.specs.List.{list_any};
ghost use Rattle.run_rules.specs.After as after;
ghost use Rattle.run_rules.specs.Next as next;
ghost use Rattle.plain_world.specs.Wanted.{names_of, wants};

use crate::rules::Rules;
use cf_types::{Given, List, Locator, Memory, Place};
use locator_rules::locators_at;
use run_rules::Wanted;
use std::alloc::Global;

/// The place of the locator of a name.
fn locator_place(locators: &[Locator], name: &[u8]) -> Option<usize>
    ensures place { position (λ l. bytes_eq l.name name.now) locators.now ≡ result }
    ensures below { IfSome result (λ place. place < length locators.now) }
{
    for (place, locator) in locators.iter().enumerate() {
        if locator.name.bytes() == name {
            return Some(place);
        }
    }
    None
}

/// Whether a value is wanted for a place already.
fn has_place(wanted: &[Wanted], place: usize) -> bool
    ensures { result ≡ list_any (λ v. v.place == place) wanted.now }
{
    wanted.iter().any(|value| value.place as usize == place)
}

/// The value that is given for the locator of a place.
fn wanted_at(place: u8, given: &Given) -> Wanted
    ensures { result ≡ record { place = place; value = given.now.value } }
{
    Wanted {
        place,
        value: given.value,
    }
}

/// The value for a locator, before those for the others; none if it is no locator, or is wanted already.
fn with_first(
    locators: &[Locator],
    first: &Given,
    rest: Vec<Wanted>,
) -> Result<Option<Vec<Wanted>>, Memory>
    requires few { length locators.now ≤ 16 }
    ensures { IfOk result (λ list. wants (names_of locators.now) first.now rest.items ≡ option_map (λ v. v.items) list) }
{
    let Some(place) = locator_place(locators, first.name.bytes()) else {
        return Ok(None);
    };
    if has_place(&rest, place) {
        return Ok(None);
    }
    let mut list = rest;
    list.insert(0, wanted_at(place as u8, first))?;
    Ok(Some(list))
}

/// The locator values that a rescan gives, each by its place; none if one is not a locator or is given twice.
pub fn wanted_of(
    alloc: Global,
    locators: &[Locator],
    given: &[Given],
) -> Result<Option<Vec<Wanted>>, Memory>
    requires few { length locators.now ≤ 16 }
    ensures { IfOk result (λ list. next.wanted_of (names_of locators.now) given.now ≡ option_map (λ v. v.items) list) }
{
    match given {
        [] => Ok(Some(Vec::new(alloc))),
        [first, rest @ ..] => match wanted_of(alloc, locators, rest)? {
            None => Ok(None),
            Some(list) => with_first(locators, first, list),
        },
    }
}

/// The values that a rescan of an attribute wants by what is given; none if it is of all attributes.
pub fn wanted_by(
    alloc: Global,
    rules: &Rules,
    given: &[Given],
    only: Option<u32>,
) -> Result<List<Wanted>, Memory>
    ensures { IfOk result (λ list. after.wanted_by rules.now given.now only ≡ list) }
{
    let Some(attr) = only else {
        return Ok(List::make(alloc));
    };
    match wanted_of(alloc, locators_at(rules.tables, Place::At(attr)), given)? {
        Some(list) => Ok(List::from_vec(list)),
        None => Ok(List::make(alloc)),
    }
}
