//! The locator values that a rescan wants. See drvctl(8).
ghost use Rattle.std.specs.Prelude.{ℕ, ◌≡◌, ◌≤◌, ◌<◌, true, length, Some, bytes_eq, is_some, map, position, IfOk, IfSome};
ghost use Rattle.cf_types.specs.Locators as shared;
ghost use Rattle.cf_types.specs.declared.tables.Place.TheVariants.{At};
ghost use Rattle.run_rules.specs.After as rule;
ghost use Rattle.run_rules.specs.Next as next;
ghost use Rattle.run_world.specs.Rescans.{IsKnown};

use cf_types::{Given, List, Locator, Memory, Place};
use locator_rules::locators_at;
use run_rules::{Setup, Wanted};
use std::alloc::Global;

/// The place of the locator of a name.
pub fn locator_place(locators: &[Locator], name: &[u8]) -> Option<usize>
    ensures place { position (λ l. bytes_eq l.name name.now) locators.now ≡ result }
    ensures below { IfSome result (λ place. place < length locators.now) }
{
    for (place, locator) in locators.iter().enumerate() {
        if locator.name.bytes() == name {
            return Some(place);
        }
    }
    None
}

/// The value that is given for the locator of a place.
fn wanted_at(place: u8, given: &Given) -> Wanted
    ensures { result ≡ record { place = place; value = given.now.value } }
{
    Wanted {
        place,
        value: given.value,
    }
}

/// The locator values that a rescan wants, each by its place.
fn wanted_of(alloc: Global, locators: &[Locator], given: &[Given]) -> Result<List<Wanted>, Memory>
    requires few { length locators.now ≤ 16 }
    requires known { is_some (next.wanted_of (map (λ l. l.name) locators.now) given.now) ≡ true }
    ensures { IfOk result (λ list. next.wanted_of (map (λ l. l.name) locators.now) given.now ≡ Some list) }
{
    let mut list = List::make(alloc);
    for value in given {
        match locator_place(locators, value.name.bytes()) {
            Some(place) => list.push(wanted_at(place as u8, value))?,
            None => unreachable!(),
        }
    }
    Ok(list)
}

/// The values that a rescan of an attribute wants by what is given; none if it is of all attributes.
pub fn wanted_by(
    alloc: Global,
    setup: &Setup,
    given: &[Given],
    only: Option<u32>,
) -> Result<List<Wanted>, Memory>
    requires few { (a : ℕ) → length (shared.locators_at setup.now.tables.attrs (At a)) ≤ 16 }
    requires known { IfSome only (IsKnown setup.now given.now) }
    ensures { IfOk result (λ list. rule.wanted_by setup.now given.now only ≡ list) }
{
    match only {
        Some(attr) => wanted_of(alloc, locators_at(&setup.tables, Place::At(attr)), given),
        None => Ok(List::make(alloc)),
    }
}
