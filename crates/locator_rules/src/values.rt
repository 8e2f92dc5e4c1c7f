ghost use Rattle.std.specs.Prelude.{◌≡◌, ◌≤◌, [], false, length, map, is_some, option_map};
ghost use Rattle.std.specs.List.{list_any};
ghost use Rattle.cf_types.specs.Lookups.{given_named, locator_named};
ghost use Rattle.config_rules.specs.Fault.{repeats};
ghost use Rattle.config_rules.specs.Joined.{fill, fill_fault, filled, is_wanting, pair_fault, pairs_fault};

use cf_types::code::configuration as code;
use cf_types::{Attr, GivenLoc, Locator, Locs, Name};

/// The locator of this name.
fn locator_named<'a>(locs: &'a [Locator], name: &Name) -> Option<&'a Locator>
    ensures { option_map (λ l. l.now) result ≡ locator_named locs.now name.now }
{
    locs.iter().find(|l| l.name == *name)
}

/// The pair of this name.
fn given_named<'a>(given: &'a [GivenLoc], name: &Name) -> Option<&'a GivenLoc>
    ensures { option_map (λ g. g.now) result ≡ given_named given.now name.now }
{
    given.iter().find(|g| g.name == *name)
}

/// Whether there is a pair of this name.
fn is_given(given: &[GivenLoc], name: &Name) -> bool
    ensures { result ≡ is_some (given_named given.now name.now) }
{
    given_named(given, name).is_some()
}

/// The first code of a pair after those before it.
fn pair_fault(locs: &[Locator], before: &[GivenLoc], pair: &GivenLoc) -> Option<u8>
    ensures { result ≡ pair_fault locs.now before.now pair.now }
{
    let Some(locator) = locator_named(locs, &pair.name) else {
        return Some(code::UNKNOWN_LOCATOR);
    };
    if is_given(before, &pair.name) {
        return Some(code::LOCATOR_TWICE);
    }
    if pair.value.is_none() && locator.default.is_none() {
        return Some(code::NO_DEFAULT);
    }
    None
}

/// The first code of the pairs.
fn pairs_fault(locs: &[Locator], given: &[GivenLoc]) -> Option<u8>
    ensures { result ≡ pairs_fault locs.now [] given.now }
{
    for (i, pair) in given.iter().enumerate() {
        if let Some(code) = pair_fault(locs, &given[..i], pair) {
            return Some(code);
        }
    }
    None
}

/// Whether a locator must be written and is not.
fn is_wanting(given: &[GivenLoc], locator: &Locator) -> bool
    ensures { result ≡ is_wanting given.now locator.now }
{
    !locator.optional && !is_given(given, &locator.name)
}

/// Whether one of the locators must be written and is not.
fn has_wanting(locs: &[Locator], given: &[GivenLoc]) -> bool
    ensures { result ≡ list_any (is_wanting given.now) locs.now }
{
    locs.iter().any(|l| is_wanting(given, l))
}

/// The first code of the pairs, and then of the locators that are not written.
#[tactic(auto, unfolding(config_rules::specs::Joined::fill_fault))]
fn fill_fault(locs: &[Locator], given: &[GivenLoc]) -> Option<u8>
    ensures { result ≡ fill_fault locs.now given.now }
{
    if let Some(code) = pairs_fault(locs, given) {
        return Some(code);
    }
    if has_wanting(locs, given) {
        return Some(code::MISSING_LOCATOR);
    }
    None
}

/// The value of a locator: the one that is written, or its default.
fn filled(given: &[GivenLoc], locator: &Locator) -> i64
    ensures { result ≡ filled given.now locator.now }
{
    let written = match given_named(given, &locator.name) {
        Some(pair) => pair.value,
        None => None,
    };
    written.or(locator.default).unwrap_or(0)
}

/// The values of the locators of an attribute, in order, for an instance that writes these pairs. The error is the
/// first code: for each pair in turn `UNKNOWN_LOCATOR`, `LOCATOR_TWICE`, or `NO_DEFAULT` for `?`; then
/// `MISSING_LOCATOR` for a locator without brackets that is not written. The attribute has at most 16 locators, whose
/// names differ. See config(5).
#[tactic(auto, unfolding(config_rules::specs::Joined::fill))]
pub fn fill(attr: &Attr, given: &[GivenLoc]) -> Result<Locs, u8>
    requires few { length attr.now.locs ≤ 16 }
    requires differ { repeats (map (λ l. l.name) attr.now.locs) ≡ false }
    ensures { result ≡ fill attr.now.locs given.now }
{
    let locs = attr.locs.items();
    if let Some(code) = fill_fault(locs, given) {
        return Err(code);
    }
    let mut values = Locs::make();
    for locator in locs {
        values.push(filled(given, locator));
    }
    Ok(values)
}
