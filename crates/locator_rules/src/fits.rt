ghost use Rattle.std.specs.Prelude.{◌≡◌};
ghost use Rattle.cf_types.specs.Locators.{fits_locator, submatch};

use cf_types::{Attr, Locs};

/// Whether the value of a row is the locator's default or the value found. See submatch in autoconf(9).
#[inline(always)]
pub fn fits_locator(default: Option<i64>, value: i64, found: i64) -> bool
    ensures { result ≡ fits_locator default value found }
{
    match default {
        Some(default) => value == default || value == found,
        None => value == found,
    }
}

/// Whether the value that a row has for each locator of an attribute fits the one found: it is equal, or it is the
/// locator's default. A value that is missing fits nothing. See submatch in autoconf(9).
#[tactic(auto, unfolding(cf_types::specs::Locators::submatch))]
pub fn submatch(attr: &Attr, row: &Locs, found: &Locs) -> bool
    ensures { result ≡ submatch attr.now.locs row.now found.now }
{
    let mut locators = attr.locs.items();
    let mut values = row.items();
    let mut actual = found.items();
    while let [locator, locators_left @ ..] = locators {
        let [value, values_left @ ..] = values else {
            return false;
        };
        let [found, actual_left @ ..] = actual else {
            return false;
        };
        if !fits_locator(locator.default, *value, *found) {
            return false;
        }
        locators = locators_left;
        values = values_left;
        actual = actual_left;
    }
    true
}
