//! The first locator of which a row wants another value.
ghost use Rattle.std.specs.Prelude.{◌≡◌, ◌≤◌, find, length, not};
ghost use Rattle.cf_types.specs.Numbers.{below};
ghost use Rattle.match_reasons.specs.Reasons.{fits_at};

use cf_types::Locator;
use locator_rules::fits_locator;

/// Whether the value that a row has for the locator at a place fits the one found.
fn fits_at(locators: &[Locator], values: &[i64], found: &[i64], place: usize) -> bool
    ensures { result ≡ fits_at locators.now values.now found.now place }
{
    match (locators.get(place), values.get(place), found.get(place)) {
        (None, _, _) => true,
        (Some(locator), Some(value), Some(found)) => {
            fits_locator(locator.default, *value, *found)
        }
        (Some(_), _, _) => false,
    }
}

/// The place of the first locator of which a row wants another value than is found.
pub fn missed_at(locators: &[Locator], values: &[i64], found: &[i64]) -> Option<u32>
    requires { length locators.now ≤ 16 }
    ensures { result ≡ find (λ i. not (fits_at locators.now values.now found.now i)) (below (length locators.now)) }
{
    for place in 0..locators.len() as u32 {
        if !fits_at(locators, values, found, place as usize) {
            return Some(place);
        }
    }
    None
}
