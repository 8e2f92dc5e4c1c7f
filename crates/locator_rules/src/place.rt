ghost use Rattle.std.specs.Prelude.{◌≡◌};
ghost use Rattle.cf_types.specs.Locators.{locators_at};

use cf_types::{Locator, Place, Tables};

/// The locators of a place of the tables; the root has none.
pub fn locators_at(tables: &Tables, place: Place) -> &[Locator]
    ensures { result.now ≡ locators_at tables.now.attrs place }
{
    match place {
        Place::Root => &[],
        Place::At(attr) => match tables.attrs.items().get(attr as usize) {
            Some(attr) => attr.locs.items(),
            None => &[],
        },
    }
}
