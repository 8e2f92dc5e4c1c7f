//! Names by numbers.
ghost use Rattle.std.specs.Prelude.{◌≡◌, [], slice_get};
ghost use Rattle.std.specs.Option.{option_map_or};
ghost use Rattle.config_rules.specs.Listing as listing;

use cf_types::{Locator, Machine, Place, Tables};

/// The name of an attribute; empty if there is none of this number.
pub fn attr_name(tables: &Tables, attr: u32) -> &[u8]
    ensures { result.now ≡ listing.attr_name tables.now attr }
{
    match tables.attrs.items().get(attr as usize) {
        Some(attr) => attr.name.bytes(),
        None => &[],
    }
}

/// The name of a device; empty if there is none of this number.
pub fn device_name(tables: &Tables, device: u32) -> &[u8]
    ensures { result.now ≡ listing.device_name tables.now device }
{
    match tables.devices.items().get(device as usize) {
        Some(device) => device.name.bytes(),
        None => &[],
    }
}

/// The name of an attachment; empty if there is none of this number.
pub fn attach_name(tables: &Tables, attach: u32) -> &[u8]
    ensures { result.now ≡ listing.attach_name tables.now attach }
{
    match tables.attaches.items().get(attach as usize) {
        Some(attach) => attach.name.bytes(),
        None => &[],
    }
}

/// The name of a place.
pub fn place_name(tables: &Tables, place: Place) -> &[u8]
    ensures { result.now ≡ listing.place_name tables.now place }
{
    match place {
        Place::Root => b"root",
        Place::At(attr) => attr_name(tables, attr),
    }
}

/// The name of the locator at a place; empty if there is none.
pub fn locator_name(locators: &[Locator], place: u32) -> &[u8]
    ensures { result.now ≡ listing.locator_name locators.now place }
{
    match locators.get(place as usize) {
        Some(locator) => locator.name.bytes(),
        None => &[],
    }
}

/// The name of a spot; empty if there is none of this number.
pub fn spot_name(machine: &Machine, spot: u16) -> &[u8]
    ensures { result.now ≡ option_map_or (λ s. s.name) (slice_get machine.now.spots spot) [] }
{
    match machine.spots.items().get(spot as usize) {
        Some(spot) => spot.name.bytes(),
        None => &[],
    }
}
