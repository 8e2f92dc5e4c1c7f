//! What a command names: devices, spots and attributes.
ghost use Rattle.std.specs.Prelude.{◌≡◌, ◌≤◌, ◌++◌, IfSome, IsTrue, length, bytes_eq, decimal, position};
ghost use Rattle.run_rules.specs.World as world;

use crate::parts::Core;
use crate::spots::{driver_name, driver_of};
use run_rules::{Dev, Setup};

/// Whether a name is this beginning followed by the digits of a number. Names of devices differ mostly in their last
/// digit, so they are compared from there.
fn is_unit_name(name: &[u8], front: &[u8], unit: u32) -> bool
    ensures { bytes_eq (front.now ++ decimal unit) name.now ≡ result }
{
    match name {
        [] => false,
        [rest @ .., last] => {
            let ends = u32::from(*last) == u32::from(b'0') + unit % 10;
            if unit < 10 {
                ends && front == rest
            } else {
                ends && is_unit_name(rest, front, unit / 10)
            }
        }
    }
}

/// Whether a device has the name.
#[tactic(auto, unfolding(run_rules::specs::World::unit_name))]
#[inline(always)]
fn is_called(setup: &Setup, device: &Dev, name: &[u8]) -> bool
    ensures { result ≡ bytes_eq (world.name_of setup.now device.now) name.now }
{
    is_unit_name(
        name,
        driver_name(setup, driver_of(setup, device.row)),
        device.unit,
    )
}

/// The live device of a name.
pub fn device_named(setup: &Setup, core: &Core, name: &[u8]) -> Option<Dev>
    ensures found { world.device_named setup.now core.now.tree.live name.now ≡ result }
    ensures live { IfSome result (λ d. IsTrue (world.is_live core.now.tree.live d.serial)) }
{
    for device in core.tree.devices() {
        if is_called(setup, device, name) {
            return Some(*device);
        }
    }
    None
}

/// The number of the spot of a name.
pub fn spot_named(setup: &Setup, name: &[u8]) -> Option<u16>
    requires few { length setup.now.machine.spots ≤ 1024 }
    ensures { position (λ x. bytes_eq x.name name.now) setup.now.machine.spots ≡ result }
{
    for (place, spot) in setup.machine.spots.items().iter().enumerate() {
        if spot.name.bytes() == name {
            return Some(place as u16);
        }
    }
    None
}

/// The number of the attribute of a name.
pub fn attr_named(setup: &Setup, name: &[u8]) -> Option<u32>
    requires few { length setup.now.tables.attrs ≤ 65536 }
    ensures { position (λ a. bytes_eq a.name name.now) setup.now.tables.attrs ≡ result }
{
    for (place, attr) in setup.tables.attrs.items().iter().enumerate() {
        if attr.name.bytes() == name {
            return Some(place as u32);
        }
    }
    None
}
