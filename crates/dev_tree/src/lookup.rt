//! Look-ups among live devices.
ghost use Rattle.std.specs.Prelude.{◌≡◌, ◌<◌, false, true, not, ◌==◌, IfOk, IsTrue, MatchOption, length, map, slice_index_or, option_map, find};
ghost use Rattle.std.specs.List.{zip};
ghost use Rattle.run_rules.specs.World as world;
ghost use Rattle.run_rules.specs.declared.world.Dev.{Dev};
ghost use Rattle.dev_tree.specs.Tree.{AreInOrder, has_name};

use cf_types::{List, Memory};
use run_rules::Dev;
use std::alloc::Global;

/// The place of the live device with the serial.
#[inline(always)]
pub fn place_of(live: &[Dev], serial: u64) -> Option<usize>
    requires { AreInOrder live.now }
    ensures { MatchOption result (world.is_live live.now serial ≡ false)
        (λ i. (i < length live.now) × ((d : Dev) → (slice_index_or live.now i d).serial ≡ serial)) }
{
    // If no earlier device was freed, the place is one below the serial.
    let place = (serial as usize).saturating_sub(1);
    if place < live.len() && live[place].serial == serial {
        return Some(place);
    }
    live.binary_search_by_key(&serial, |device| device.serial)
        .ok()
}

/// The live device with the serial.
#[inline(always)]
pub fn device_at(live: &[Dev], serial: u64) -> Option<Dev>
    requires { AreInOrder live.now }
    ensures { result ≡ world.device_at live.now serial }
{
    match place_of(live, serial) {
        Some(place) => Some(live[place]),
        None => None,
    }
}

/// The serial of the device with the driver and the unit.
pub fn serial_named(live: &[Dev], drivers: &[u32], device: u32, unit: u32) -> Option<u64>
    requires { length drivers.now ≡ length live.now }
    ensures { option_map (λ p. p.0.serial) (find (has_name device unit) (zip live.now drivers.now)) ≡ result }
{
    for (place, live_device) in live.iter().enumerate() {
        if drivers[place] == device && live_device.unit == unit {
            return Some(live_device.serial);
        }
    }
    None
}

/// The serials of the children of a device, in order.
pub fn children(alloc: Global, live: &[Dev], serial: u64) -> Result<List<u64>, Memory>
    ensures { IfOk result (λ list. list ≡ map (λ d. d.serial) (world.children live.now serial)) }
{
    let mut serials = List::make(alloc);
    for device in live {
        if device.parent == serial {
            serials.push(device.serial)?;
        }
    }
    Ok(serials)
}

/// The serials of a device and of all that is below it, in order.
pub fn subtree(alloc: Global, live: &[Dev], serial: u64) -> Result<List<u64>, Memory>
    requires { AreInOrder live.now }
    ensures { IfOk result (λ list. list ≡ map (λ d. d.serial) (world.subtree live.now serial)) }
{
    let mut serials = List::make(alloc);
    for device in live {
        if is_under(live, device.serial, serial) {
            serials.push(device.serial)?;
        }
    }
    Ok(serials)
}

/// The parent of a device; 0 for the root, and if no such device is live.
#[inline(always)]
fn parent_of(live: &[Dev], serial: u64) -> u64
    requires { AreInOrder live.now }
    ensures { result ≡ world.parent_of live.now serial }
{
    match device_at(live, serial) {
        Some(device) => device.parent,
        None => 0,
    }
}

/// Whether a chain of parents leads from the device to the one above. It goes no further than the root.
pub fn is_under(live: &[Dev], serial: u64, above: u64) -> bool
    requires { AreInOrder live.now }
    ensures { world.is_under live.now above serial ≡ result }
{
    let mut current = serial;
    for _level in 0..live.len() {
        if current == above {
            return true;
        }
        if current == 0 {
            return false;
        }
        current = parent_of(live, current);
    }
    false
}
