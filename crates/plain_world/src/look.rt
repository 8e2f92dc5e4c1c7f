//! Look-ups among live devices and frames.
ghost use Rattle.std.specs.Prelude.{◌≡◌, ◌==◌, ◌||◌};
ghost use Rattle.std.specs.List.{list_any};
ghost use Rattle.run_rules.specs.declared.world.Setup.{Setup};
ghost use Rattle.run_rules.specs.Search as rule;
ghost use Rattle.run_rules.specs.World as world;
ghost use Rattle.plain_world.specs.Plain.{world_of};

use crate::caller::Caller;
use crate::live::Live;
use crate::rules::{Rules, attach_of, driver_of};
use crate::world::Plain;
use run_rules::Dev;

/// The live device of a serial.
#[inline(always)]
pub fn device_at(live: &Live, serial: u64) -> Option<Dev>
    ensures { result ≡ world.device_at live.now.devices serial }
{
    live.get(serial)
}

/// The live device on a spot.
pub fn device_on(live: &Live, spot: u16) -> Option<Dev>
    ensures { result ≡ world.device_on live.now.devices spot }
{
    live.devices()
        .iter()
        .copied()
        .find(|device| device.spot == spot)
}

/// Whether a device is live.
pub fn is_live(live: &Live, serial: u64) -> bool
    ensures { result ≡ world.is_live live.now.devices serial }
{
    live.has(serial)
}

/// Whether a live device is on a spot.
pub fn is_occupied(live: &Live, spot: u16) -> bool
    ensures { result ≡ rule.is_occupied live.now.devices spot }
{
    live.is_on(spot)
}

/// The parent of a device; 0 for the root, and if no such device is live.
pub fn parent_of(live: &Live, serial: u64) -> u64
    ensures { result ≡ world.parent_of live.now.devices serial }
{
    match device_at(live, serial) {
        Some(device) => device.parent,
        None => 0,
    }
}

/// Whether a device is held solely.
pub fn is_sole(sole: &[u64], serial: u64) -> bool
    ensures { result ≡ world.has sole.now serial }
{
    sole.iter().any(|held| *held == serial)
}

/// Whether a frame of one of these callers is for a device.
fn has_frames(callers: &[Caller], serial: u64) -> bool
    ensures { result ≡ list_any (λ c. list_any (λ f. world.frame_serial f == serial) c.stack) callers.now }
{
    callers.iter().any(|caller| caller.has_frame(serial))
}

/// Whether a frame of any caller, or a deferred scan, is for a device.
#[tactic(auto, unfolding(run_rules::specs::World::is_pinned))]
pub fn is_pinned(plain: &Plain, serial: u64) -> bool
    ensures { (s : Setup) → result ≡ world.is_pinned (world_of s plain.now) serial }
{
    has_frames(&plain.callers, serial) || plain.deferred.has(serial)
}

/// The driver of the live device of a serial; none for the root.
pub fn driver_at(rules: &Rules, live: &Live, serial: u64) -> Option<u32>
    ensures { result ≡ rule.driver_at rules.now live.now.devices serial }
{
    match device_at(live, serial) {
        Some(device) => Some(driver_of(rules, device.row)),
        None => None,
    }
}

/// The attachment of the live device of a serial; none for the root.
pub fn attach_at(rules: &Rules, live: &Live, serial: u64) -> Option<u32>
    ensures { result ≡ rule.attach_at rules.now live.now.devices serial }
{
    match device_at(live, serial) {
        Some(device) => Some(attach_of(rules, device.row)),
        None => None,
    }
}

/// The spot of the live device of a serial; none for the root.
pub fn spot_of(live: &Live, serial: u64) -> Option<u16>
    ensures { result ≡ rule.spot_of live.now.devices serial }
{
    match device_at(live, serial) {
        Some(device) => Some(device.spot),
        None => None,
    }
}

/// Whether a chain of parents leads from a device to the one above it.
pub fn is_under(live: &Live, above: u64, serial: u64) -> bool
    ensures { result ≡ world.is_under live.now.devices above serial }
{
    live.stands();
    let mut current = serial;
    for _level in 0..live.count() {
        if current == above {
            return true;
        }
        if current == 0 {
            return false;
        }
        current = parent_of(live, current);
    }
    false
}
