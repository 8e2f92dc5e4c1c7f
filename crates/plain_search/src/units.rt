//! The least free unit of a driver, by one look at each live device.
ghost use Rattle.std.specs.Prelude.{◌≡◌, ◌≤◌, ◌<◌, ◌+◌, ◌==◌, ◌&&◌, ◌||◌, ℕ, false, length};
ghost use Rattle.std.specs.List.{slice_index_or};
ghost use Rattle.run_rules.specs.Search as rule;
ghost use Rattle.plain_search.specs.Units.{IsDistance};

use plain_world::{Live, Rules, driver_of};
use run_rules::Dev;

/// How far a unit is from the first one, if it is meant and among `count` units from there on.
fn distance(meant: bool, unit: u32, first: u32, count: usize) -> Option<usize>
    ensures { IsDistance meant unit first count result }
{
    if meant && first <= unit {
        let far = (unit - first) as usize;
        if far < count {
            return Some(far);
        }
    }
    None
}

/// Marks a unit among those from the first one on, if it is meant and one of them.
fn mark(marks: &mut [bool], meant: bool, unit: u32, first: u32)
    ensures { (k : ℕ) → k < length marks.new → slice_index_or marks.new k false ≡ (slice_index_or marks.old k false || (meant && unit == first + k)) }
{
    match distance(meant, unit, first, marks.len()) {
        Some(far) => marks[far] = true,
        None => {}
    }
}

/// Marks which of the units from the first one on devices of a driver have.
fn mark_taken(rules: &Rules, devices: &[Dev], driver: u32, first: u32, marks: &mut [bool])
    requires { (k : ℕ) → k < length marks.old → slice_index_or marks.old k false ≡ false }
    ensures { (k : ℕ) → k < length marks.new → slice_index_or marks.new k false ≡ rule.is_taken rules.now devices.now driver (first + k) }
{
    for device in devices {
        let meant = driver_of(rules, device.row) == driver;
        mark(marks, meant, device.unit, first);
    }
}

/// The least unit of a driver that is not below the first one and that none of these devices has.
fn free_among(rules: &Rules, devices: &[Dev], driver: u32, first: u32) -> u32
    requires first { first ≤ 65536 }
    requires few { length devices.now ≤ 1024 }
    ensures { result ≡ first + rule.free_after rules.now devices.now driver first }
{
    let mut marks = [false; 1025];
    mark_taken(rules, devices, driver, first, &mut marks);
    for tried in 0..devices.len() as u32 + 1 {
        if !marks[tried as usize] {
            return first + tried;
        }
    }
    first
}

/// The least unit of a driver that is at least the first one and that no live device has.
pub fn free_from(rules: &Rules, live: &Live, driver: u32, first: u32) -> u32
    requires first { first ≤ 65536 }
    requires few { length live.now.devices ≤ 1024 }
    ensures { result ≡ first + rule.free_after rules.now live.now.devices driver first }
{
    free_among(rules, live.devices(), driver, first)
}
