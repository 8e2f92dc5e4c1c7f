//! Marks on live devices.
ghost use Rattle.std.specs.Prelude.{◌≡◌, IsTrue, map, true};
ghost use Rattle.run_rules.specs.After.{with_sleep, with_condemner};
ghost use Rattle.run_rules.specs.World.{is_live};
ghost use Rattle.dev_tree.specs.Bare.{IsBare};
ghost use Rattle.dev_tree.specs.Tree.{AreInOrder};

use crate::lookup::{is_under, place_of};
use run_rules::Dev;

/// Puts a device to sleep or wakes it.
#[inline(always)]
pub fn mark_sleep(live: &mut [Dev], serial: u64, asleep: bool)
    requires { AreInOrder live.old }
    ensures { live.new ≡ map (with_sleep serial asleep) live.old }
{
    match place_of(live, serial) {
        Some(place) => live[place].asleep = asleep,
        None => {}
    }
}

/// Condemns a device without children, on behalf of a caller.
fn condemn_one(live: &mut [Dev], serial: u64, caller: u8)
    requires order { AreInOrder live.old }
    requires bare { IsBare live.old serial }
    requires there { IsTrue (is_live live.old serial) }
    ensures { live.new ≡ map (with_condemner live.old caller serial) live.old }
{
    match place_of(live, serial) {
        Some(place) => live[place].condemned = Some(caller),
        None => unreachable!(),
    }
}

/// Condemns a device and all that is below it, device by device.
fn condemn_each(live: &mut [Dev], serial: u64, caller: u8)
    requires { AreInOrder live.old }
    ensures { live.new ≡ map (with_condemner live.old caller serial) live.old }
{
    for place in 0..live.len() {
        if is_under(live, live[place].serial, serial) {
            live[place].condemned = Some(caller);
        }
    }
}

/// Condemns a device and all that is below it, on behalf of a caller. The device may be known to be without children.
pub fn mark_condemned(live: &mut [Dev], bare: bool, serial: u64, caller: u8)
    requires order { AreInOrder live.old }
    requires bare { bare ≡ true → IsBare live.old serial }
    requires there { IsTrue (is_live live.old serial) }
    ensures { live.new ≡ map (with_condemner live.old caller serial) live.old }
{
    if bare {
        condemn_one(live, serial, caller);
    } else {
        condemn_each(live, serial, caller);
    }
}
