//! What a resumption has to wake.
ghost use Rattle.std.specs.Prelude.{◌≡◌};
ghost use Rattle.run_rules.specs.World as world;
ghost use Rattle.plain_choice.specs.Waking.{AreMarked};

use crate::under::parent_of;
use plain_world::{Live, is_under};

/// A resumption: the device that it names, whether it wakes the whole subtree, and marks of the device and its ancestors.
#[derive(Clone, Copy)]
pub struct Waking<'a> {
    pub target: u64,
    pub whole: bool,
    /// A serial is marked at its remainder by 1,024.
    pub marks: &'a [bool; 1024],
}

/// Marks the chain of parents that begins with the target.
pub fn mark_up(live: &Live, target: u64, marks: &mut [bool; 1024])
    ensures { AreMarked live.now.devices target marks.new }
{
    live.stands();
    let mut current = target;
    for _level in 0..live.count() {
        marks[(current % 1024) as usize] = true;
        if current == 0 {
            return;
        }
        current = parent_of(live, current);
    }
}

/// Whether the device of a resumption is this one or below it. The chain of parents is followed only if there is a mark.
pub fn descends_from(live: &Live, serial: u64, waking: &Waking) -> bool
    requires { AreMarked live.now.devices waking.now.target waking.now.marks.now }
    ensures { result ≡ world.is_under live.now.devices serial waking.now.target }
{
    waking.marks[(serial % 1024) as usize] && is_under(live, serial, waking.target)
}
