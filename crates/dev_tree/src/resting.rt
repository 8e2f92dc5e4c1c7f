//! The places between which the last device awake and the first one asleep are.
ghost use Rattle.std.specs.Prelude.{◌≢◌, ◌<◌, ◌≤◌, ◌+◌, ◌^◌, ℕ, List, [], length, map, remove};
ghost use Rattle.run_rules.specs.After.{with_sleep};
ghost use Rattle.run_rules.specs.declared.world.Dev.{Dev};
ghost use Rattle.dev_tree.specs.Rest.{AreResting, CountsOneMore, HasFirstAsleep, HasLastAwake};
ghost use Rattle.dev_tree.specs.Tree.{AreInOrder};

use crate::lookup::place_of;
use run_rules::Dev;

/// All devices before one place are awake, and all from another one on sleep. When a whole tree falls asleep or wakes,
/// the next device is beside one of the two.
#[derive(Clone, Copy)]
pub struct Resting {
    pub awake_before: usize,
    pub asleep_from: usize,
}

impl Resting {
    /// Of no devices.
    pub fn none() -> Resting
        ensures { AreResting [] result }
    {
        Resting {
            awake_before: 0,
            asleep_from: 0,
        }
    }

    /// With one device more, awake and the last one.
    pub fn with_one(self, count: usize) -> Resting
        ensures { CountsOneMore count self result }
    {
        Resting {
            awake_before: self.awake_before,
            asleep_from: count,
        }
    }

    /// With one device less.
    pub fn without_one(self) -> Resting
        ensures { (live : List Dev) (i : ℕ) → i < length live → AreResting live self → AreResting (remove live i) result }
    {
        Resting {
            awake_before: self.awake_before.saturating_sub(1),
            asleep_from: self.asleep_from,
        }
    }

    /// With the device at a place asleep.
    #[inline(always)]
    fn fallen(self, place: usize) -> Resting
        ensures before { (i : ℕ) → i < result.awake_before → (i < self.awake_before) × (i ≢ place) }
        ensures from { (i : ℕ) → result.asleep_from ≤ i → i ≢ place → self.asleep_from ≤ i }
    {
        let awake_before = self.awake_before.min(place);
        let asleep_from = if self.asleep_from > place && self.asleep_from - place == 1 {
            place
        } else {
            self.asleep_from
        };
        Resting {
            awake_before,
            asleep_from,
        }
    }

    /// With the device at a place awake.
    #[inline(always)]
    fn woken(self, place: usize) -> Resting
        requires { place + 1 < 2 ^ 64 }
        ensures before { (i : ℕ) → i < result.awake_before → i ≢ place → i < self.awake_before }
        ensures from { (i : ℕ) → result.asleep_from ≤ i → (self.asleep_from ≤ i) × (i ≢ place) }
    {
        let awake_before = if self.awake_before == place {
            place + 1
        } else {
            self.awake_before
        };
        Resting {
            awake_before,
            asleep_from: self.asleep_from.max(place + 1),
        }
    }

    /// With a device asleep, or awake.
    #[inline(always)]
    pub fn marked(self, live: &[Dev], serial: u64, asleep: bool) -> Resting
        requires { AreInOrder live.now }
        ensures { AreResting live.now self → AreResting (map (with_sleep serial asleep) live.now) result }
    {
        match place_of(live, serial) {
            Some(place) => {
                if asleep {
                    self.fallen(place)
                } else {
                    self.woken(place)
                }
            }
            None => self,
        }
    }

    /// The devices up to the last one that may be awake; all after them sleep.
    #[inline(always)]
    pub fn front(self, live: &[Dev]) -> &[Dev]
        requires { AreResting live.now self }
        ensures { HasLastAwake live.now result.now }
    {
        &live[..self.asleep_from.min(live.len())]
    }

    /// The devices from the first one on that may sleep; all before them are awake.
    #[inline(always)]
    pub fn back(self, live: &[Dev]) -> &[Dev]
        requires { AreResting live.now self }
        ensures { HasFirstAsleep live.now result.now }
    {
        &live[self.awake_before.min(live.len())..]
    }
}
