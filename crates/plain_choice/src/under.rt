//! Whether devices are below a target, asked of many of them in one search.
ghost use Rattle.std.specs.Prelude.{◌≡◌, ◌%◌, ◌==◌, ℕ, List};
ghost use Rattle.std.specs.List.{slice_index_or, slice_set};
ghost use Rattle.run_rules.specs.World as world;
ghost use Rattle.run_rules.specs.declared.world.Dev.{Dev};
ghost use Rattle.run_rules.specs.Chains.{AllMiss};
ghost use Rattle.plain_choice.specs.Under.{Shows};

use plain_world::{Live, device_at};

/// Devices whose chains of parents are known to miss the target of a search.
#[derive(Drop)]
pub struct Aside {
    /// The serials. Each is kept at its remainder by 64, and 0 means that none is.
    kept: [u64; 64],
}

impl Aside {
    /// No devices.
    #[inline(always)]
    pub fn none() -> Aside
        ensures { (live : List Dev) (target : ℕ) → AllMiss live target result.kept }
    {
        Aside { kept: [0; 64] }
    }

    /// Whether a serial is kept.
    #[inline(always)]
    fn keeps(&self, serial: u64) -> bool
        ensures { result ≡ (slice_index_or self.now.kept (serial % 64) 0 == serial) }
    {
        self.kept[(serial % 64) as usize] == serial
    }

    /// Keeps a serial. One with the same remainder is forgotten.
    #[inline(always)]
    fn keep(&mut self, serial: u64)
        ensures { self.new.kept ≡ slice_set self.old.kept (serial % 64) serial }
    {
        self.kept[(serial % 64) as usize] = serial;
    }
}

/// What following a chain of parents shows.
#[derive(Clone, Copy)]
enum Shown {
    /// It meets the target.
    Meets,
    /// It misses the target, however far it is followed.
    Misses,
    /// It has not met the target after as many steps as there are devices.
    Unmet,
}

/// The parent of a device; 0 for the root, and if no such device is live.
pub fn parent_of(live: &Live, serial: u64) -> u64
    ensures { result ≡ world.parent_of live.now.devices serial }
{
    match device_at(live, serial) {
        Some(device) => device.parent,
        None => 0,
    }
}

/// Follows the chain of parents that begins with a device.
fn follow(live: &Live, target: u64, serial: u64, aside: &Aside) -> Shown
    requires { AllMiss live.now.devices target aside.now.kept }
    ensures { Shows live.now.devices target serial result }
{
    live.stands();
    let mut current = serial;
    for _level in 0..live.count() {
        if current == target {
            return Shown::Meets;
        }
        if current == 0 {
            return Shown::Misses;
        }
        if aside.keeps(current) {
            return Shown::Misses;
        }
        current = parent_of(live, current);
    }
    Shown::Unmet
}

/// Whether a chain of parents leads from a device to the target. If the chain misses it, the device and its parent are kept
/// aside, so that chains that come to either of them need not be followed further.
pub fn is_below(live: &Live, target: u64, serial: u64, aside: &mut Aside) -> bool
    requires { AllMiss live.now.devices target aside.old.kept }
    ensures is { result ≡ world.is_under live.now.devices target serial }
    ensures aside { AllMiss live.now.devices target aside.new.kept }
{
    match follow(live, target, serial, aside) {
        Shown::Meets => true,
        Shown::Misses => {
            aside.keep(serial);
            aside.keep(parent_of(live, serial));
            false
        }
        Shown::Unmet => false,
    }
}
