ghost use Rattle.std.specs.Prelude.{◌≡◌, ℕ};
ghost use Rattle.std.specs.List.Sorted.{IsSorted};
ghost use Rattle.std.specs.Ordering.{nat_cmp};
ghost use Rattle.run_rules.specs.World.{has};

use std::marker::Model;

/// The serials of devices that a scan or a finalizer is busy with, and of those whose driver does not support detaching.
/// Each list is in order.
#[derive(Drop)]
pub struct Marks {
    pinned: Vec<u64>,
    undetachable: Vec<u64>,
}

impl Model for Marks {
    ghost use Rattle.std.specs.List.Sorted.{IsSorted};
    ghost use Rattle.std.specs.Ordering.{nat_cmp};
    ghost use Rattle.detach_engine.specs.Hindrance.{Marked};

    ghost Value = { Marked };

    ghost view = { λ marks. record { pinned = marks.pinned.items; undetachable = marks.undetachable.items } };

    ghost invariant = { λ marks. IsSorted nat_cmp marks.pinned.items × IsSorted nat_cmp marks.undetachable.items };
}

/// Whether a serial is one of these, which are in order.
fn has_serial(serials: &[u64], serial: u64) -> bool
    requires { IsSorted nat_cmp serials.now }
    ensures { result ≡ has serials.now serial }
{
    serials.binary_search(&serial).is_ok()
}

impl Marks {
    /// These marks, in any order. It takes no memory.
    pub fn make(mut pinned: Vec<u64>, mut undetachable: Vec<u64>) -> Marks
        ensures pinned { (serial : ℕ) → has result.pinned serial ≡ has pinned.items serial }
        ensures undetachable { (serial : ℕ) → has result.undetachable serial ≡ has undetachable.items serial }
    {
        pinned.sort_unstable();
        undetachable.sort_unstable();
        Marks {
            pinned,
            undetachable,
        }
    }

    /// Whether a scan or a finalizer is busy with the device.
    pub fn is_pinned(&self, serial: u64) -> bool
        ensures { result ≡ has self.now.pinned serial }
    {
        has_serial(&self.pinned, serial)
    }

    /// Whether the driver of the device does not support detaching.
    pub fn is_undetachable(&self, serial: u64) -> bool
        ensures { result ≡ has self.now.undetachable serial }
    {
        has_serial(&self.undetachable, serial)
    }
}
