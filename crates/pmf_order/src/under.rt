//! Which devices are under a target, for many devices in few steps.
ghost use Rattle.std.specs.Prelude.{◌≡◌, ◌%◌, ◌==◌, ℕ, List};
ghost use Rattle.std.specs.List.{slice_index_or, slice_set};
ghost use Rattle.run_rules.specs.World as world;
ghost use Rattle.run_rules.specs.declared.world.Dev.{Dev};
ghost use Rattle.run_rules.specs.Chains.{AllMiss};
ghost use Rattle.pmf_order.specs.Under.{Leads};

use dev_tree::DevTree;

/// Devices that are known not to be under a target.
#[derive(Drop)]
pub struct Strangers {
    /// Their serials, each in the place that its remainder by 64 gives; 0 where none is noted.
    serials: [u64; 64],
}

impl Strangers {
    /// No device is known.
    #[inline(always)]
    pub fn none() -> Strangers
        ensures { (live : List Dev) (target : ℕ) → AllMiss live target result.serials }
    {
        Strangers { serials: [0; 64] }
    }

    /// Whether the device of a serial is noted.
    #[inline(always)]
    fn has(&self, serial: u64) -> bool
        ensures { result ≡ (slice_index_or self.now.serials (serial % 64) 0 == serial) }
    {
        self.serials[(serial % 64) as usize] == serial
    }

    /// Notes the serial of a device, in place of another one of the same remainder.
    #[inline(always)]
    fn note(&mut self, serial: u64)
        ensures { self.new.serials ≡ slice_set self.old.serials (serial % 64) serial }
    {
        self.serials[(serial % 64) as usize] = serial;
    }
}

/// How a walk up a chain of parents ended.
#[derive(Clone, Copy)]
enum Way {
    /// At the target.
    Under,
    /// At the root, or at a device that is known not to be under the target.
    Apart,
    /// At neither, after as many steps as there are devices.
    Open,
}

/// The parent of a device; 0 for the root, and if no such device is live.
#[inline(always)]
fn parent_of(tree: &DevTree, serial: u64) -> u64
    ensures { result ≡ world.parent_of tree.now.live serial }
{
    match tree.get(serial) {
        Some(device) => device.parent,
        None => 0,
    }
}

/// Walks up the chain of parents from a device.
fn walk(tree: &DevTree, serial: u64, target: u64, strangers: &Strangers) -> Way
    requires { AllMiss tree.now.live target strangers.now.serials }
    ensures { Leads tree.now.live target serial result }
{
    tree.stands();
    let mut current = serial;
    for _level in 0..tree.count() {
        if current == target {
            return Way::Under;
        }
        if current == 0 {
            return Way::Apart;
        }
        if strangers.has(current) {
            return Way::Apart;
        }
        current = parent_of(tree, current);
    }
    Way::Open
}

/// Whether a chain of parents leads from the device to the target, found by a walk up the chain. If none does, it notes the device
/// and its parent.
fn is_under_by_walk(tree: &DevTree, serial: u64, target: u64, strangers: &mut Strangers) -> bool
    requires { AllMiss tree.now.live target strangers.old.serials }
    ensures is { result ≡ world.is_under tree.now.live target serial }
    ensures noted { AllMiss tree.now.live target strangers.new.serials }
{
    match walk(tree, serial, target, strangers) {
        Way::Under => true,
        Way::Apart => {
            strangers.note(serial);
            strangers.note(parent_of(tree, serial));
            false
        }
        Way::Open => false,
    }
}

/// Whether a chain of parents leads from the device to the target. If none does, it notes the device, its parent or both, so that
/// the walks from devices near by are short.
#[inline(always)]
pub fn is_under(tree: &DevTree, serial: u64, target: u64, strangers: &mut Strangers) -> bool
    requires { AllMiss tree.now.live target strangers.old.serials }
    ensures is { result ≡ world.is_under tree.now.live target serial }
    ensures noted { AllMiss tree.now.live target strangers.new.serials }
{
    let parent = parent_of(tree, serial);
    if serial != 0 && strangers.has(serial) {
        strangers.note(parent);
        return false;
    }
    if serial != target && parent != 0 && strangers.has(parent) {
        strangers.note(serial);
        return false;
    }
    is_under_by_walk(tree, serial, target, strangers)
}
