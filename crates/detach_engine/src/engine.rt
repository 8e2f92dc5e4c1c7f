ghost use Rattle.std.specs.Prelude.{◌≡◌, ◌&&◌, ◌||◌, not, IsTrue};
ghost use Rattle.run_rules.specs.Next as next;
ghost use Rattle.run_rules.specs.World.{has, holds_in, is_condemned, is_live, is_number, serial_of};
ghost use Rattle.detach_engine.specs.Hindrance.{hindrance, stands_in_way};

use crate::marks::Marks;
use dev_tree::DevTree;
use ref_ledger::Refs;
use run_rules::Dev;

/// A device that a caller wants to go, with all that is below it; its driver is not asked if that is forced.
#[derive(Clone, Copy)]
pub struct Detachment {
    pub target: u64,
    pub caller: u8,
    pub forced: bool,
}

/// Whether a device may not go now: its driver, a scan, another freeing or a reference of the caller keeps it.
fn is_kept(refs: &Refs, marks: &Marks, caller: u8, forced: bool, device: &Dev) -> bool
    ensures { result ≡ ((not forced && has marks.now.undetachable device.now.serial) || has marks.now.pinned device.now.serial
        || is_condemned device.now || holds_in refs.now.refs caller device.now.serial) }
{
    (!forced && marks.is_undetachable(device.serial))
        || marks.is_pinned(device.serial)
        || device.condemned.is_some()
        || refs.holds(device.serial, caller)
}

/// Whether the device keeps the target's subtree from going.
fn stands_in_way(
    tree: &DevTree,
    refs: &Refs,
    marks: &Marks,
    going: Detachment,
    device: &Dev,
) -> bool
    ensures { result ≡ stands_in_way tree.now.live refs.now.refs marks.now going.target going.caller going.forced device.now }
{
    is_kept(refs, marks, going.caller, going.forced, device)
        && tree.is_under(device.serial, going.target)
}

/// The device of least serial that keeps the target's subtree from being freed: its driver does not support detaching,
/// unless that is forced; a scan or a finalizer is busy with it; it is condemned already; or the caller itself holds
/// it. None if all may be freed. See config_detach(9).
#[tactic(auto, unfolding(crate::specs::Hindrance::hindrance))]
pub fn hindered(
    tree: &DevTree,
    refs: &Refs,
    marks: &Marks,
    target: u64,
    caller: u8,
    forced: bool,
) -> Option<u64>
    requires { IsTrue (is_live tree.now.live target) }
    ensures { result ≡ serial_of (hindrance tree.now.live refs.now.refs marks.now target caller forced) }
{
    let going = Detachment {
        target,
        caller,
        forced,
    };
    let device = tree
        .devices()
        .iter()
        .find(|device| stands_in_way(tree, refs, marks, going, device))?;
    Some(device.serial)
}

/// Whether the caller condemned the device.
fn is_condemned_by(device: &Dev, caller: u8) -> bool
    ensures { result ≡ is_number device.now.condemned caller }
{
    match device.condemned {
        Some(condemner) => condemner == caller,
        None => false,
    }
}

/// The device that the caller frees next: of those that it condemned the one that was attached last, so that children
/// go before their parent. None if it condemned none that lives. See config_detach(9).
#[tactic(auto, unfolding(run_rules::specs::Next::next_free))]
pub fn next_free(tree: &DevTree, caller: u8) -> Option<u64>
    ensures { result ≡ next.next_free tree.now.live caller }
{
    let device = tree
        .devices()
        .iter()
        .rev()
        .find(|device| is_condemned_by(device, caller))?;
    Some(device.serial)
}
