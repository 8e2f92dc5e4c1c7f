ghost use Rattle.std.specs.Prelude.{◌≡◌, find, reverse, IsTrue};
ghost use Rattle.run_rules.specs.Next as next;
ghost use Rattle.run_rules.specs.World.{is_live, serial_of};
ghost use Rattle.pmf_order.specs.Resting.{sleeps, wakes_below};
ghost use Rattle.run_rules.specs.Chains.{AllMiss};

use crate::above::first_above;
use crate::under::{Strangers, is_under};
use dev_tree::DevTree;
use run_rules::Dev;

/// Whether a suspension of the target is still to put the device to sleep.
fn is_to_sleep(tree: &DevTree, device: &Dev, target: u64, strangers: &mut Strangers) -> bool
    requires { AllMiss tree.now.live target strangers.old.serials }
    ensures is { result ≡ sleeps tree.now.live target device.now }
    ensures noted { AllMiss tree.now.live target strangers.new.serials }
{
    !device.asleep && is_under(tree, device.serial, target, strangers)
}

/// The last of some devices that a suspension of the target is still to put to sleep.
fn last_to_sleep(tree: &DevTree, among: &[Dev], target: u64) -> Option<u64>
    ensures { result ≡ serial_of (find (sleeps tree.now.live target) (reverse among.now)) }
{
    let mut strangers = Strangers::none();
    for place in (0..among.len()).rev() {
        if is_to_sleep(tree, &among[place], target, &mut strangers) {
            return Some(among[place].serial);
        }
    }
    None
}

/// The device that a suspension of the target puts to sleep next: of those awake in its subtree the one that came last,
/// so that children sleep before their parent. None if all sleep. See pmf(9).
pub fn next_sleep(tree: &DevTree, target: u64) -> Option<u64>
    requires { IsTrue (is_live tree.now.live target) }
    ensures { result ≡ serial_of (next.next_sleep tree.now.live target) }
{
    let among = tree.front();
    // (it mostly is the last one, and then nothing has to be noted)
    if let Some(last) = among.last() {
        if !last.asleep && tree.is_under(last.serial, target) {
            return Some(last.serial);
        }
    }
    last_to_sleep(tree, among, target)
}

/// Whether a resumption of the target and of all below it is still to wake the device; of the others only that of the serial
/// may be.
fn is_to_wake(
    tree: &DevTree,
    device: &Dev,
    target: u64,
    above: Option<u64>,
    strangers: &mut Strangers,
) -> bool
    requires { AllMiss tree.now.live target strangers.old.serials }
    ensures is { result ≡ wakes_below tree.now.live target above device.now }
    ensures noted { AllMiss tree.now.live target strangers.new.serials }
{
    device.asleep
        && (above == Some(device.serial) || is_under(tree, device.serial, target, strangers))
}

/// The first of some devices that is below the target and sleeps, or has the serial and sleeps.
fn first_below(tree: &DevTree, among: &[Dev], target: u64, above: Option<u64>) -> Option<u64>
    ensures { result ≡ serial_of (find (wakes_below tree.now.live target above) among.now) }
{
    let mut strangers = Strangers::none();
    for device in among {
        if is_to_wake(tree, device, target, above, &mut strangers) {
            return Some(device.serial);
        }
    }
    None
}

/// The device that a resumption of the target wakes next: of the sleeping ones among it and its ancestors, and of the
/// whole subtree if that is asked for, the one that came first, so that a parent wakes before its children. None if all
/// are awake. See pmf(9).
pub fn next_wake(tree: &DevTree, target: u64, whole: bool) -> Option<u64>
    requires { IsTrue (is_live tree.now.live target) }
    ensures { result ≡ serial_of (next.next_wake tree.now.live target whole) }
{
    tree.stands();
    let among = tree.back();
    // (it mostly is the first one, and then nothing has to be noted)
    if let Some(first) = among.first() {
        if whole && first.asleep && tree.is_under(first.serial, target) {
            return Some(first.serial);
        }
    }
    let above = first_above(tree, target);
    if whole {
        first_below(tree, among, target, above)
    } else {
        above
    }
}
