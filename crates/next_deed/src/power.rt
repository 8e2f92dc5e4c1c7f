//! How a power command goes on. See pmf(9).
ghost use Rattle.std.specs.Prelude.{◌≡◌, ℕ, Some, IsTrue};
ghost use Rattle.run_rules.specs.Next as next;
ghost use Rattle.run_rules.specs.World as world;
ghost use Rattle.run_rules.specs.declared.world.Activity.TheVariants as activity;

use crate::hindered::is_pinned;
use pmf_order::{next_sleep, next_wake};
use run_rules::{Choice, Deed, Dev, PowerEnd, PowerKind, Wait};
use run_world::{Going, policy_of};

/// Whether a device lives.
#[inline(always)]
fn is_live(going: &Going, serial: u64) -> bool
    ensures { world.is_live going.now.live serial ≡ result }
{
    going.device(serial).is_some()
}

/// The device that a suspension of the target puts to sleep next.
#[inline(always)]
fn sleeper(going: &Going, target: u64) -> Option<Dev>
    requires live { IsTrue (world.is_live going.now.live target) }
    ensures { next.next_sleep going.now.live target ≡ result }
{
    going.stands();
    match next_sleep(going.tree(), target) {
        Some(serial) => going.device(serial),
        None => None,
    }
}

/// How a suspension goes on with the device that sleeps next: it is put to sleep, or is waited for, or is in the way.
#[tactic(auto, unfolding(run_rules::specs::Next::suspending))]
#[inline(always)]
fn plan_sleep(going: &Going, target: u64, device: Dev) -> Choice
    requires there { world.device_at going.now.live device.serial ≡ Some device }
    requires next { next.next_sleep going.now.live target ≡ Some device }
    ensures { next.suspending going.now target ≡ result }
{
    if is_pinned(going, device.serial) {
        return Choice::Waits(Wait::Scan(device.serial));
    }
    let policy = policy_of(going.setup(), device.row);
    if policy.nopower {
        Choice::Does(Deed::EndPower(PowerEnd::NotSupported(device.serial)))
    } else if policy.failsuspend {
        Choice::Does(Deed::EndPower(PowerEnd::Failed(device.serial)))
    } else {
        Choice::Does(Deed::Sleep { of: device.serial })
    }
}

/// How a suspension goes on.
#[tactic(auto, unfolding(run_rules::specs::Next::suspending))]
#[inline(always)]
fn plan_suspend(going: &Going, target: u64) -> Choice
    requires live { IsTrue (world.is_live going.now.live target) }
    ensures { next.suspending going.now target ≡ result }
{
    going.stands();
    match sleeper(going, target) {
        Some(device) => plan_sleep(going, target, device),
        None => Choice::Does(Deed::EndPower(PowerEnd::Done)),
    }
}

/// How a resumption goes on.
#[tactic(auto, unfolding(run_rules::specs::Next::waking))]
#[inline(always)]
fn plan_wake(going: &Going, target: u64, whole: bool) -> Choice
    requires live { IsTrue (world.is_live going.now.live target) }
    ensures { next.waking going.now target whole ≡ result }
{
    match next_wake(going.tree(), target, whole) {
        Some(serial) => Choice::Does(Deed::Wake { of: serial }),
        None => Choice::Does(Deed::EndPower(PowerEnd::Done)),
    }
}

/// How a power command goes on.
#[inline(always)]
pub fn plan_power(going: &Going, kind: PowerKind, target: u64) -> Choice
    ensures { (k : ℕ) → next.by_activity going.now k (activity.Power kind target) ≡ result }
{
    if !is_live(going, target) {
        return Choice::Does(Deed::EndPower(PowerEnd::Gone));
    }
    match kind {
        PowerKind::Suspend => plan_suspend(going, target),
        PowerKind::Resume => plan_wake(going, target, false),
        PowerKind::ResumeTree => plan_wake(going, target, true),
    }
}
