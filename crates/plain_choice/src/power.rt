//! How a power command and a detachment go on. See pmf(9) and config_detach(9).
ghost use Rattle.std.specs.Prelude.{◌≡◌, find, reverse, ℕ};
ghost use Rattle.run_rules.specs.Next as next;
ghost use Rattle.run_rules.specs.World as world;
ghost use Rattle.run_rules.specs.declared.world.Activity.TheVariants as activity;
ghost use Rattle.run_rules.specs.declared.world.Setup.{Setup};
ghost use Rattle.plain_world.specs.Plain.{world_of};
ghost use Rattle.plain_choice.specs.Power.{has_to_sleep, has_to_wake, sleeping};
ghost use Rattle.run_rules.specs.Chains.{AllMiss};
ghost use Rattle.plain_choice.specs.Waking.{AreMarked};

use crate::under::{Aside, is_below};
use crate::waking::{Waking, descends_from, mark_up};
use plain_world::{Live, Plain, Refs, Rules, is_live, is_pinned, policy_of};
use run_rules::{Choice, Deed, Dev, PowerEnd, PowerKind, Wait};

/// Whether a caller condemned a device.
fn is_condemned_by(device: &Dev, caller: u8) -> bool
    ensures { result ≡ world.is_number device.now.condemned caller }
{
    match device.condemned {
        Some(condemner) => condemner == caller,
        None => false,
    }
}

/// The device that a caller frees next: of those that it condemned the last one.
#[tactic(auto, unfolding(run_rules::specs::Next::next_free))]
fn next_free(live: &[Dev], caller: u8) -> Option<u64>
    ensures { result ≡ next.next_free live.now caller }
{
    let device = live
        .iter()
        .rev()
        .find(|device| is_condemned_by(device, caller))?;
    Some(device.serial)
}

/// How a caller that frees devices goes on.
#[tactic(auto, unfolding(run_rules::specs::Next::freeing))]
pub fn freeing(plain: &Plain, caller: u8) -> Choice
    ensures { (s : Setup) → next.freeing (world_of s plain.now) caller ≡ result }
{
    match next_free(plain.live.devices(), caller) {
        Some(serial) => {
            if plain.refs.refers(serial) {
                Choice::Waits(Wait::Refs(serial))
            } else {
                Choice::Does(Deed::Free { of: serial })
            }
        }
        None => Choice::Ended,
    }
}

/// Whether a suspension of the target is still to put a device to sleep.
fn is_to_sleep(live: &Live, device: Dev, target: u64, aside: &mut Aside) -> bool
    requires { AllMiss live.now.devices target aside.old.kept }
    ensures is { result ≡ has_to_sleep live.now.devices target device }
    ensures aside { AllMiss live.now.devices target aside.new.kept }
{
    !device.asleep && is_below(live, target, device.serial, aside)
}

/// The last of some devices that a suspension of the target is still to put to sleep.
fn last_to_sleep(live: &Live, among: &[Dev], target: u64) -> Option<Dev>
    ensures { result ≡ find (has_to_sleep live.now.devices target) (reverse among.now) }
{
    let mut aside = Aside::none();
    for place in (0..among.len()).rev() {
        if is_to_sleep(live, among[place], target, &mut aside) {
            return Some(among[place]);
        }
    }
    None
}

/// The device that a suspension of the target puts to sleep next: of those awake in its subtree the last one.
#[tactic(auto, unfolding(run_rules::specs::Next::next_sleep))]
fn next_sleep(live: &Live, target: u64) -> Option<Dev>
    ensures { result ≡ next.next_sleep live.now.devices target }
{
    last_to_sleep(live, live.devices(), target)
}

/// Whether a resumption is still to wake a device.
fn is_to_wake(live: &Live, device: Dev, waking: &Waking, aside: &mut Aside) -> bool
    requires marks { AreMarked live.now.devices waking.now.target waking.now.marks.now }
    requires aside { AllMiss live.now.devices waking.now.target aside.old.kept }
    ensures is { result ≡ has_to_wake live.now.devices waking.now.target waking.now.whole device }
    ensures aside { AllMiss live.now.devices waking.now.target aside.new.kept }
{
    device.asleep
        && (descends_from(live, device.serial, waking)
            || (waking.whole && is_below(live, waking.target, device.serial, aside)))
}

/// The first of some devices that a resumption of the target is still to wake.
fn first_to_wake(live: &Live, among: &[Dev], target: u64, whole: bool) -> Option<Dev>
    ensures { result ≡ find (has_to_wake live.now.devices target whole) among.now }
{
    let mut marks = [false; 1024];
    mark_up(live, target, &mut marks);
    let waking = Waking {
        target,
        whole,
        marks: &marks,
    };
    let mut aside = Aside::none();
    for device in among {
        if is_to_wake(live, *device, &waking, &mut aside) {
            return Some(*device);
        }
    }
    None
}

/// The device that a resumption of the target wakes next: the first of the sleeping ones among it and its ancestors,
/// and among those below it if that is asked for.
#[tactic(auto, unfolding(run_rules::specs::Next::next_wake))]
fn next_wake(live: &Live, target: u64, whole: bool) -> Option<Dev>
    ensures { result ≡ next.next_wake live.now.devices target whole }
{
    first_to_wake(live, live.devices(), target, whole)
}

/// How a suspension goes on with the device that sleeps next: it is put to sleep, or is waited for, or is in the way.
fn sleeping(rules: &Rules, plain: &Plain, device: Dev) -> Choice
    ensures { sleeping (world_of rules.now plain.now) device ≡ result }
{
    if is_pinned(plain, device.serial) {
        return Choice::Waits(Wait::Scan(device.serial));
    }
    let policy = policy_of(rules, device.row);
    if policy.nopower {
        Choice::Does(Deed::EndPower(PowerEnd::NotSupported(device.serial)))
    } else if policy.failsuspend {
        Choice::Does(Deed::EndPower(PowerEnd::Failed(device.serial)))
    } else {
        Choice::Does(Deed::Sleep { of: device.serial })
    }
}

/// How a suspension goes on.
#[tactic(auto, unfolding(run_rules::specs::Next::suspending))]
fn suspending(rules: &Rules, plain: &Plain, target: u64) -> Choice
    ensures { next.suspending (world_of rules.now plain.now) target ≡ result }
{
    match next_sleep(&plain.live, target) {
        Some(device) => sleeping(rules, plain, device),
        None => Choice::Does(Deed::EndPower(PowerEnd::Done)),
    }
}

/// How a resumption goes on.
#[tactic(auto, unfolding(run_rules::specs::Next::waking))]
fn waking(plain: &Plain, target: u64, whole: bool) -> Choice
    ensures { (s : Setup) → next.waking (world_of s plain.now) target whole ≡ result }
{
    match next_wake(&plain.live, target, whole) {
        Some(device) => Choice::Does(Deed::Wake { of: device.serial }),
        None => Choice::Does(Deed::EndPower(PowerEnd::Done)),
    }
}

/// How a power command goes on with a target that is live.
fn going(rules: &Rules, plain: &Plain, kind: PowerKind, target: u64) -> Choice
    ensures { next.powering (world_of rules.now plain.now) kind target ≡ result }
{
    match kind {
        PowerKind::Suspend => suspending(rules, plain, target),
        PowerKind::Resume => waking(plain, target, false),
        PowerKind::ResumeTree => waking(plain, target, true),
    }
}

/// How a power command goes on.
pub fn powering(rules: &Rules, plain: &Plain, kind: PowerKind, target: u64) -> Choice
    ensures { (k : ℕ) → next.by_activity (world_of rules.now plain.now) k (activity.Power kind target) ≡ result }
{
    if is_live(&plain.live, target) {
        going(rules, plain, kind, target)
    } else {
        Choice::Does(Deed::EndPower(PowerEnd::Gone))
    }
}

/// The first device that a caller holds.
fn first_held(live: &[Dev], references: &Refs, caller: u8) -> Option<Dev>
    ensures { result ≡ find (λ d. world.holds_in references.now caller d.serial) live.now }
{
    live.iter()
        .copied()
        .find(|device| references.holds(caller, device.serial))
}

/// What a caller does after its last command: it returns what it holds, and then it ends.
pub fn closing(plain: &Plain, caller: u8) -> Choice
    ensures { (s : Setup) → next.closing (world_of s plain.now) caller ≡ result }
{
    match first_held(plain.live.devices(), &plain.refs, caller) {
        Some(device) => Choice::Does(Deed::Drop { of: device.serial }),
        None => Choice::Does(Deed::EndCaller),
    }
}
