//! The world after a deed of a command. See drvctl(8), config_detach(9) and pmf(9).
ghost use Rattle.std.specs.Prelude.{◌≡◌, ◌<◌, ◌-◌, ◌^◌, true, IfOk, OnOk};
ghost use Rattle.run_rules.specs.After as after;
ghost use Rattle.run_rules.specs.Next as next;
ghost use Rattle.run_rules.specs.References.{shared_again};
ghost use Rattle.run_rules.specs.declared.deed.Deed.TheVariants as deeds;
ghost use Rattle.run_rules.specs.declared.world.Activity.TheVariants as activity;
ghost use Rattle.run_rules.specs.declared.world.Setup.{Setup};
ghost use Rattle.plain_effect.specs.Effects.{HasPlace, is_quiet};
ghost use Rattle.plain_world.specs.Plain.{HasCaller, state_at, world_of};

use crate::after::{Call, begin, begin_interrupts, end_scan, finalise, finish, push, search};
use cf_types::{Command, Given, Memory};
use plain_world::{Caller, Plain, Rules, command_of, wanted_by};
use run_rules::{Activity, Deed, Frame, Position, Ref};
use std::alloc::Global;

/// A caller has one reference more to a device, which may be the only one.
fn refer(alloc: Global, plain: &mut Plain, caller: u8, of: u64, sole: bool) -> Result<(), Memory>
    ensures world { (s : Setup) → OnOk result (world_of s plain.new ≡ after.referred (world_of s plain.old) caller of sole) }
    ensures callers { plain.new.callers.items ≡ plain.old.callers.items }
{
    plain.refs.push(alloc, Ref { serial: of, caller })?;
    if sole {
        plain.sole.push(of)?;
    }
    Ok(())
}

/// Removes a device from those that are held solely.
fn share_again(sole: &mut Vec<u64>, of: u64)
    ensures { sole.new.items ≡ shared_again sole.old.items of }
{
    sole.retain(|held| *held != of);
}

/// A caller has one reference less to a device, and nobody has it solely.
fn give_back(plain: &mut Plain, caller: u8, of: u64)
    ensures world { (s : Setup) → world_of s plain.new ≡ after.unreferred (world_of s plain.old) caller of }
    ensures callers { plain.new.callers.items ≡ plain.old.callers.items }
{
    plain.refs.take_out(caller, of);
    share_again(&mut plain.sole, of);
}

/// A device and all that is below it are condemned.
fn condemn(alloc: Global, plain: &mut Plain, caller: u8, above: u64) -> Result<(), Memory>
    ensures world { (s : Setup) → OnOk result (world_of s plain.new ≡ after.condemned (world_of s plain.old) caller above) }
    ensures callers { plain.new.callers.items ≡ plain.old.callers.items }
{
    plain.live.condemn(alloc, caller, above)
}

/// A device goes to sleep, or wakes.
fn rest(plain: &mut Plain, of: u64, asleep: bool)
    ensures { (s : Setup) → world_of s plain.new ≡ after.marked (world_of s plain.old) of asleep }
{
    plain.live.rest(of, asleep);
}

/// Whether a caller has freed all that it frees, once this device is gone.
fn is_target(doing: Activity, serial: u64) -> bool
    ensures { result ≡ after.freeing_target doing serial }
{
    match doing {
        Activity::Frees(target) => target == serial,
        _ => false,
    }
}

/// What a caller is in the middle of.
fn doing_of(callers: &[Caller], caller: u8) -> Activity
    ensures { result ≡ (state_at callers.now caller).doing }
{
    match callers.get(caller as usize) {
        Some(state) => state.doing(),
        None => Activity::Ended,
    }
}

/// A condemned device is freed; if it is the target of its caller's command, that command is over.
#[tactic(auto, unfolding(run_rules::specs::After::after))]
fn free(plain: &mut Plain, caller: u8, of: u64)
    requires { HasCaller plain.old caller 500 }
    ensures { (s : Setup) → world_of s plain.new ≡ after.after (world_of s plain.old) caller (deeds.Free of) }
{
    let is_over = is_target(doing_of(&plain.callers, caller), of);
    plain.live.remove(of);
    if is_over {
        finish(plain, caller);
    }
}

/// The locator values that a command gives.
fn given_in(said: &Command) -> &[Given]
    ensures { result.now ≡ after.given_in said.now }
{
    match said {
        Command::Rescan { given, .. } => given.items(),
        _ => &[],
    }
}

/// The locator values that the command of a caller gives.
fn given_by<'a>(rules: &'a Rules, plain: &Plain, caller: u8) -> &'a [Given]
    ensures { result.now ≡ after.given_by (next.command_of (world_of rules.now plain.now) caller) }
{
    match command_of(rules, plain, caller) {
        Some(said) => given_in(said),
        None => &[],
    }
}

/// The scan of a rescan, which begins at the first place.
fn rescan_frame(
    alloc: Global,
    rules: &Rules,
    plain: &Plain,
    caller: u8,
    of: u64,
    only: Option<u32>,
) -> Result<Frame, Memory>
    ensures { IfOk result (λ frame. frame ≡ after.rescan_frame (world_of rules.now plain.now) caller of only) }
{
    let filter = wanted_by(alloc, rules, given_by(rules, plain, caller), only)?;
    Ok(Frame::Scan {
        serial: of,
        only,
        filter,
        position: Position {
            attr: 0,
            row: 0,
            spot: 0,
        },
    })
}

/// A rescan begins. See drvctl(8).
#[tactic(auto, unfolding(run_rules::specs::After::after))]
fn rescan(
    alloc: Global,
    rules: &Rules,
    plain: &mut Plain,
    caller: u8,
    of: u64,
    only: Option<u32>,
) -> Result<(), Memory>
    requires caller { HasCaller plain.old caller 500 }
    ensures { OnOk result (world_of rules.now plain.new ≡ after.after (world_of rules.now plain.old) caller (deeds.Rescan of only)) }
{
    let frame = rescan_frame(alloc, rules, plain, caller, of, only)?;
    begin(plain, caller, Activity::Scans);
    push(plain, caller, frame)
}

/// A device and all that is below it are condemned: the caller frees them from now on.
fn detach(alloc: Global, plain: &mut Plain, caller: u8, of: u64) -> Result<(), Memory>
    requires caller { HasCaller plain.old caller 500 }
    ensures { (s : Setup) → OnOk result (world_of s plain.new ≡ after.doing (after.condemned (world_of s plain.old) caller of) caller (activity.Frees of)) }
{
    condemn(alloc, plain, caller, of)?;
    begin(plain, caller, Activity::Frees(of));
    Ok(())
}

/// The hardware of a spot goes, and from now on the caller frees the device there.
#[tactic(auto, unfolding(run_rules::specs::After::after))]
fn unplug(
    alloc: Global,
    plain: &mut Plain,
    caller: u8,
    spot: u16,
    of: Option<u64>,
) -> Result<(), Memory>
    requires caller { HasCaller plain.old caller 500 }
    ensures { (s : Setup) → OnOk result (world_of s plain.new ≡ after.after (world_of s plain.old) caller (deeds.Unplug spot of)) }
{
    plain.absent.put_first(spot)?;
    match of {
        Some(serial) => detach(alloc, plain, caller, serial),
        None => {
            finish(plain, caller);
            Ok(())
        }
    }
}

/// A reference is granted.
#[tactic(auto, unfolding(run_rules::specs::After::after))]
fn open(alloc: Global, plain: &mut Plain, caller: u8, of: u64, sole: bool) -> Result<(), Memory>
    requires { HasCaller plain.old caller 500 }
    ensures { (s : Setup) → OnOk result (world_of s plain.new ≡ after.after (world_of s plain.old) caller (deeds.Open of sole)) }
{
    refer(alloc, plain, caller, of, sole)?;
    finish(plain, caller);
    Ok(())
}

/// A reference is returned.
#[tactic(auto, unfolding(run_rules::specs::After::after))]
fn close(plain: &mut Plain, caller: u8, of: u64)
    requires { HasCaller plain.old caller 500 }
    ensures { (s : Setup) → world_of s plain.new ≡ after.after (world_of s plain.old) caller (deeds.Close of) }
{
    give_back(plain, caller, of);
    finish(plain, caller);
}

/// What a deed changes that takes no memory.
#[tactic(auto, unfolding(run_rules::specs::After::after))]
fn do_quietly(plain: &mut Plain, caller: u8, deed: &Deed)
    requires caller { HasCaller plain.old caller 500 }
    requires quiet { is_quiet deed.now ≡ true }
    ensures { (s : Setup) → world_of s plain.new ≡ after.after (world_of s plain.old) caller deed.now }
{
    match *deed {
        Deed::EndCaller => begin(plain, caller, Activity::Ended),
        Deed::Drop { of } => give_back(plain, caller, of),
        Deed::Close { of } => close(plain, caller, of),
        Deed::Start(ticket) => begin(plain, caller, Activity::Transfer(ticket)),
        Deed::Free { of } => free(plain, caller, of),
        Deed::BeginPower { kind, of } => {
            plain.power_owner = Some(caller);
            begin(plain, caller, Activity::Power(kind, of));
        }
        Deed::EndPower(_) => {
            plain.power_owner = None;
            finish(plain, caller);
        }
        Deed::Sleep { of } => rest(plain, of, true),
        Deed::Wake { of } => rest(plain, of, false),
        Deed::Plug { spot } => {
            plain.absent.remove(spot);
            finish(plain, caller);
        }
        Deed::Refuse(_) => finish(plain, caller),
        Deed::Done(_) => finish(plain, caller),
        Deed::Tell => finish(plain, caller),
        Deed::Open { .. } => unreachable!(),
        Deed::Detach { .. } => unreachable!(),
        Deed::Rescan { .. } => unreachable!(),
        Deed::Unplug { .. } => unreachable!(),
        Deed::Search { .. } => unreachable!(),
        Deed::EndScan { .. } => unreachable!(),
        Deed::BeginInterrupts => unreachable!(),
        Deed::Finalise { .. } => unreachable!(),
    }
}

/// Does what a caller does: the world becomes the one after the deed. If memory runs out, the world is lost.
#[tactic(auto, unfolding(run_rules::specs::After::after))]
pub fn apply(
    alloc: Global,
    rules: &Rules,
    plain: &mut Plain,
    caller: u8,
    deed: &Deed,
) -> Result<(), Memory>
    requires caller { HasCaller plain.old caller 500 }
    requires next { plain.old.live.next < 2 ^ 64 - 1 }
    requires place { HasPlace deed.now }
    ensures { OnOk result (world_of rules.now plain.new ≡ after.after (world_of rules.now plain.old) caller deed.now) }
{
    match *deed {
        Deed::Search { moved, got, .. } => search(alloc, rules, plain, caller, moved, got),
        Deed::EndScan { of } => end_scan(alloc, plain, caller, of),
        Deed::BeginInterrupts => begin_interrupts(alloc, plain, caller),
        Deed::Finalise {
            shown,
            got,
            listed,
            anew,
            ..
        } => {
            let call = Call {
                shown,
                got,
                listed,
                anew,
            };
            finalise(alloc, rules, plain, caller, call)
        }
        Deed::Open { of, sole } => open(alloc, plain, caller, of, sole),
        Deed::Detach { of } => detach(alloc, plain, caller, of),
        Deed::Rescan { of, only } => rescan(alloc, rules, plain, caller, of, only),
        Deed::Unplug { spot, of } => unplug(alloc, plain, caller, spot, of),
        _ => {
            do_quietly(plain, caller, deed);
            Ok(())
        }
    }
}
