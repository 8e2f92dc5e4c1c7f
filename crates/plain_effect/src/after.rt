//! The world after a deed: what becomes of callers, frames and attached devices.
ghost use Rattle.std.specs.Prelude.{◌≡◌, ◌<◌, ◌+◌, ◌-◌, ◌^◌, ℕ, IfSome, OnOk};
ghost use Rattle.run_rules.specs.After as after;
ghost use Rattle.run_rules.specs.World as world;
ghost use Rattle.run_rules.specs.declared.world.Setup.{Setup};
ghost use Rattle.run_rules.specs.declared.deed.Deed.TheVariants as deeds;
ghost use Rattle.plain_effect.specs.Effects.{with_scan};
ghost use Rattle.plain_world.specs.Plain.{HasCaller, state_at, world_of};

use cf_types::{Memory, Policy};
use plain_world::{Plain, Rules, driver_of, has_ended, is_nothing, new_scan, offered, policy_of};
use run_rules::{Activity, Arrival, Deferred, Frame, Key, Placing, Position};
use std::alloc::Global;

/// The command of a caller is over.
pub fn finish(plain: &mut Plain, caller: u8)
    requires { HasCaller plain.old caller 600 }
    ensures { (s : Setup) → world_of s plain.new ≡ after.over (world_of s plain.old) caller }
{
    plain.callers[caller as usize].finish();
}

/// A caller is in the middle of something.
pub fn begin(plain: &mut Plain, caller: u8, doing: Activity)
    requires { HasCaller plain.old caller 500 }
    ensures caller { HasCaller plain.new caller 500 }
    ensures world { (s : Setup) → world_of s plain.new ≡ after.doing (world_of s plain.old) caller doing }
{
    plain.callers[caller as usize].begin(doing);
}

/// A frame is put on a caller's stack.
pub fn push(plain: &mut Plain, caller: u8, frame: Frame) -> Result<(), Memory>
    requires { HasCaller plain.old caller 600 }
    ensures caller { (n : ℕ) → HasCaller plain.old caller n → OnOk result (HasCaller plain.new caller (n + 1)) }
    ensures world { (s : Setup) → OnOk result (world_of s plain.new ≡ after.pushed (world_of s plain.old) caller frame) }
{
    plain.callers[caller as usize].push(frame)
}

/// The deferred scans to a key begin.
fn release(alloc: Global, plain: &mut Plain, caller: u8, which: Key) -> Result<(), Memory>
    requires { HasCaller plain.old caller 600 }
    ensures { (s : Setup) → OnOk result (world_of s plain.new
        ≡ after.released (world_of s plain.old) caller which (state_at plain.old.callers.items caller).stack) }
{
    plain.callers[caller as usize].release(alloc, plain.deferred.list(), which)?;
    plain.deferred.forget(which);
    Ok(())
}

/// Interrupts work from now on, and the scans that waited for them begin. See config_interrupts(9).
#[tactic(auto, unfolding(run_rules::specs::After::after))]
pub fn begin_interrupts(alloc: Global, plain: &mut Plain, caller: u8) -> Result<(), Memory>
    requires { HasCaller plain.old caller 600 }
    ensures { (s : Setup) → OnOk result (world_of s plain.new ≡ after.after (world_of s plain.old) caller deeds.BeginInterrupts) }
{
    plain.interrupts_on = true;
    release(alloc, plain, caller, Key::Interrupts)
}

/// The scan on top is over, and those that were deferred to its end begin. See config_defer(9).
#[tactic(auto, unfolding(run_rules::specs::After::after))]
pub fn end_scan(alloc: Global, plain: &mut Plain, caller: u8, of: u64) -> Result<(), Memory>
    requires { HasCaller plain.old caller 600 }
    ensures { (s : Setup) → OnOk result (world_of s plain.new ≡ after.after (world_of s plain.old) caller (deeds.EndScan of)) }
{
    plain.callers[caller as usize].drop_top();
    release(alloc, plain, caller, Key::Parent(of))
}

/// The scan on top moves to a position.
fn advance(plain: &mut Plain, caller: u8, to: Position)
    requires { HasCaller plain.old caller 500 }
    ensures world { (s : Setup) → world_of s plain.new
        ≡ after.with_stack (world_of s plain.old) caller (after.moved_top to (state_at plain.old.callers.items caller).stack) }
    ensures caller { HasCaller plain.new caller 501 }
    ensures next { plain.new.live.next ≡ plain.old.live.next }
{
    plain.callers[caller as usize].advance(to);
}

/// The frame on top is over.
fn leave(plain: &mut Plain, caller: u8)
    requires { HasCaller plain.old caller 600 }
    ensures { (s : Setup) → world_of s plain.new
        ≡ after.with_stack (world_of s plain.old) caller (after.under_top (state_at plain.old.callers.items caller).stack) }
{
    plain.callers[caller as usize].leave();
}

/// A device is listed, with the next serial.
#[tactic(auto, unfolding(run_rules::specs::After::listed))]
fn list(plain: &mut Plain, arrival: Arrival) -> Result<(), Memory>
    requires { plain.old.live.next < 2 ^ 64 - 1 }
    ensures world { (s : Setup) → OnOk result (world_of s plain.new ≡ after.listed (world_of s plain.old) arrival) }
    ensures callers { plain.new.callers.items ≡ plain.old.callers.items }
{
    plain.live.push(arrival)
}

/// Where the finalizer of a new device goes.
#[tactic(auto, unfolding(run_rules::specs::After::finaliser_placing))]
fn finaliser_placing(policy: Policy, booted: bool) -> Placing
    ensures { result ≡ after.finaliser_placing policy booted }
{
    if policy.finaliser {
        if booted {
            Placing::Pushed
        } else {
            Placing::Queued
        }
    } else {
        Placing::Nowhere
    }
}

/// Where the scan of a new device goes.
#[tactic(auto, unfolding(run_rules::specs::After::scan_placing))]
fn scan_placing(policy: Policy, offers: &[u32], interrupts_on: bool, may_defer: bool) -> Placing
    ensures { result ≡ after.scan_placing policy offers.now interrupts_on may_defer }
{
    if is_nothing(offers) {
        Placing::Nowhere
    } else if policy.interrupts && !interrupts_on {
        Placing::Queued
    } else if policy.defer && may_defer {
        Placing::PutOff
    } else {
        Placing::Pushed
    }
}

/// Puts the finalizer of a new device where it goes.
fn put_finaliser(plain: &mut Plain, placing: Placing, caller: u8, serial: u64) -> Result<(), Memory>
    requires { HasCaller plain.old caller 501 }
    ensures world { (s : Setup) → OnOk result (world_of s plain.new ≡ after.place_finaliser placing (world_of s plain.old) caller serial) }
    ensures caller { OnOk result (HasCaller plain.new caller 502) }
{
    match placing {
        Placing::Queued => {
            plain.finalisers.push(serial)?;
            Ok(())
        }
        Placing::Pushed => push(plain, caller, Frame::Finaliser { serial }),
        Placing::Nowhere => Ok(()),
        Placing::PutOff => Ok(()),
    }
}

/// The finalizer of a new device goes where the policy says. See config_finalize_register(9).
#[tactic(auto, unfolding(run_rules::specs::After::finaliser_placed))]
fn place_finaliser(plain: &mut Plain, policy: Policy, caller: u8, serial: u64) -> Result<(), Memory>
    requires { HasCaller plain.old caller 501 }
    ensures world { (s : Setup) → OnOk result (world_of s plain.new ≡ after.finaliser_placed policy (world_of s plain.old) caller serial) }
    ensures caller { OnOk result (HasCaller plain.new caller 502) }
{
    let booted = has_ended(&plain.callers, 0);
    put_finaliser(plain, finaliser_placing(policy, booted), caller, serial)
}

/// Puts the scan of a new device where it goes.
fn put_scan(
    alloc: Global,
    plain: &mut Plain,
    placing: Placing,
    caller: u8,
    parent: u64,
    serial: u64,
) -> Result<(), Memory>
    requires { HasCaller plain.old caller 502 }
    ensures world { (s : Setup) → OnOk result (world_of s plain.new ≡ after.place_scan placing (world_of s plain.old) caller parent serial) }
    ensures caller { OnOk result (HasCaller plain.new caller 503) }
{
    match placing {
        Placing::Queued => {
            plain.deferred.push(Deferred {
                key: Key::Interrupts,
                child: serial,
            })?;
            Ok(())
        }
        Placing::PutOff => {
            plain.deferred.push(Deferred {
                key: Key::Parent(parent),
                child: serial,
            })?;
            Ok(())
        }
        Placing::Pushed => push(plain, caller, new_scan(alloc, serial)),
        Placing::Nowhere => Ok(()),
    }
}

/// Who brings a device: a caller, in a search or by a finalizer, whose devices do not put their scans off.
#[derive(Clone, Copy)]
struct Bringer {
    caller: u8,
    may_defer: bool,
}

/// The scan of a new device goes where the policy and what the device offers say. See config_defer(9).
#[tactic(auto, unfolding(run_rules::specs::After::scan_placed))]
fn place_scan(
    alloc: Global,
    rules: &Rules,
    plain: &mut Plain,
    by: Bringer,
    serial: u64,
    arrival: Arrival,
) -> Result<(), Memory>
    requires caller { HasCaller plain.old by.caller 502 }
    ensures world { (s : Setup)
        → OnOk result (world_of s plain.new ≡ with_scan rules.now (world_of s plain.old) by.caller serial arrival by.may_defer) }
    ensures caller { OnOk result (HasCaller plain.new by.caller 503) }
{
    let policy = policy_of(rules, arrival.row);
    let offers = offered(rules, driver_of(rules, arrival.row));
    let placing = scan_placing(policy, offers, plain.interrupts_on, by.may_defer);
    put_scan(alloc, plain, placing, by.caller, arrival.parent, serial)
}

/// A device comes: it is listed, and its finalizer and its scan go where they belong. See config_attach(9).
#[tactic(auto, unfolding(run_rules::specs::After::attached))]
fn attach(
    alloc: Global,
    rules: &Rules,
    plain: &mut Plain,
    by: Bringer,
    arrival: Arrival,
) -> Result<(), Memory>
    requires caller { HasCaller plain.old by.caller 501 }
    requires next { plain.old.live.next < 2 ^ 64 - 1 }
    ensures world { OnOk result (world_of rules.now plain.new
        ≡ after.attached (world_of rules.now plain.old) by.caller arrival by.may_defer) }
    ensures caller { OnOk result (HasCaller plain.new by.caller 503) }
{
    let serial = plain.live.next();
    list(plain, arrival)?;
    place_finaliser(plain, policy_of(rules, arrival.row), by.caller, serial)?;
    place_scan(alloc, rules, plain, by, serial, arrival)
}

/// A device comes, if one was found.
#[inline(always)]
fn arrive(
    alloc: Global,
    rules: &Rules,
    plain: &mut Plain,
    by: Bringer,
    got: Option<Arrival>,
) -> Result<(), Memory>
    requires caller { HasCaller plain.old by.caller 501 }
    requires next { plain.old.live.next < 2 ^ 64 - 1 }
    ensures world { OnOk result (world_of rules.now plain.new ≡ after.arrived (world_of rules.now plain.old) by.caller got by.may_defer) }
    ensures caller { OnOk result (HasCaller plain.new by.caller 503) }
{
    match got {
        Some(arrival) => attach(alloc, rules, plain, by, arrival),
        None => Ok(()),
    }
}

/// A turn of a scan: the scan moves, and what was found is attached.
#[tactic(auto, unfolding(run_rules::specs::After::after))]
pub fn search(
    alloc: Global,
    rules: &Rules,
    plain: &mut Plain,
    caller: u8,
    moved: Position,
    got: Option<Arrival>,
) -> Result<(), Memory>
    requires caller { HasCaller plain.old caller 500 }
    requires next { plain.old.live.next < 2 ^ 64 - 1 }
    ensures { (parent spot : ℕ) → OnOk result (world_of rules.now plain.new
        ≡ after.after (world_of rules.now plain.old) caller (deeds.Search parent spot moved got)) }
{
    advance(plain, caller, moved);
    let by = Bringer {
        caller,
        may_defer: true,
    };
    arrive(alloc, rules, plain, by, got)
}

/// A late spot is seen from now on.
fn show(plain: &mut Plain, spot: Option<u16>)
    ensures world { (s : Setup) → world_of s plain.new ≡ after.show_spot (world_of s plain.old) spot }
    ensures callers { plain.new.callers.items ≡ plain.old.callers.items }
    ensures next { plain.new.live.next ≡ plain.old.live.next }
{
    if let Some(spot) = spot {
        plain.hidden.remove(spot);
    }
}

/// The place in the boot's list moves on, if a finalizer of the list was called.
fn move_list(plain: &mut Plain, listed: Option<u64>, anew: bool, answer: bool)
    requires { IfSome listed (λ place. place < 2 ^ 64 - 1) }
    ensures world { (s : Setup) → world_of s plain.new ≡ after.list_moved (world_of s plain.old) listed anew answer }
    ensures callers { plain.new.callers.items ≡ plain.old.callers.items }
{
    if let Some(place) = listed {
        plain.next_finaliser = place + 1;
        plain.pass_repeats = answer || (!anew && plain.pass_repeats);
    }
}

/// The frame of a finalizer goes at answer 0.
fn end_call(plain: &mut Plain, caller: u8, listed: Option<u64>, answer: bool)
    requires { HasCaller plain.old caller 503 }
    ensures { (s : Setup) → world_of s plain.new ≡ after.finaliser_done (world_of s plain.old) caller listed answer }
{
    match listed {
        Some(_) => {}
        None => {
            if !answer {
                leave(plain, caller);
            }
        }
    }
}

/// A call of a finalizer: the late spot that it found, what a row takes there, and, for one of the boot's list, its place
/// there and whether a pass begins with it.
#[derive(Clone, Copy)]
pub struct Call {
    pub shown: Option<u16>,
    pub got: Option<Arrival>,
    pub listed: Option<u64>,
    pub anew: bool,
}

/// A call of a finalizer: the late spot that it found is shown, what a row takes there is attached, and the boot's list
/// goes on, or the frame is over.
#[tactic(auto, unfolding(run_rules::specs::After::after))]
pub fn finalise(
    alloc: Global,
    rules: &Rules,
    plain: &mut Plain,
    caller: u8,
    call: Call,
) -> Result<(), Memory>
    requires caller { HasCaller plain.old caller 500 }
    requires next { plain.old.live.next < 2 ^ 64 - 1 }
    requires place { IfSome call.listed (λ place. place < 2 ^ 64 - 1) }
    ensures { (of : ℕ) → OnOk result (world_of rules.now plain.new
        ≡ after.after (world_of rules.now plain.old) caller (deeds.Finalise of call.shown call.got call.listed call.anew)) }
{
    let answer = call.shown.is_some();
    show(plain, call.shown);
    let by = Bringer {
        caller,
        may_defer: false,
    };
    arrive(alloc, rules, plain, by, call.got)?;
    move_list(plain, call.listed, call.anew, answer);
    end_call(plain, caller, call.listed, answer);
    Ok(())
}
