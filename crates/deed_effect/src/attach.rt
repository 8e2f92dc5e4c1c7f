//! A device is attached: its unit is taken, it is listed, and its scan and its finalizer are placed. See
//! config_attach(9).
ghost use Rattle.std.specs.Prelude.{◌≡◌, ◌≤◌, ◌<◌, ◌-◌, ◌^◌, ℕ, List, IfOk, IfSome, OnOk, OnErr, length, vec_len, vec_capacity};
ghost use Rattle.run_rules.specs.After as after;
ghost use Rattle.run_world.specs.Arrivals.{IsListed, MayArrive, called_too, put_off_too, state_at};
ghost use Rattle.run_rules.specs.declared.world.Deferred as entry;
ghost use Rattle.run_world.specs.View.{Books};
ghost use Rattle.run_world.specs.Sites.{world_at};

use cf_types::{Memory, Policy};
use defer_queue::DeferQueue;
use match_search::DriverUnit;
use run_rules::{Arrival, Key, Placing};
use run_world::{Core, Site, append, driver_of, is_ended, policy_of};
use scan_engine::offered;

/// Where the finalizer of a new device goes.
#[tactic(auto, unfolding(run_rules::specs::After::finaliser_placing))]
fn finaliser_placing(policy: Policy, booted: bool) -> Placing
    ensures { result ≡ after.finaliser_placing policy booted }
{
    if policy.finaliser {
        if booted {
            Placing::Pushed
        } else {
            Placing::Queued
        }
    } else {
        Placing::Nowhere
    }
}

/// Where the scan of a new device goes.
#[tactic(auto, unfolding(run_rules::specs::After::scan_placing))]
fn scan_placing(policy: Policy, offered: &[u32], interrupts_on: bool, may_defer: bool) -> Placing
    ensures { result ≡ after.scan_placing policy offered.now interrupts_on may_defer }
{
    match offered {
        [] => Placing::Nowhere,
        [..] => {
            if policy.interrupts && !interrupts_on {
                Placing::Queued
            } else if policy.defer && may_defer {
                Placing::PutOff
            } else {
                Placing::Pushed
            }
        }
    }
}

/// Puts the scan of a new device off, if that is its place.
fn put_off(
    deferred: &mut DeferQueue,
    placing: Placing,
    parent: u64,
    serial: u64,
) -> Result<(), Memory>
    ensures ok { OnOk result (deferred.new ≡ put_off_too placing deferred.old parent serial) }
    ensures err { OnErr result (deferred.new ≡ deferred.old) }
{
    match placing {
        Placing::Queued => deferred.put(Key::Interrupts, serial),
        Placing::PutOff => deferred.put(Key::Parent(parent), serial),
        Placing::Nowhere => Ok(()),
        Placing::Pushed => Ok(()),
    }
}

/// Takes back the scan that was put off last.
fn take_back(deferred: &mut DeferQueue, placing: Placing, parent: u64)
    ensures { (es : List entry.Deferred) (serial : ℕ) → deferred.old ≡ put_off_too placing es parent serial → deferred.new ≡ es }
{
    match placing {
        Placing::Queued => {
            let _ = deferred.take_last(Key::Interrupts);
        }
        Placing::PutOff => {
            let _ = deferred.take_last(Key::Parent(parent));
        }
        Placing::Nowhere => {}
        Placing::Pushed => {}
    }
}

/// Takes the unit of a new device, puts its scan off if that is its place, and lists it: it has the next serial. At
/// `Memory` what was taken is given back.
fn list(site: &Site, core: &mut Core, arrival: Arrival, placing: Placing) -> Result<u64, Memory>
    requires books { Books site.now.setup core.old }
    requires may { MayArrive site.now.setup core.old.tree.live arrival }
    requires next { core.old.tree.next < 2 ^ 64 - 1 }
    ensures ok { OnOk result (IsListed site.now.setup core.old core.new arrival placing) }
    ensures serial { IfOk result (λ serial. serial ≡ core.old.tree.next) }
    ensures err { OnErr result (world_at site.now core.new ≡ world_at site.now core.old) }
    ensures books { Books site.now.setup core.new }
{
    let driver = driver_of(&site.setup, arrival.row);
    core.units.take(driver, arrival.unit)?;
    if put_off(
        &mut core.deferred,
        placing,
        arrival.parent,
        core.tree.next(),
    )
    .is_err()
    {
        core.units.give(driver, arrival.unit);
        return Err(Memory);
    }
    match core.tree.attach(
        arrival.row,
        driver,
        arrival.unit,
        arrival.parent,
        arrival.spot,
    ) {
        Ok(serial) => {
            let named = DriverUnit {
                device: driver,
                unit: arrival.unit,
            };
            site.fixed
                .set(&site.setup.tables, &mut core.rows, named, false);
            Ok(serial)
        }
        Err(_) => {
            take_back(&mut core.deferred, placing, arrival.parent);
            core.units.give(driver, arrival.unit);
            Err(Memory)
        }
    }
}

/// Puts the finalizer of a new device on the boot's list, if that is its place.
fn call_later(finalisers: &mut Vec<u64>, placing: Placing, serial: u64)
    requires { vec_len finalisers.old < vec_capacity finalisers.old }
    ensures { finalisers.new.items ≡ called_too placing finalisers.old.items serial }
{
    match placing {
        Placing::Queued => append(finalisers, serial),
        Placing::Nowhere => {}
        Placing::PutOff => {}
        Placing::Pushed => {}
    }
}

/// A device is attached by a caller's deed, if one was found.
#[tactic(auto, unfolding(run_rules::specs::After::attached))]
#[inline(always)]
pub fn arrive(
    site: &Site,
    core: &mut Core,
    caller: u8,
    got: Option<Arrival>,
    may_defer: bool,
) -> Result<(), Memory>
    requires books { Books site.now.setup core.old }
    requires caller { caller < length core.old.callers.items }
    requires may { IfSome got (MayArrive site.now.setup core.old.tree.live) }
    requires next { core.old.tree.next < 2 ^ 64 - 1 }
    requires frame_room { 2 ≤ (state_at core.old.callers.items caller).stack.room }
    requires call_room { vec_len core.old.finalisers < vec_capacity core.old.finalisers }
    ensures ok { OnOk result (world_at site.now core.new ≡ after.arrived (world_at site.now core.old) caller got may_defer) }
    ensures err { OnErr result (world_at site.now core.new ≡ world_at site.now core.old) }
    ensures books { Books site.now.setup core.new }
{
    let arrival = match got {
        Some(arrival) => arrival,
        None => return Ok(()),
    };
    let policy = policy_of(&site.setup, arrival.row);
    let offers = offered(
        &site.graph,
        &site.setup.tables,
        driver_of(&site.setup, arrival.row),
    );
    let finaliser = finaliser_placing(policy, is_ended(core, 0));
    let scan = scan_placing(policy, offers, core.interrupts_on, may_defer);
    let serial = list(site, core, arrival, scan)?;
    call_later(&mut core.finalisers, finaliser, serial);
    core.callers[caller as usize].place(site.alloc, finaliser, scan, serial);
    Ok(())
}
