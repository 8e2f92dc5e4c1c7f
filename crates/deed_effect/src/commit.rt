//! What a deed changes.
ghost use Rattle.std.specs.Prelude.{◌≡◌, ◌≤◌, ◌<◌, ◌-◌, ◌^◌, ◌||◌, ◌&&◌, not, is_some, ℕ, IsTrue, IfSome, OnOk, OnErr, None, length, vec_len, vec_capacity};
ghost use Rattle.run_rules.specs.declared.deed.Deed.TheVariants as deeds;
ghost use Rattle.run_rules.specs.declared.world.Activity.TheVariants.{Scans};
ghost use Rattle.run_rules.specs.declared.deed.Choice.TheVariants.{Does};
ghost use Rattle.run_rules.specs.Next.{next};
ghost use Rattle.run_sound.specs.Kept.{Kept, MayRun};
ghost use Rattle.scan_engine.specs.Frames.{is_scanning};
ghost use Rattle.run_world.specs.Arrivals.{MayArrive, state_at};
ghost use Rattle.deed_effect.specs.Commits.{HasRoom, shown_now, IsAfter};
ghost use Rattle.run_world.specs.View.{Books};
ghost use Rattle.run_world.specs.Sites.{world_at};

use crate::attach::arrive;
use crate::effect::do_command;
use cf_types::Memory;
use run_rules::{Arrival, Deed, Key, Position};
use run_world::{Core, Site, SpotSet};

/// A turn of a scan: the scan moves, and what was found is attached.
#[inline(always)]
fn search(
    site: &Site,
    core: &mut Core,
    caller: u8,
    moved: Position,
    got: Option<Arrival>,
) -> Result<(), Memory>
    requires books { Books site.now.setup core.old }
    requires caller { caller < length core.old.callers.items }
    requires may { IfSome got (MayArrive site.now.setup core.old.tree.live) }
    requires next { core.old.tree.next < 2 ^ 64 - 1 }
    requires frame_room { 2 ≤ (state_at core.old.callers.items caller).stack.room }
    requires call_room { vec_len core.old.finalisers < vec_capacity core.old.finalisers }
    requires top { IsTrue (is_scanning (state_at core.old.callers.items caller).stack.frames) }
    ensures ok { (parent spot : ℕ) → OnOk result (IsAfter site.now core.old caller (deeds.Search parent spot moved got) core.new) }
    ensures err { OnErr result (world_at site.now core.new ≡ world_at site.now core.old) }
    ensures books { Books site.now.setup core.new }
{
    let was = core.callers[caller as usize].position();
    core.callers[caller as usize].advance(moved);
    if arrive(site, core, caller, got, true).is_err() {
        core.callers[caller as usize].advance(was);
        return Err(Memory);
    }
    Ok(())
}

/// A late spot is seen from now on.
#[inline(always)]
fn show(hidden: &mut SpotSet, spot: Option<u16>)
    ensures { hidden.new ≡ shown_now hidden.old spot }
{
    match spot {
        Some(spot) => hidden.remove(spot),
        None => {}
    }
}

/// Whether one of this pass answered 1, with this call.
#[inline(always)]
fn goes_again(shown: Option<u16>, anew: bool, pass_repeats: bool) -> bool
    ensures { (is_some shown || (not anew && pass_repeats)) ≡ result }
{
    shown.is_some() || (!anew && pass_repeats)
}

/// A call of a finalizer: the late spot that it found, what a row takes there, and, for one of the boot's list, its place
/// there and whether a pass begins with it.
#[derive(Clone, Copy)]
struct Call {
    shown: Option<u16>,
    got: Option<Arrival>,
    listed: Option<u64>,
    anew: bool,
}

/// A call of a finalizer: the late spot that it found is shown, what a row takes there is attached, and the boot's list
/// goes on, or the frame is over.
fn finalise(site: &Site, core: &mut Core, caller: u8, call: Call) -> Result<(), Memory>
    requires books { Books site.now.setup core.old }
    requires caller { caller < length core.old.callers.items }
    requires may { IfSome call.got (MayArrive site.now.setup core.old.tree.live) }
    requires next { core.old.tree.next < 2 ^ 64 - 1 }
    requires frame_room { 2 ≤ (state_at core.old.callers.items caller).stack.room }
    requires call_room { vec_len core.old.finalisers < vec_capacity core.old.finalisers }
    requires low { (state_at core.old.callers.items caller).doing ≡ Scans → (state_at core.old.callers.items caller).over < 2 ^ 32 - 1 }
    requires place { IfSome call.listed (λ place. place < 2 ^ 64 - 1) }
    requires frame { call.listed ≡ None → call.shown ≡ None → (0 < length (state_at core.old.callers.items caller).stack.frames) × (call.got ≡ None) }
    ensures ok { (of : ℕ) → OnOk result (IsAfter site.now core.old caller (deeds.Finalise of call.shown call.got call.listed call.anew) core.new) }
    ensures err { OnErr result (world_at site.now core.new ≡ world_at site.now core.old) }
    ensures books { Books site.now.setup core.new }
{
    arrive(site, core, caller, call.got, false)?;
    show(&mut core.hidden, call.shown);
    match call.listed {
        Some(place) => {
            core.next_finaliser = place + 1;
            core.pass_repeats = goes_again(call.shown, call.anew, core.pass_repeats);
        }
        None => {
            if call.shown.is_none() {
                core.callers[caller as usize].leave();
            }
        }
    }
    Ok(())
}

/// Does the deed that the caller chose. At `Memory` all is as before.
#[inline(always)]
pub fn commit(site: &Site, core: &mut Core, caller: u8, deed: &Deed) -> Result<(), Memory>
    requires may { MayRun site.now.setup }
    requires books { Books site.now.setup core.old }
    requires kept { Kept (world_at site.now core.old) }
    requires caller { caller < length core.old.callers.items }
    requires chosen { next (world_at site.now core.old) caller ≡ Does deed.now }
    requires next { core.old.tree.next < 2 ^ 64 - 1 }
    requires room { HasRoom core.old caller deed.now }
    ensures ok { OnOk result (IsAfter site.now core.old caller deed.now core.new) }
    ensures err { OnErr result (world_at site.now core.new ≡ world_at site.now core.old) }
    ensures books { Books site.now.setup core.new }
{
    match *deed {
        Deed::Search { moved, got, .. } => search(site, core, caller, moved, got),
        Deed::EndScan { of } => {
            core.callers[caller as usize].end_scan(site.alloc, &mut core.deferred, Key::Parent(of));
            Ok(())
        }
        Deed::BeginInterrupts => {
            core.interrupts_on = true;
            core.callers[caller as usize].release(site.alloc, &mut core.deferred, Key::Interrupts);
            Ok(())
        }
        Deed::Finalise {
            shown,
            got,
            listed,
            anew,
            ..
        } => {
            let call = Call {
                shown,
                got,
                listed,
                anew,
            };
            finalise(site, core, caller, call)
        },
        _ => do_command(site, core, caller, deed),
    }
}
