//! What deeds do to the spots' slots.
ghost use Rattle.std.specs.Prelude.{◌≡◌, ◌≢◌, ◌<◌, ◌-◌, ◌^◌, ℕ, IfErr, OnErr, OnOk, Some, false, true, length, slice_get, slice_set};
ghost use Rattle.std.specs.Option.{option_map_or};
ghost use Rattle.ref_ledger.specs.declared.state.SlotState.TheVariants.{Free, Condemned};
ghost use Rattle.run_rules.specs.declared.deed.Deed.TheVariants as deeds;
ghost use Rattle.run_rules.specs.declared.deed.Choice.TheVariants.{Does};
ghost use Rattle.run_rules.specs.Next.{next};
ghost use Rattle.run_sound.specs.Kept.{Kept, MayRun};
ghost use Rattle.deed_effect.specs.SlotDeeds as slot_deeds;
ghost use Rattle.deed_effect.specs.SlotDeeds.{HaltIs, IsAlone, IsDenied, LatelyCondemned, SlotsLag};
ghost use Rattle.deed_effect.specs.Commits.{HasRoom, IsAfter};
ghost use Rattle.run_world.specs.Arrivals as arrivals;
ghost use Rattle.deed_effect.specs.Publishing.{SlotReady, published};
ghost use Rattle.run_rules.specs.World as world;
ghost use Rattle.deed_effect.specs.Agreement.{slots_of};
ghost use Rattle.run_world.specs.View.{Books};
ghost use Rattle.run_world.specs.Sites.{world_at};

use crate::commit::commit;
use crate::freed::free;
use dev_tree::DevTree;
use ref_ledger::{Bury, Slots};
use run_rules::{Arrival, Deed, Wait};
use run_world::{Core, Site};

/// Why a deed was not done: memory ran out, or its caller waits.
#[derive(Clone, Copy)]
pub enum Halt {
    Memory,
    Waits(Wait),
}

/// Whether a spot's device is in the subtree of another.
#[inline(always)]
fn stands_below(tree: &DevTree, spot: u16, target: u64) -> bool
    ensures { option_map_or (λ d. world.is_under tree.now.live target d.serial) (world.device_on tree.now.live spot) false ≡ result }
{
    match tree.on_spot(spot) {
        Some(serial) => tree.is_under(serial, target),
        None => false,
    }
}

/// Condemns the slot of a device without children, on a board whose devices were condemned just now.
fn condemn_slot<S: Slots>(slots: &mut S, site: &Site, core: &Core, target: u64)
    requires late { LatelyCondemned site.now.setup core.now.tree.live target (S.states slots.old) }
    requires alone { IsAlone core.now.tree.live target }
    ensures agree { S.states slots.new ≡ slots_of (world_at site.now core.now) }
    ensures denials { S.denials slots.new ≡ S.denials slots.old }
    ensures last { S.last_denial slots.new ≡ S.last_denial slots.old }
{
    core.tree.stands();
    match core.tree.get(target) {
        Some(device) => if (device.spot as usize) < site.setup.machine.spots.len() {
            slots.condemn(device.spot);
        },
        None => unreachable!(),
    }
}

/// Condemns the slots of a device and of all that is below it, on a board whose devices were condemned just now.
fn condemn_slots<S: Slots>(slots: &mut S, site: &Site, core: &Core, target: u64)
    requires { LatelyCondemned site.now.setup core.now.tree.live target (S.states slots.old) }
    ensures agree { S.states slots.new ≡ slots_of (world_at site.now core.now) }
    ensures denials { S.denials slots.new ≡ S.denials slots.old }
    ensures last { S.last_denial slots.new ≡ S.last_denial slots.old }
{
    for spot in 0..site.setup.machine.spots.len() as u16 {
        if stands_below(&core.tree, spot, target) {
            slots.condemn(spot);
        }
    }
}

/// Frees a condemned slot; or returns who holds it, bit k-1 for caller k, and only the denials change.
fn bury_slot<S: Slots>(slots: &mut S, slot: u16) -> Result<(), u16>
    requires { slice_get (S.states slots.old) slot ≡ Some Condemned }
    ensures freed { OnOk result (S.states slots.new ≡ slice_set (S.states slots.old) slot Free) }
    ensures quiet { OnOk result ((S.denials slots.new ≡ S.denials slots.old) × (S.last_denial slots.new ≡ S.last_denial slots.old)) }
    ensures same { OnErr result (S.states slots.new ≡ S.states slots.old) }
    ensures held { IfErr result (λ mask. IsDenied slot (S.denials slots.old) mask (S.denials slots.new) (S.last_denial slots.new)) }
{
    match slots.bury(slot) {
        Bury::Buried(token) => {
            let _ = token.spend();
            Ok(())
        }
        Bury::Held(mask) => Err(mask),
    }
}

/// A condemned device is freed, its slot first; or callers hold the slot, and nothing changes except the denials.
fn free_with<S: Slots>(
    site: &Site,
    core: &mut Core,
    caller: u8,
    of: u64,
    slots: &mut S,
) -> Result<(), Halt>
    requires may { MayRun site.now.setup }
    requires books { Books site.now.setup core.old }
    requires kept { Kept (world_at site.now core.old) }
    requires caller { caller < length core.old.callers.items }
    requires chosen { next (world_at site.now core.old) caller ≡ Does (deeds.Free of) }
    requires agree { S.states slots.old ≡ slots_of (world_at site.now core.old) }
    ensures freed { OnOk result (IsAfter site.now core.old caller (deeds.Free of) core.new) }
    ensures quiet { OnOk result ((S.denials slots.new ≡ S.denials slots.old) × (S.last_denial slots.new ≡ S.last_denial slots.old)) }
    ensures same { OnErr result (world_at site.now core.new ≡ world_at site.now core.old) }
    ensures halt { IfErr result (λ why. HaltIs core.old.tree.live (deeds.Free of)
        (S.denials slots.old) (S.last_denial slots.old) why (S.denials slots.new) (S.last_denial slots.new)) }
    ensures agree { S.states slots.new ≡ slots_of (world_at site.now core.new) }
    ensures books { Books site.now.setup core.new }
{
    match core.tree.get(of) {
        Some(device) => match bury_slot(slots, device.spot) {
            Ok(()) => {
                free(site, core, caller, of);
                Ok(())
            }
            Err(mask) => Err(Halt::Waits(Wait::Leases(of, mask))),
        },
        None => unreachable!(),
    }
}

/// The device that a deed condemns, with all that is below it.
#[inline(always)]
fn condemned_by(deed: &Deed) -> Option<u64>
    ensures { result ≡ slot_deeds.condemned_by deed.now }
{
    match *deed {
        Deed::Detach { of } => Some(of),
        Deed::Unplug { of, .. } => of,
        _ => None,
    }
}

/// Condemns the slots of what was condemned just now, if anything was.
#[inline(always)]
fn condemn_too<S: Slots>(slots: &mut S, site: &Site, core: &Core, target: Option<u64>)
    requires { SlotsLag site.now.setup core.now.tree.live target (S.states slots.old) }
    ensures agree { S.states slots.new ≡ slots_of (world_at site.now core.now) }
    ensures denials { S.denials slots.new ≡ S.denials slots.old }
    ensures last { S.last_denial slots.new ≡ S.last_denial slots.old }
{
    match target {
        Some(target) if core.tree.is_bare(target) => condemn_slot(slots, site, core, target),
        Some(target) => condemn_slots(slots, site, core, target),
        None => {}
    }
}

/// The device that comes by a deed.
#[inline(always)]
pub fn got_of(deed: &Deed) -> Option<Arrival>
    ensures { result ≡ arrivals.got_of deed.now }
{
    match *deed {
        Deed::Search { got, .. } => got,
        Deed::Finalise { got, .. } => got,
        _ => None,
    }
}

/// Publishes the slot of a device that comes.
#[inline(always)]
fn publish<S: Slots>(slots: &mut S, got: Option<Arrival>)
    requires { SlotReady got (S.states slots.old) }
    ensures states { S.states slots.new ≡ published got (S.states slots.old) }
    ensures denials { S.denials slots.new ≡ S.denials slots.old }
    ensures last { S.last_denial slots.new ≡ S.last_denial slots.old }
{
    match got {
        Some(arrival) => slots.publish(arrival.spot),
        None => {}
    }
}

/// Does a deed that frees nothing; the slot of what came is published, and those of what it condemns are condemned. At
/// `Memory` all is as before.
#[inline(always)]
fn do_with<S: Slots>(
    site: &Site,
    core: &mut Core,
    caller: u8,
    deed: &Deed,
    slots: &mut S,
) -> Result<(), Halt>
    requires may { MayRun site.now.setup }
    requires books { Books site.now.setup core.old }
    requires kept { Kept (world_at site.now core.old) }
    requires caller { caller < length core.old.callers.items }
    requires chosen { next (world_at site.now core.old) caller ≡ Does deed.now }
    requires agree { S.states slots.old ≡ slots_of (world_at site.now core.old) }
    requires next { core.old.tree.next < 2 ^ 64 - 1 }
    requires room { HasRoom core.old caller deed.now }
    requires other { (of : ℕ) → deed.now ≢ deeds.Free of }
    ensures done { OnOk result (IsAfter site.now core.old caller deed.now core.new) }
    ensures same { OnErr result (world_at site.now core.new ≡ world_at site.now core.old) }
    ensures agree { S.states slots.new ≡ slots_of (world_at site.now core.new) }
    ensures quiet { OnOk result ((S.denials slots.new ≡ S.denials slots.old) × (S.last_denial slots.new ≡ S.last_denial slots.old)) }
    ensures halt { IfErr result (λ why. HaltIs core.old.tree.live deed.now
        (S.denials slots.old) (S.last_denial slots.old) why (S.denials slots.new) (S.last_denial slots.new)) }
    ensures books { Books site.now.setup core.new }
{
    match commit(site, core, caller, deed) {
        Ok(()) => {
            publish(slots, got_of(deed));
            condemn_too(slots, site, core, condemned_by(deed));
            Ok(())
        }
        Err(_) => Err(Halt::Memory),
    }
}

/// Does a deed that the caller chose, with its slots, where there is room for it; or memory runs out, or callers hold the
/// slot of the device that is to be freed, and nothing changes except the denials.
#[inline(always)]
pub fn deed_in_room<S: Slots>(
    site: &Site,
    core: &mut Core,
    caller: u8,
    deed: &Deed,
    slots: &mut S,
) -> Result<(), Halt>
    requires may { MayRun site.now.setup }
    requires books { Books site.now.setup core.old }
    requires kept { Kept (world_at site.now core.old) }
    requires caller { caller < length core.old.callers.items }
    requires chosen { next (world_at site.now core.old) caller ≡ Does deed.now }
    requires agree { S.states slots.old ≡ slots_of (world_at site.now core.old) }
    requires next { core.old.tree.next < 2 ^ 64 - 1 }
    requires room { HasRoom core.old caller deed.now }
    ensures done { OnOk result (IsAfter site.now core.old caller deed.now core.new) }
    ensures quiet { OnOk result ((S.denials slots.new ≡ S.denials slots.old) × (S.last_denial slots.new ≡ S.last_denial slots.old)) }
    ensures same { OnErr result (world_at site.now core.new ≡ world_at site.now core.old) }
    ensures halt { IfErr result (λ why. HaltIs core.old.tree.live deed.now
        (S.denials slots.old) (S.last_denial slots.old) why (S.denials slots.new) (S.last_denial slots.new)) }
    ensures agree { S.states slots.new ≡ slots_of (world_at site.now core.new) }
    ensures books { Books site.now.setup core.new }
{
    match *deed {
        Deed::Free { of } => free_with(site, core, caller, of, slots),
        _ => do_with(site, core, caller, deed, slots),
    }
}
