//! What the deeds of scripts' callers change. See drvctl(8), config_detach(9) and pmf(9).
ghost use Rattle.std.specs.Prelude.{ℕ, ◌≡◌, ◌≤◌, ◌<◌, ◌-◌, ◌^◌, true, false, length, IfSome, IsTrue, OnOk, OnErr};
ghost use Rattle.cf_types.specs.declared.machine.Ticket.{Ticket};
ghost use Rattle.run_rules.specs.After as rule;
ghost use Rattle.run_rules.specs.declared.deed.Deed.TheVariants as deeds;
ghost use Rattle.run_rules.specs.declared.deed.PowerEnd.{PowerEnd};
ghost use Rattle.run_rules.specs.World as world;
ghost use Rattle.run_rules.specs.declared.world.Setup as from;
ghost use Rattle.ref_ledger.specs.Refs.{IsHolder, MayGrant};
ghost use Rattle.run_world.specs.Arrivals.{state_at};
ghost use Rattle.run_rules.specs.Sound.{HasSoundDevices};
ghost use Rattle.run_world.specs.Events.{HaveRows};
ghost use Rattle.cf_types.specs.Locators as shared;
ghost use Rattle.cf_types.specs.declared.tables.Place.TheVariants.{At};
ghost use Rattle.run_rules.specs.Next as next;
ghost use Rattle.run_rules.specs.declared.deed.Choice.TheVariants.{Does};
ghost use Rattle.run_sound.specs.Kept.{Kept, MayRun};
ghost use Rattle.run_world.specs.Rescans.{IsKnown};
ghost use Rattle.deed_effect.specs.Effects.{MayDo, is_of_frame, is_plain};
ghost use Rattle.run_world.specs.View.{world_of, Books};
ghost use Rattle.run_world.specs.Sites.{world_at};
ghost use Rattle.deed_effect.specs.Commits.{IsAfter};

use crate::freed::free;
use cf_types::Memory;
use run_rules::{Activity, Deed, Frame, Position, PowerKind, Setup};
use run_world::{Core, Site, begin, begin_scan, finish, given_by, wanted_by};

/// The caller holds a device once more. At `Memory` all is as before.
fn open(core: &mut Core, caller: u8, of: u64, sole: bool) -> Result<(), Memory>
    requires caller { caller < length core.old.callers.items }
    requires low { (state_at core.old.callers.items caller).over < 2 ^ 32 - 1 }
    requires holder { IsHolder caller }
    requires room { MayGrant core.old.refs of caller sole }
    ensures ok { OnOk result ((s : from.Setup) → world_of s core.new ≡ rule.after (world_of s core.old) caller (deeds.Open of sole)) }
    ensures err { OnErr result ((s : from.Setup) → world_of s core.new ≡ world_of s core.old) }
    ensures books { (s : from.Setup) → Books s core.old → Books s core.new }
{
    core.refs.grant(of, caller, sole)?;
    finish(core, caller);
    Ok(())
}

/// The caller gives one reference to a device back.
#[inline(always)]
fn close(core: &mut Core, caller: u8, of: u64)
    requires caller { caller < length core.old.callers.items }
    requires low { (state_at core.old.callers.items caller).over < 2 ^ 32 - 1 }
    requires held { world.holds_in core.old.refs.refs caller of ≡ true }
    ensures world { (s : from.Setup) → world_of s core.new ≡ rule.after (world_of s core.old) caller (deeds.Close of) }
    ensures books { (s : from.Setup) → Books s core.old → Books s core.new }
{
    core.refs.give_back(of, caller);
    finish(core, caller);
}

/// After its last command the caller returns a reference.
#[tactic(auto, unfolding(run_rules::specs::After::after))]
#[inline(always)]
fn give_back(core: &mut Core, caller: u8, of: u64)
    requires held { world.holds_in core.old.refs.refs caller of ≡ true }
    ensures world { (s : from.Setup) → world_of s core.new ≡ rule.after (world_of s core.old) caller (deeds.Drop of) }
    ensures books { (s : from.Setup) → Books s core.old → Books s core.new }
{
    core.refs.give_back(of, caller);
}

/// A transfer is over.
#[inline(always)]
pub fn finish_transfer(core: &mut Core, caller: u8)
    requires caller { caller < length core.old.callers.items }
    requires low { (state_at core.old.callers.items caller).over < 2 ^ 32 - 1 }
    ensures world { (s : from.Setup) (ticket : Ticket) → world_of s core.new ≡ rule.after (world_of s core.old) caller (deeds.Done ticket) }
    ensures books { (s : from.Setup) → Books s core.old → Books s core.new }
{
    finish(core, caller);
}

/// A power command begins: the caller has the power turn.
#[inline(always)]
fn begin_power(core: &mut Core, caller: u8, kind: PowerKind, of: u64)
    requires caller { caller < length core.old.callers.items }
    ensures world { (s : from.Setup) → world_of s core.new ≡ rule.after (world_of s core.old) caller (deeds.BeginPower kind of) }
    ensures books { (s : from.Setup) → Books s core.old → Books s core.new }
{
    core.power_owner = Some(caller);
    begin(core, caller, Activity::Power(kind, of));
}

/// A power command is over, and the power turn is given up.
#[inline(always)]
fn end_power(core: &mut Core, caller: u8)
    requires caller { caller < length core.old.callers.items }
    requires low { (state_at core.old.callers.items caller).over < 2 ^ 32 - 1 }
    ensures world { (s : from.Setup) (end : PowerEnd) → world_of s core.new ≡ rule.after (world_of s core.old) caller (deeds.EndPower end) }
    ensures books { (s : from.Setup) → Books s core.old → Books s core.new }
{
    core.power_owner = None;
    finish(core, caller);
}

/// Hardware comes to a spot.
#[inline(always)]
fn plug(core: &mut Core, caller: u8, spot: u16)
    requires caller { caller < length core.old.callers.items }
    requires low { (state_at core.old.callers.items caller).over < 2 ^ 32 - 1 }
    ensures world { (s : from.Setup) → world_of s core.new ≡ rule.after (world_of s core.old) caller (deeds.Plug spot) }
    ensures books { (s : from.Setup) → Books s core.old → Books s core.new }
{
    core.absent.remove(spot);
    finish(core, caller);
}

/// A device and all that is below it are condemned: the caller frees them from now on.
#[inline(always)]
fn detach(core: &mut Core, caller: u8, of: u64)
    requires caller { caller < length core.old.callers.items }
    requires live { IsTrue (world.is_live core.old.tree.live of) }
    ensures world { (s : from.Setup) → world_of s core.new ≡ rule.after (world_of s core.old) caller (deeds.Detach of) }
    ensures books { (s : from.Setup) → Books s core.old → Books s core.new }
{
    core.tree.condemn(of, caller);
    begin(core, caller, Activity::Frees(of));
}

/// A device goes to sleep, or wakes.
#[inline(always)]
fn rest(core: &mut Core, of: u64, asleep: bool)
    requires live { IsTrue (world.is_live core.old.tree.live of) }
    ensures world { (s : from.Setup) → world_of s core.new ≡ rule.marked (world_of s core.old) of asleep }
    ensures books { (s : from.Setup) → Books s core.old → Books s core.new }
{
    core.tree.set_asleep(of, asleep);
}

/// The hardware of a spot goes, and from now on the caller frees the device there. At `Memory` all is as before.
fn unplug(core: &mut Core, caller: u8, spot: u16, of: Option<u64>) -> Result<(), Memory>
    requires caller { caller < length core.old.callers.items }
    requires low { (state_at core.old.callers.items caller).over < 2 ^ 32 - 1 }
    requires live { IfSome of (λ s. IsTrue (world.is_live core.old.tree.live s)) }
    ensures ok { OnOk result ((s : from.Setup) → world_of s core.new ≡ rule.after (world_of s core.old) caller (deeds.Unplug spot of)) }
    ensures err { OnErr result ((s : from.Setup) → world_of s core.new ≡ world_of s core.old) }
    ensures books { (s : from.Setup) → Books s core.old → Books s core.new }
{
    core.absent.put_first(spot)?;
    match of {
        Some(of) => {
            core.tree.condemn(of, caller);
            begin(core, caller, Activity::Frees(of));
        }
        None => finish(core, caller),
    }
    Ok(())
}

/// Does a deed of a command that takes no memory.
#[inline(always)]
fn do_plain(site: &Site, core: &mut Core, caller: u8, deed: &Deed)
    requires books { Books site.now.setup core.old }
    requires sound { HasSoundDevices site.now.setup core.old.tree.live core.old.tree.next }
    requires rows { HaveRows site.now.setup core.old.tree.live }
    requires caller { caller < length core.old.callers.items }
    requires low { (state_at core.old.callers.items caller).over < 2 ^ 32 - 1 }
    requires may { MayDo (world_at site.now core.old) caller deed.now }
    requires plain { is_plain deed.now ≡ true }
    ensures world { IsAfter site.now core.old caller deed.now core.new }
    ensures books { Books site.now.setup core.new }
{
    match *deed {
        Deed::Refuse(_) => finish(core, caller),
        Deed::Tell => finish(core, caller),
        Deed::Close { of } => close(core, caller, of),
        Deed::Start(ticket) => begin(core, caller, Activity::Transfer(ticket)),
        Deed::Done(_) => finish_transfer(core, caller),
        Deed::Detach { of } => detach(core, caller, of),
        Deed::BeginPower { kind, of } => begin_power(core, caller, kind, of),
        Deed::EndPower(_) => end_power(core, caller),
        Deed::Sleep { of } => rest(core, of, true),
        Deed::Wake { of } => rest(core, of, false),
        Deed::Plug { spot } => plug(core, caller, spot),
        Deed::Free { of } => free(site, core, caller, of),
        Deed::Drop { of } => give_back(core, caller, of),
        Deed::EndCaller => begin(core, caller, Activity::Ended),
        Deed::Open { .. } => unreachable!(),
        Deed::Rescan { .. } => unreachable!(),
        Deed::Unplug { .. } => unreachable!(),
        Deed::Search { .. } => unreachable!(),
        Deed::EndScan { .. } => unreachable!(),
        Deed::BeginInterrupts => unreachable!(),
        Deed::Finalise { .. } => unreachable!(),
    }
}

/// A rescan begins. At `Memory` all is as before.
fn rescan(
    site: &Site,
    core: &mut Core,
    caller: u8,
    of: u64,
    only: Option<u32>,
) -> Result<(), Memory>
    requires few { (a : ℕ) → length (shared.locators_at site.now.setup.tables.attrs (At a)) ≤ 16 }
    requires caller { caller < length core.old.callers.items }
    requires known { IfSome only (IsKnown site.now.setup (rule.given_by (next.command_of (world_at site.now core.old) caller))) }
    ensures ok { OnOk result (IsAfter site.now core.old caller (deeds.Rescan of only) core.new) }
    ensures err { OnErr result (world_at site.now core.new ≡ world_at site.now core.old) }
    ensures books { (s : from.Setup) → Books s core.old → Books s core.new }
{
    let filter = wanted_by(
        site.alloc,
        &site.setup,
        given_by(&site.setup, core, caller),
        only,
    )?;
    begin_scan(
        core,
        caller,
        Frame::Scan {
            serial: of,
            only,
            filter,
            position: Position {
                attr: 0,
                row: 0,
                spot: 0,
            },
        },
    )
}

/// Does a deed of a command that the caller chose. At `Memory` all is as before.
#[inline(always)]
pub fn do_command(site: &Site, core: &mut Core, caller: u8, deed: &Deed) -> Result<(), Memory>
    requires may { MayRun site.now.setup }
    requires books { Books site.now.setup core.old }
    requires kept { Kept (world_at site.now core.old) }
    requires caller { caller < length core.old.callers.items }
    requires chosen { next.next (world_at site.now core.old) caller ≡ Does deed.now }
    requires command { is_of_frame deed.now ≡ false }
    ensures ok { OnOk result (IsAfter site.now core.old caller deed.now core.new) }
    ensures err { OnErr result (world_at site.now core.new ≡ world_at site.now core.old) }
    ensures books { Books site.now.setup core.new }
{
    match *deed {
        Deed::Open { of, sole } => open(core, caller, of, sole),
        Deed::Rescan { of, only } => rescan(site, core, caller, of, only),
        Deed::Unplug { spot, of } => unplug(core, caller, spot, of),
        _ => {
            do_plain(site, core, caller, deed);
            Ok(())
        }
    }
}
