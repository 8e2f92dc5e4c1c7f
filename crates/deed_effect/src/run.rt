//! Deeds of a run that goes on.
ghost use Rattle.std.specs.Prelude.{◌≡◌, ◌<◌, ◌-◌, ◌^◌, IfErr, OnErr, OnOk};
ghost use Rattle.run_rules.specs.After.{after};
ghost use Rattle.run_rules.specs.Next.{next};
ghost use Rattle.run_rules.specs.declared.deed.Choice.TheVariants.{Does};
ghost use Rattle.run_rules.specs.declared.deed.Deed.TheVariants as deeds;
ghost use Rattle.run_sound.specs.Kept.{Kept, MayRun};
ghost use Rattle.run_world.specs.Sites.{world_at};
ghost use Rattle.run_world.specs.View.{Books};
ghost use Rattle.deed_effect.specs.Agreement.{slots_of};
ghost use Rattle.deed_effect.specs.Commits.{IsAfter};
ghost use Rattle.deed_effect.specs.SlotDeeds.{HaltIs};

use crate::effect;
use crate::room::reserve;
use crate::slots::{Halt, deed_in_room};
use cf_types::Ticket;
use ref_ledger::Slots;
use run_rules::Deed;
use run_world::{Core, Going, Site};

/// Makes room for a deed that the caller chose, and does it with its slots; or memory runs out, or callers hold the slot of
/// the device that is to be freed, and nothing changes except the denials.
#[inline(always)]
fn deed_with_room<S: Slots>(
    site: &Site,
    core: &mut Core,
    caller: u8,
    deed: &Deed,
    slots: &mut S,
) -> Result<(), Halt>
    requires may { MayRun site.now.setup }
    requires books { Books site.now.setup core.old }
    requires kept { Kept (world_at site.now core.old) }
    requires chosen { next (world_at site.now core.old) caller ≡ Does deed.now }
    requires agree { S.states slots.old ≡ slots_of (world_at site.now core.old) }
    requires next { core.old.tree.next < 2 ^ 64 - 1 }
    ensures done { OnOk result (IsAfter site.now core.old caller deed.now core.new) }
    ensures quiet { OnOk result ((S.denials slots.new ≡ S.denials slots.old) × (S.last_denial slots.new ≡ S.last_denial slots.old)) }
    ensures same { OnErr result (world_at site.now core.new ≡ world_at site.now core.old) }
    ensures halt { IfErr result (λ why. HaltIs core.old.tree.live deed.now
        (S.denials slots.old) (S.last_denial slots.old) why (S.denials slots.new) (S.last_denial slots.new)) }
    ensures agree { S.states slots.new ≡ slots_of (world_at site.now core.new) }
    ensures books { Books site.now.setup core.new }
{
    match reserve(core, caller, deed) {
        Ok(()) => deed_in_room(site, core, caller, deed, slots),
        Err(_) => Err(Halt::Memory),
    }
}

/// Does a deed that the caller chose, with its slots; or memory runs out, or callers hold the slot of the device that
/// is to be freed, and nothing changes except the denials.
#[inline(always)]
pub fn run_deed<S: Slots>(
    going: &mut Going,
    caller: u8,
    deed: &Deed,
    slots: &mut S,
) -> Result<(), Halt>
    requires chosen { next going.old caller ≡ Does deed.now }
    requires agree { S.states slots.old ≡ slots_of going.old }
    requires next { going.old.next < 2 ^ 64 - 1 }
    ensures done { OnOk result (going.new ≡ after going.old caller deed.now) }
    ensures quiet { OnOk result ((S.denials slots.new ≡ S.denials slots.old) × (S.last_denial slots.new ≡ S.last_denial slots.old)) }
    ensures same { OnErr result (going.new ≡ going.old) }
    ensures halt { IfErr result (λ why. HaltIs going.old.live deed.now
        (S.denials slots.old) (S.last_denial slots.old) why (S.denials slots.new) (S.last_denial slots.new)) }
    ensures agree { S.states slots.new ≡ slots_of going.new }
{
    let held = &mut going.held;
    let site = &held.site;
    let core = &mut held.core;
    deed_with_room(site, core, caller, deed, slots)
}

/// A transfer that its caller is in the middle of is over.
#[inline(always)]
pub fn finish_transfer(going: &mut Going, ticket: Ticket)
    requires { next going.old ticket.caller ≡ Does (deeds.Done ticket) }
    ensures { going.new ≡ after going.old ticket.caller (deeds.Done ticket) }
{
    let held = &mut going.held;
    let core = &mut held.core;
    effect::finish_transfer(core, ticket.caller);
}
