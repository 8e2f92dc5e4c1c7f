//! The boot, turn by turn.
ghost use Rattle.std.specs.Prelude.{◌≡◌, ◌<◌, ◌-◌, ◌^◌, [], false, IfOk, OnOk};
ghost use Rattle.run_rules.specs.declared.deed.Choice.TheVariants.{Does};
ghost use Rattle.run_rules.specs.After as rule;
ghost use Rattle.run_rules.specs.Next as choices;
ghost use Rattle.run_rules.specs.World as world;
ghost use Rattle.run_sound.specs.Kept.{Kept};
ghost use Rattle.plain_search.specs.Open.{Follows};
ghost use Rattle.plain_world.specs.Plain.{world_of};
ghost use Rattle.boot_looks.specs.Looks.{AreBootLooks};

use crate::see::{no_looks, see};
use crate::visit::Look;
use cf_types::{List, Memory};
use plain_choice::next;
use plain_effect::apply;
use plain_search::Seeker;
use plain_world::{Plain, Rules, has_ended, opening};
use run_rules::{Choice, Deed};
use std::alloc::Global;

/// No boot has more events than can be counted so far.
pub const MOST_EVENTS: u64 = 4_611_686_018_427_387_904;

/// For each spot the last search of a boot that came to it, if one did; and the world in which the boot ends.
#[derive(Drop)]
pub struct BootLooks {
    pub looks: List<Option<Look>>,
    pub end: Plain,
}

/// What caller 0 does next, while it has not ended.
pub fn boot_deed(alloc: Global, seeker: &Seeker, plain: &Plain) -> Result<Deed, Memory>
    requires kept { Kept (world_of seeker.now.rules.now plain.now) }
    requires follows { Follows seeker.now plain.now.live.devices }
    requires goes_on { world.has_ended (world_of seeker.now.rules.now plain.now) 0 ≡ false }
    ensures { IfOk result (λ deed. choices.next (world_of seeker.now.rules.now plain.now) 0 ≡ Does deed) }
{
    seeker.rules.stands();
    match next(alloc, seeker, plain, 0)? {
        Choice::Does(deed) => Ok(deed),
        Choice::Waits(_) => unreachable!(),
        Choice::Ended => unreachable!(),
    }
}

/// Does what caller 0 does next.
pub fn boot_on(alloc: Global, rules: &Rules, plain: &mut Plain, deed: &Deed) -> Result<(), Memory>
    requires kept { Kept (world_of rules.now plain.old) }
    requires next { plain.old.live.next < 2 ^ 64 - 1 }
    requires due { choices.next (world_of rules.now plain.old) 0 ≡ Does deed.now }
    ensures { OnOk result (world_of rules.now plain.new ≡ rule.after (world_of rules.now plain.old) 0 deed.now) }
{
    apply(alloc, rules, plain, 0, deed)
}

/// The last searches that came to the spots from the opening world on, and the world in which the boot ends.
fn looks_from(alloc: Global, seeker: &mut Seeker, opening: Plain) -> Result<BootLooks, Memory>
    requires opens { world_of seeker.old.rules.now opening ≡ world.opening seeker.old.rules.now }
    requires follows { Follows seeker.old [] }
    ensures { IfOk result (AreBootLooks seeker.old.rules.now) }
{
    let rules = seeker.rules;
    rules.stands();
    let mut plain = opening;
    let mut looks = no_looks(alloc, rules.machine.spots.len())?;
    for _turn in 0..MOST_EVENTS {
        if has_ended(&plain.callers, 0) {
            let looks = List::from_vec(looks);
            return Ok(BootLooks { looks, end: plain });
        }
        let deed = boot_deed(alloc, seeker, &plain)?;
        see(alloc, seeker, &plain, &deed, &mut looks)?;
        seeker.heed(&plain.live, &deed);
        boot_on(alloc, seeker.rules, &mut plain, &deed)?;
    }
    Err(Memory)
}

/// Of each spot the last search of a boot by these rules that came to it, with the devices that were live then: the event in which
/// a device took the spot or none did, or the end of a search row by row that passed the open spot; and the world in which the boot
/// ends. It costs a boot, and a copy of the live devices for each event. See autoconf(9).
pub fn boot_looks(alloc: Global, rules: &Rules) -> Result<BootLooks, Memory>
    ensures { IfOk result (AreBootLooks rules.now) }
{
    let plain = opening(alloc, rules)?;
    let mut seeker = Seeker::make(alloc, rules)?;
    looks_from(alloc, &mut seeker, plain)
}
