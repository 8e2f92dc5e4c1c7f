//! A turn of a caller.
ghost use Rattle.std.specs.Prelude.{◌≡◌, ◌<◌, ◌-◌, ◌^◌, IfOk};
ghost use Rattle.run_rules.specs.declared.deed.Choice.TheVariants.{Does};
ghost use Rattle.run_rules.specs.After as rule;
ghost use Rattle.run_rules.specs.Next as choices;
ghost use Rattle.run_sound.specs.Kept.{Kept};
ghost use Rattle.plain_world.specs.Plain.{world_of};
ghost use Rattle.plain_search.specs.Open.{Follows};
ghost use Rattle.every_order.specs.Search.{IsLeft};

use cf_types::Memory;
use plain_choice::next;
use plain_effect::apply;
use plain_search::Seeker;
use plain_world::{Plain, Rules, copied};
use run_rules::{Choice, Deed};
use std::alloc::Global;

/// The world after what a caller does next.
fn after(
    alloc: Global,
    rules: &Rules,
    plain: &Plain,
    caller: u8,
    deed: &Deed,
) -> Result<Plain, Memory>
    requires kept { Kept (world_of rules.now plain.now) }
    requires next { plain.now.live.next < 2 ^ 64 - 1 }
    requires due { choices.next (world_of rules.now plain.now) caller ≡ Does deed.now }
    ensures { IfOk result (λ left. world_of rules.now left ≡ rule.after (world_of rules.now plain.now) caller deed.now) }
{
    rules.stands();
    let mut left = copied(alloc, plain)?;
    apply(alloc, rules, &mut left, caller, deed)?;
    Ok(left)
}

/// The world that the turn of a caller leaves, if it can go on.
pub fn turn(
    alloc: Global,
    seeker: &Seeker,
    plain: &Plain,
    caller: u8,
) -> Result<Option<Plain>, Memory>
    requires kept { Kept (world_of seeker.now.rules.now plain.now) }
    requires follows { Follows seeker.now plain.now.live.devices }
    requires next { plain.now.live.next < 2 ^ 64 - 1 }
    ensures { IfOk result (IsLeft seeker.now.rules.now plain.now caller) }
{
    seeker.rules.stands();
    match next(alloc, seeker, plain, caller)? {
        Choice::Does(deed) => {
            let left = after(alloc, seeker.rules, plain, caller, &deed)?;
            Ok(Some(left))
        }
        _ => Ok(None),
    }
}
