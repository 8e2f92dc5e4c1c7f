//! Who can go on in a world, and of what kind it is by that.
ghost use Rattle.std.specs.Prelude.{◌≡◌, ◌≤◌, IfOk, MatchOption, length, false};
ghost use Rattle.run_rules.specs.declared.world.Setup.{Setup};
ghost use Rattle.run_rules.specs.World as world;
ghost use Rattle.run_sound.specs.Kept.{Kept};
ghost use Rattle.plain_world.specs.Plain.{world_of};
ghost use Rattle.plain_search.specs.Open.{Follows};
ghost use Rattle.progress_laws.specs.Still.{HaveAllEnded};
ghost use Rattle.every_order.specs.Kinds.{IsKind, goers, goes};

use cf_types::Memory;
use plain_choice::next;
use plain_search::Seeker;
use plain_world::{Plain, has_ended};
use run_rules::Choice;
use std::alloc::Global;

/// Of what kind a world is.
#[derive(Clone, Copy)]
pub enum Kind {
    /// All callers have ended.
    End,
    /// Nobody can go on, and some caller has not ended.
    Stuck,
    /// Somebody can go on.
    GoesOn,
}

/// Whether a caller can go on.
fn can_go(alloc: Global, seeker: &Seeker, plain: &Plain, caller: u8) -> Result<bool, Memory>
    requires kept { Kept (world_of seeker.now.rules.now plain.now) }
    requires follows { Follows seeker.now plain.now.live.devices }
    ensures { IfOk result (λ can. can ≡ goes (world_of seeker.now.rules.now plain.now) caller) }
{
    seeker.rules.stands();
    match next(alloc, seeker, plain, caller)? {
        Choice::Does(_) => Ok(true),
        _ => Ok(false),
    }
}

/// How many callers can go on.
pub fn goers_in(alloc: Global, seeker: &Seeker, plain: &Plain) -> Result<u64, Memory>
    requires kept { Kept (world_of seeker.now.rules.now plain.now) }
    requires follows { Follows seeker.now plain.now.live.devices }
    requires few { length plain.now.callers.items ≤ 17 }
    ensures counted { IfOk result (λ n. n ≡ goers (world_of seeker.now.rules.now plain.now)) }
    ensures few { IfOk result (λ n. n ≤ 17) }
{
    let mut count = 0;
    for caller in 0..plain.callers.len() as u8 {
        if can_go(alloc, seeker, plain, caller)? {
            count += 1;
        }
    }
    Ok(count)
}

/// The first caller that has not ended.
fn unended(plain: &Plain) -> Option<u8>
    requires few { length plain.now.callers.items ≤ 17 }
    ensures { (s : Setup) → MatchOption result (HaveAllEnded (world_of s plain.now)) (λ k. world.has_ended (world_of s plain.now) k ≡ false) }
{
    for caller in 0..plain.callers.len() as u8 {
        if !has_ended(&plain.callers, caller) {
            return Some(caller);
        }
    }
    None
}

/// Of what kind a world is in which this many callers can go on.
pub fn kind_of(plain: &Plain, count: u64) -> Kind
    requires few { length plain.now.callers.items ≤ 17 }
    ensures { (s : Setup) → count ≡ goers (world_of s plain.now) → IsKind (world_of s plain.now) result }
{
    if count > 0 {
        return Kind::GoesOn;
    }
    match unended(plain) {
        None => Kind::End,
        Some(_) => Kind::Stuck,
    }
}
