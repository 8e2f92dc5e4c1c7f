//! The search: the worlds that turns lead to from one, each with the turn by which it was met first. Worlds that fewer turns
//! lead to come first.
ghost use Rattle.std.specs.Prelude.{◌≡◌, ◌<◌, ◌≤◌, ◌+◌, ◌-◌, ◌^◌, IfOk, OnOk, length, option_map};
ghost use Rattle.run_sound.specs.Kept.{Kept};
ghost use Rattle.plain_world.specs.Plain.{world_of};
ghost use Rattle.every_order.specs.Search.{Follows, FollowsAll, FollowsAt, IsBeginning, IsKnown, IsWholeOrMore};

use crate::known::{Known, Met, meet};
use crate::turn::turn;
use cf_types::Memory;
use every_same::print_of;
use plain_search::Seeker;
use plain_world::Plain;
use std::alloc::Global;
use std::collections::HashMap;

/// Follows the turn of one caller from a world.
fn follow(
    alloc: Global,
    seeker: &Seeker,
    known: &mut Known,
    at: usize,
    caller: u8,
) -> Result<(), Memory>
    requires known { IsKnown seeker.now.rules.now known.old at }
    requires at { at < length known.old.met.items }
    requires few { length known.old.met.items < 2 ^ 62 }
    requires follows { FollowsAt seeker.now known.old.met.items at }
    ensures { OnOk result (Follows seeker.now.rules.now known.old at caller known.new) }
{
    seeker.rules.stands();
    let one = &known.met[at];
    let depth = one.depth + 1;
    match turn(alloc, seeker, &one.plain, caller)? {
        Some(plain) => meet(known, plain, at, caller, depth),
        None => Ok(()),
    }
}

/// Follows the turns of all callers from a world.
fn follow_all(alloc: Global, seeker: &Seeker, known: &mut Known, at: usize) -> Result<(), Memory>
    requires known { IsKnown seeker.now.rules.now known.old at }
    requires at { at < length known.old.met.items }
    requires few { length known.old.met.items < 2 ^ 61 }
    requires follows { FollowsAt seeker.now known.old.met.items at }
    ensures { OnOk result (FollowsAll seeker.now.rules.now known.old at known.new) }
{
    let rules = seeker.rules;
    for caller in 0..rules.scripts.len() as u8 + 1 {
        follow(alloc, seeker, known, at, caller)?;
    }
    Ok(())
}

/// Follows the turns of all callers from a world, with its devices counted anew.
fn follow_from(
    alloc: Global,
    seeker: &mut Seeker,
    known: &mut Known,
    at: usize,
) -> Result<(), Memory>
    requires known { IsKnown seeker.old.rules.now known.old at }
    requires at { at < length known.old.met.items }
    requires few { length known.old.met.items < 2 ^ 61 }
    ensures rules { seeker.new.rules.now ≡ seeker.old.rules.now }
    ensures followed { OnOk result (FollowsAll seeker.old.rules.now known.old at known.new) }
{
    seeker.rules.stands();
    seeker.recount(alloc, &known.met[at].plain.live)?;
    follow_all(alloc, seeker, known, at)
}

/// What is known where one world was met.
fn first_known(alloc: Global, start: Plain) -> Result<Known, Memory>
    ensures { IfOk result (IsBeginning start) }
{
    let print = print_of(&start);
    let mut heads = HashMap::new(alloc);
    heads.insert(print, 0)?;
    let mut met = Vec::new(alloc);
    met.push(Met {
        plain: start,
        from: 0,
        caller: 0,
        depth: 0,
        print,
        earlier: None,
    })?;
    Ok(Known { met, heads })
}

/// The worlds that turns lead to from one, or `None` if they are more than the bound.
pub fn worlds_from(
    alloc: Global,
    seeker: &mut Seeker,
    start: Plain,
    most: u32,
) -> Result<Option<Vec<Met>>, Memory>
    requires kept { Kept (world_of seeker.old.rules.now start) }
    requires low { start.live.next ≤ 2 ^ 63 }
    ensures rules { seeker.new.rules.now ≡ seeker.old.rules.now }
    ensures worlds { IfOk result (λ all. IsWholeOrMore seeker.old.rules.now (world_of seeker.old.rules.now start) most (option_map (λ v. v.items) all)) }
{
    let mut known = first_known(alloc, start)?;
    let mut at = 0;
    'worlds: loop {
        let count = known.met.len();
        if count > most as usize {
            return Ok(None);
        }
        if at == count {
            let Known { met, heads } = known;
            drop(heads);
            return Ok(Some(met));
        }
        follow_from(alloc, seeker, &mut known, at)?;
        at += 1;
    }
}
