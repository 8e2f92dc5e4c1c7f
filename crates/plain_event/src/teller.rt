//! The maker of events, and what it keeps of earlier ones.
ghost use Rattle.std.specs.Prelude.{◌≡◌, IfOk, IfSome};
ghost use Rattle.run_rules.specs.declared.world.Setup.{Setup};
ghost use Rattle.plain_event.specs.KnownAct.{AreKept, IsKept, act_by};

use crate::act::{ActKey, KnownAct};
use crate::kept::{kept_at, place_of, places};
use crate::names::Names;
use cf_types::Memory;
use plain_world::Rules;
use std::alloc::Global;

/// What events are made from: the rules of a run, and the names and the acts of earlier events.
#[derive(Drop)]
pub struct Teller<'a> {
    pub alloc: Global,
    pub rules: &'a Rules<'a>,
    pub(crate) names: Names,
    kept: Vec<Option<KnownAct>>,
    ghost kept_so: { AreKept rules.now kept.items },
}

/// Room for this many acts.
fn room_for(alloc: Global, places: usize) -> Result<Vec<Option<KnownAct>>, Memory>
    ensures { (s : Setup) → IfOk result (λ kept. AreKept s kept.items) }
{
    let mut kept = Vec::with_capacity(alloc, places)?;
    for _place in 0..places {
        kept.push(None)?;
    }
    Ok(kept)
}

impl<'a> Teller<'a> {
    /// By these rules, with no names yet.
    pub fn make(alloc: Global, rules: &'a Rules<'a>) -> Result<Teller<'a>, Memory>
        ensures { IfOk result (λ teller. teller.rules.now ≡ rules.now) }
    {
        let names = Names::make(alloc)?;
        let kept = room_for(alloc, places(rules.machine.spots.len()))?;
        Ok(Teller {
            alloc,
            rules,
            names,
            kept,
        })
    }

    /// What is kept by a key.
    #[inline(always)]
    pub fn kept_by(&self, key: ActKey) -> Option<&KnownAct>
        ensures { IfSome result (λ k. k.now.act ≡ act_by self.now.rules.now key) }
    {
        let rules = self.rules;
        match kept_at(&self.kept, place_of(key, rules.machine.spots.len())) {
            Some(kept) => { if kept.key == key { Some(kept) } else { None } }
            None => None,
        }
    }

    /// Keeps an act, replacing the one that was kept at its place.
    pub fn put(&mut self, kept: KnownAct)
        requires { IsKept self.old.rules.now kept }
        ensures { self.new.rules.now ≡ self.old.rules.now }
    {
        let rules = self.rules;
        let place = place_of(kept.key, rules.machine.spots.len());
        if place < self.kept.len() {
            self.kept[place] = Some(kept);
        } else {
            drop(kept);
        }
    }
}
