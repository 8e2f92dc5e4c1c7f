//! Acts that come again and again, kept with their texts.
ghost use Rattle.std.specs.Prelude.{◌≡◌, ℕ, IfOk, IfSome, IsTrue, None, Some};
ghost use Rattle.std.specs.List.{slice_index_or};
ghost use Rattle.run_rules.specs.Run as run;
ghost use Rattle.run_rules.specs.World as world;
ghost use Rattle.run_rules.specs.declared.event.Act.TheVariants as act;
ghost use Rattle.run_rules.specs.declared.world.Setup.{Setup};
ghost use Rattle.plain_event.specs.KnownAct.{act_by};
ghost use Rattle.plain_names.specs.Names.{name_live};
ghost use Rattle.plain_world.specs.Plain.{world_of};

use crate::act::{ActKey, Again, KnownAct};
use cf_types::Memory;
use dev_event::put_act;
use plain_world::{Live, Plain, device_at};
use run_rules::{Deed, SharedAct};
use std::alloc::Global;

/// How many bytes are enough for most texts.
const USUAL: usize = 48;

/// How many kinds of acts are kept of a spot.
const KINDS: usize = 3;

/// The most acts that are kept for this many spots.
pub fn places(spots: usize) -> usize {
    spots.min(u16::MAX as usize) * KINDS
}

/// Where the act of a key is kept, among those of this many spots. Acts of a kind are side by side, because spots are
/// searched one after the other.
#[inline(always)]
pub fn place_of(key: ActKey, spots: usize) -> usize {
    let kind = match key.again {
        Again::Nothing => 0,
        Again::Asleep => 1,
        Again::Awake => 2,
    };
    kind * spots.min(u16::MAX as usize) + key.spot as usize
}

/// What is kept at a place.
#[inline(always)]
pub fn kept_at(kept: &[Option<KnownAct>], place: usize) -> Option<&KnownAct>
    ensures { IfSome result (λ k. slice_index_or kept.now place None ≡ Some k.now) }
{
    match kept.get(place) {
        Some(Some(kept)) => Some(kept),
        _ => None,
    }
}

/// An act with its text.
pub fn with_text(alloc: Global, key: ActKey, act: &SharedAct) -> Result<KnownAct, Memory>
    ensures { IfOk result (λ k. (k.key ≡ key) × (k.act ≡ act.now)) }
{
    let mut text = Vec::with_capacity(alloc, USUAL)?;
    put_act(&mut text, act.get())?;
    Ok(KnownAct {
        key,
        act: act.clone()?,
        text,
    })
}

/// The key of a search below a parent that finds nothing.
#[inline(always)]
#[tactic(auto, unfolding(run_rules::specs::World::parent_name))]
fn search_key(live: &Live, parent: u64, spot: u16) -> Option<ActKey>
    ensures { IfSome result (λ key. (s : Setup) → act.Found (world.parent_name s live.now.devices parent) (run.spot_name s spot) None ≡ act_by s key) }
{
    match device_at(live, parent) {
        Some(device) => Some(ActKey {
            again: Again::Nothing,
            row: device.row,
            unit: device.unit,
            spot,
        }),
        None => None,
    }
}

/// The key of a device that falls asleep or wakes.
#[inline(always)]
fn power_key(live: &Live, of: u64, again: Again) -> Option<ActKey>
    ensures again { IfSome result (λ key. key.again ≡ again) }
    ensures name { IfSome result (λ key. (s : Setup) → world.unit_name s key.row key.unit ≡ name_live s live.now.devices of) }
{
    match device_at(live, of) {
        Some(device) => Some(ActKey {
            again,
            row: device.row,
            unit: device.unit,
            spot: device.spot,
        }),
        None => None,
    }
}

/// The key of the act of a deed, if it comes again and again.
#[inline(always)]
#[tactic(auto, unfolding(run_rules::specs::Run::printed))]
pub fn key_of(plain: &Plain, deed: &Deed) -> Option<ActKey>
    ensures { IfSome result (λ key. (s : Setup) (k : ℕ) → run.printed (world_of s plain.now) k deed.now ≡ act_by s key) }
{
    match *deed {
        Deed::Search {
            parent,
            spot,
            got: None,
            ..
        } => search_key(&plain.live, parent, spot),
        Deed::Sleep { of } => power_key(&plain.live, of, Again::Asleep),
        Deed::Wake { of } => power_key(&plain.live, of, Again::Awake),
        _ => None,
    }
}
