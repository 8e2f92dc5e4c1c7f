//! Of each device the first of its spots at each place, so that no look-up goes over many attachments or places.
ghost use Rattle.std.specs.Prelude.{◌≡◌, ◌+◌, [], ◌++◌, ◌∷◌, List, map, IfOk, IfSome, OnOk};
ghost use Rattle.cf_names.specs.Spots.{AreSpots, Notes, Spot, all_spots, first_spot, is_at, spot_at, spots_at};

use cf_types::{Attach, Memory, Place};
use std::alloc::Global;
use std::collections::HashMap;

/// How many attachments of a device, and how many places of each, a look-up goes through one by one.
pub const MAX_SCANNED: usize = 8;

/// A device with a place of one of its attachments.
#[derive(Clone, Copy, PartialEq, Eq, Hash)]
pub struct SpotKey {
    pub device: u32,
    pub place: Place,
}

/// The first spot of a device at a place: how many spots of all devices come before it, its attachment and its place.
#[derive(Clone, Copy)]
pub struct FirstSpot {
    pub rank: usize,
    pub attach: u32,
    pub place: Place,
}

/// The first spots, and how many spots there are.
#[derive(Drop)]
pub struct Spots {
    pub first: HashMap<SpotKey, FirstSpot>,
    pub count: usize,
}

/// Notes a spot, unless its device has one at this place already.
fn note(
    first: &mut HashMap<SpotKey, FirstSpot>,
    key: SpotKey,
    spot: FirstSpot,
) -> Result<(), Memory>
    ensures { OnOk result (Notes key spot first.old first.new) }
{
    first.entry(key)?.or_insert(spot);
    Ok(())
}

/// Adds a spot of the attachment of this number.
fn add_spot(spots: &mut Spots, key: SpotKey, attach: u32) -> Result<(), Memory>
    ensures { OnOk result ((all : List Spot) → AreSpots spots.old all → AreSpots spots.new (all ++ record { key = key; attach = attach } ∷ [])) }
{
    let rank = spots.count;
    let Some(next) = rank.checked_add(1) else {
        return Err(Memory);
    };
    let spot = FirstSpot {
        rank,
        attach,
        place: key.place,
    };
    note(&mut spots.first, key, spot)?;
    spots.count = next;
    Ok(())
}

impl Spots {
    /// No spot. It takes no memory.
    pub fn make(alloc: Global) -> Spots
        ensures { AreSpots result [] }
    {
        Spots {
            first: HashMap::new(alloc),
            count: 0,
        }
    }

    /// Adds the spots of the attachment of this number.
    pub fn add(&mut self, device: u32, places: &[Place], attach: u32) -> Result<(), Memory>
        ensures { OnOk result ((all : List Spot) → AreSpots self.old all → AreSpots self.new (all ++ map (spot_at device attach) places.now)) }
    {
        for &place in places {
            add_spot(self, SpotKey { device, place }, attach)?;
        }
        Ok(())
    }
    /// Adds the spots of an attachment, which has this number.
    pub fn add_attach(&mut self, attach: &Attach, number: usize) -> Result<(), Memory>
        ensures { OnOk result ((all : List Spot) → AreSpots self.old all → AreSpots self.new (all ++ spots_at (number, attach.now))) }
    {
        let Ok(short) = u32::try_from(number) else {
            return Err(Memory);
        };
        self.add(attach.device, attach.places.items(), short)
    }

    /// The spots of all these attachments.
    pub fn of(alloc: Global, attaches: &[Attach]) -> Result<Spots, Memory>
        ensures { IfOk result (λ spots. AreSpots spots (all_spots attaches.now)) }
    {
        let mut spots = Spots::make(alloc);
        for (number, attach) in attaches.iter().enumerate() {
            spots.add_attach(attach, number)?;
        }
        Ok(spots)
    }

    /// The first spot of a device at a place, in the order of attachments, then of places.
    pub fn first_at(&self, key: SpotKey) -> Option<FirstSpot>
        ensures { (all : List Spot) → AreSpots self.now all → result ≡ first_spot (is_at key) all }
    {
        self.first.get(&key).copied()
    }
}

/// Notes the spots of these attachments, if there are many and none are noted.
fn begin_noting(
    alloc: Global,
    noted: &mut Option<Spots>,
    attaches: &[Attach],
    many: bool,
) -> Result<(), Memory>
    requires { IfSome noted.old (λ spots. AreSpots spots (all_spots attaches.now)) }
    ensures { OnOk result (IfSome noted.new (λ spots. AreSpots spots (all_spots attaches.now))) }
{
    if many && noted.is_none() {
        *noted = Some(Spots::of(alloc, attaches)?);
    }
    Ok(())
}

/// Notes the spots of one more attachment, if those of the earlier ones are noted.
fn note_more(noted: &mut Option<Spots>, attaches: &[Attach], attach: &Attach) -> Result<(), Memory>
    requires { IfSome noted.old (λ spots. AreSpots spots (all_spots attaches.now)) }
    ensures { OnOk result (IfSome noted.new (λ spots. AreSpots spots (all_spots (attaches.now ++ attach.now ∷ [])))) }
{
    match noted {
        Some(spots) => {
            spots.add_attach(attach, attaches.len())?;
            Ok(())
        }
        None => Ok(()),
    }
}

/// Notes the spots of one more attachment after the earlier ones. Nothing is noted until there are many.
pub fn note_spots(
    alloc: Global,
    noted: &mut Option<Spots>,
    attaches: &[Attach],
    attach: &Attach,
    many: bool,
) -> Result<(), Memory>
    requires { IfSome noted.old (λ spots. AreSpots spots (all_spots attaches.now)) }
    ensures { OnOk result (IfSome noted.new (λ spots. AreSpots spots (all_spots (attaches.now ++ attach.now ∷ [])))) }
{
    begin_noting(alloc, noted, attaches, many)?;
    note_more(noted, attaches, attach)
}
