//! The row that takes a spot: the best match of autoconf(9), the first open one of the rows that suit the spot.
ghost use Rattle.std.specs.Prelude.{◌≡◌, ◌≤◌, List, find, length, true};
ghost use Rattle.std.specs.Option.{option_map_or};
ghost use Rattle.cf_types.specs.Offers as offer;
ghost use Rattle.run_rules.specs.Next as next;
ghost use Rattle.run_rules.specs.Search as rule;
ghost use Rattle.run_rules.specs.World as world;
ghost use Rattle.run_rules.specs.declared.world.Dev.{Dev};
ghost use Rattle.run_rules.specs.declared.world.ParentRef.TheVariants as under;
ghost use Rattle.run_rules.specs.Suits.{hangs_at};
ghost use Rattle.plain_search.specs.Open.{Follows, open_by};

use crate::seeker::Seeker;
use crate::units::free_from;
use cf_types::{ParentSpec, Place};
use plain_world::{Live, Rules, device_at, driver_of, has, offered, row_at};
use run_rules::{Arrival, Dev, ParentRef};

/// How rows name the device that a search is below; the root, if there is none.
#[inline(always)]
pub fn named_by(rules: &Rules, device: Option<Dev>) -> ParentRef
    ensures { result ≡ option_map_or (λ d. under.Dev (world.driver_of rules.now d.row) d.unit) device under.Root }
{
    match device {
        Some(device) => ParentRef::Dev {
            device: driver_of(rules, device.row),
            unit: device.unit,
        },
        None => ParentRef::Root,
    }
}

/// The parent of a search.
fn parent_ref(rules: &Rules, live: &Live, serial: u64) -> ParentRef
    ensures { result ≡ rule.parent_ref rules.now live.now.devices serial }
{
    named_by(rules, device_at(live, serial))
}

fn names_parent(spec: Option<ParentSpec>, parent: ParentRef) -> bool
    ensures { result ≡ rule.names_parent spec parent }
{
    match (spec, parent) {
        (None, _) => true,
        (Some(_), ParentRef::Root) => false,
        (Some(spec), ParentRef::Dev { device, unit }) => {
            spec.device == device && spec.unit.is_none_or(|u| u == unit)
        }
    }
}

/// Whether a driver offers an attribute.
#[tactic(auto, unfolding(cf_types::specs::Offers::offers))]
fn offers(rules: &Rules, driver: u32, attr: u32) -> bool
    ensures { result ≡ offer.offers rules.now.tables.attrs rules.now.tables.devices driver attr }
{
    has(offered(rules, driver), attr)
}

/// Whether a parent offers a place.
pub fn parent_offers(rules: &Rules, parent: ParentRef, place: Place) -> bool
    ensures { result ≡ rule.parent_offers rules.now.tables parent place }
{
    match (parent, place) {
        (ParentRef::Root, Place::Root) => true,
        (ParentRef::Root, Place::At(_)) => false,
        (ParentRef::Dev { device: _, unit: _ }, Place::Root) => false,
        (ParentRef::Dev { device, unit: _ }, Place::At(attr)) => offers(rules, device, attr),
    }
}

/// Whether a row may still give a device, and names this parent or none.
#[inline(always)]
fn is_open(seeker: &Seeker, parent: ParentRef, row: u32) -> bool
    ensures { result ≡ open_by seeker.now.rules.now seeker.now.taken parent row }
{
    match row_at(seeker.rules, row) {
        Some(found) => (found.star || !seeker.taken.has(row)) && names_parent(found.parent, parent),
        None => false,
    }
}

/// The first of these rows that may still give a device and names this parent or none.
fn first_open(seeker: &Seeker, parent: ParentRef, rows: &[u32]) -> Option<u32>
    ensures { result ≡ find (open_by seeker.now.rules.now seeker.now.taken parent) rows.now }
{
    rows.iter()
        .copied()
        .find(|row| is_open(seeker, parent, *row))
}

/// The row that takes a spot below a parent: of the candidates the one of greatest match value, the earliest among equals. It is
/// the first open one of those that suit the spot, if the parent offers the place.
#[inline(always)]
pub fn winner(
    seeker: &Seeker,
    offers: bool,
    parent: ParentRef,
    place: Place,
    spot: u16,
) -> Option<u32>
    requires offers { offers ≡ rule.parent_offers seeker.now.rules.now.tables parent place }
    requires at { hangs_at seeker.now.rules.now.machine spot place ≡ true }
    ensures { (live : List Dev) → Follows seeker.now live → rule.winner seeker.now.rules.now live parent place spot ≡ result }
{
    if offers {
        first_open(seeker, parent, seeker.suited.rows(spot))
    } else {
        None
    }
}

/// The row that takes a spot below the device of a serial, or below the root.
fn winner_at(seeker: &Seeker, live: &Live, parent: u64, place: Place, spot: u16) -> Option<u32>
    requires follows { Follows seeker.now live.now.devices }
    requires at { hangs_at seeker.now.rules.now.machine spot place ≡ true }
    ensures { rule.winner_at seeker.now.rules.now live.now.devices parent place spot ≡ result }
{
    let above = parent_ref(seeker.rules, live, parent);
    let offers = parent_offers(seeker.rules, above, place);
    winner(seeker, offers, above, place, spot)
}

/// The unit that a row gives: its own, or, if it is starred, the least free one from its first unit on. That is its first unit if
/// no device has it.
#[tactic(auto, unfolding(run_rules::specs::Search::unit_of))]
fn unit_of(seeker: &Seeker, live: &Live, row: u32) -> u32
    requires few { length live.now.devices ≤ 1024 }
    requires follows { Follows seeker.now live.now.devices }
    ensures { result ≡ rule.unit_of seeker.now.rules.now live.now.devices row }
{
    seeker.rules.stands();
    match row_at(seeker.rules, row) {
        Some(found) => {
            if found.star && seeker.taken.has(row) {
                free_from(seeker.rules, live, found.device, found.unit)
            } else {
                found.unit
            }
        }
        None => 0,
    }
}

/// The device that is attached to a spot below a parent, if a row takes the spot.
#[tactic(auto, unfolding(run_rules::specs::Next::arrival))]
pub fn arrival(
    seeker: &Seeker,
    live: &Live,
    parent: u64,
    place: Place,
    spot: u16,
) -> Option<Arrival>
    requires few { length live.now.devices ≤ 1024 }
    requires follows { Follows seeker.now live.now.devices }
    requires at { hangs_at seeker.now.rules.now.machine spot place ≡ true }
    ensures { next.arrival seeker.now.rules.now live.now.devices parent place spot ≡ result }
{
    match winner_at(seeker, live, parent, place, spot) {
        Some(row) => Some(Arrival {
            row,
            unit: unit_of(seeker, live, row),
            parent,
            spot,
        }),
        None => None,
    }
}
