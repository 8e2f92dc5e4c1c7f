//! What is told of the rows at a spot.
ghost use Rattle.std.specs.Prelude.{◌≡◌, ◌==◌, ◌&&◌, find, nat_lt, true, IfOk};
ghost use Rattle.std.specs.List.{list_any};
ghost use Rattle.std.specs.Option.{option_map_or};
ghost use Rattle.run_rules.specs.Search as rule;
ghost use Rattle.run_rules.specs.World as world;
ghost use Rattle.match_reasons.specs.Reasons.{beaten, could_stand, has_attachment, kept_off, reason, reason_of, spot_place, told_of, unit_taken};
ghost use Rattle.match_reasons.specs.Searches.{HasOffers, IsSearchAt, IsSearchOf, parent_by};

use crate::locators::missed_at;
use crate::matches::match_value;
use crate::reason::{Reason, RowReason};
use cf_types::{List, Memory, ParentSpec, Place, Row};
use locator_rules::locators_at;
use plain_world::{
    Live, Rules, attach_of, device_at, driver_of, found_at, has, offered, place_of, row_at,
    same_place,
};
use run_rules::Dev;
use std::alloc::Global;

/// What is told of a spot: each row of a device that has an attachment at its place, with the reason why it does not take
/// the spot, and how many rows are of other devices.
#[derive(Drop)]
pub struct Told {
    pub rows: List<RowReason>,
    pub others: u32,
}

/// A search: the device below which it goes, none for the root; whether that offers the place; the place, the spot, and the
/// row that takes it.
#[derive(Clone, Copy)]
pub struct Search {
    pub parent: Option<Dev>,
    pub offers: bool,
    pub place: Place,
    pub spot: u16,
    pub winner: Option<u32>,
}

/// Whether a device, or the root, offers a place.
#[tactic(auto, unfolding(cf_types::specs::Offers::offers))]
fn offers(rules: &Rules, parent: Option<Dev>, place: Place) -> bool
    ensures { result ≡ rule.parent_offers rules.now.tables (parent_by rules.now parent) place }
{
    match (parent, place) {
        (None, Place::Root) => true,
        (Some(device), Place::At(attr)) => {
            has(offered(rules, driver_of(rules, device.row)), attr)
        }
        _ => false,
    }
}

/// Whether a row names this device as its parent, or names none.
fn names(rules: &Rules, spec: Option<ParentSpec>, parent: Option<Dev>) -> bool
    ensures { result ≡ rule.names_parent spec (parent_by rules.now parent) }
{
    match (spec, parent) {
        (None, _) => true,
        (Some(_), None) => false,
        (Some(spec), Some(device)) => {
            spec.device == driver_of(rules, device.row)
                && spec.unit.is_none_or(|unit| unit == device.unit)
        }
    }
}

/// Whether a row fits the parent and the place of a search.
fn fits(rules: &Rules, search: Search, row: &Row) -> bool
    requires { HasOffers rules.now search }
    ensures { result ≡ rule.fits rules.now.tables (parent_by rules.now search.parent) search.place row.now }
{
    same_place(row.place, search.place) && search.offers && names(rules, row.parent, search.parent)
}

/// The first live device that has the driver and the unit of a row.
fn taker(rules: &Rules, live: &Live, row: &Row) -> Option<Dev>
    ensures { result ≡ find (λ d. world.driver_of rules.now d.row == row.now.device && d.unit == row.now.unit) live.now.devices }
{
    // (the unit first, since few devices have it)
    live.devices().iter().copied().find(|device| device.unit == row.unit
        && driver_of(rules, device.row) == row.device)
}

/// The live device that has the one unit of a row.
fn unit_taken(rules: &Rules, live: &Live, row: &Row) -> Option<Reason>
    ensures { result ≡ unit_taken rules.now live.now.devices row.now }
{
    if row.star {
        return None;
    }
    match taker(rules, live, row) {
        Some(device) => Some(Reason::Taken(device.serial)),
        None => None,
    }
}

/// The row that takes the spot, if it is another one.
fn beaten(winner: Option<u32>, row: u32) -> Option<Reason>
    ensures { result ≡ beaten winner row }
{
    match winner {
        Some(best) if best != row => Some(Reason::Beaten(best)),
        _ => None,
    }
}

/// Why a row is no candidate for the spot of a search.
fn kept_off(rules: &Rules, live: &Live, search: Search, row: &Row) -> Option<Reason>
    requires offers { HasOffers rules.now search }
    ensures { result ≡ kept_off rules.now live.now.devices (parent_by rules.now search.parent) search.place search.spot row.now }
{
    if !fits(rules, search, row) {
        return Some(Reason::Parent);
    }
    let locators = locators_at(rules.tables, search.place);
    if let Some(place) = missed_at(locators, row.locs.items(), found_at(rules, search.spot)) {
        return Some(Reason::Locator(place));
    }
    if match_value(rules.machine, row.attach, search.spot) == 0 {
        return Some(Reason::NoMatch);
    }
    unit_taken(rules, live, row)
}

/// Whether the row of a number is a candidate for the spot of a search.
fn is_candidate(rules: &Rules, live: &Live, search: Search, number: u32) -> bool
    requires offers { HasOffers rules.now search }
    ensures { result ≡ rule.is_candidate rules.now live.now.devices (parent_by rules.now search.parent) search.place search.spot number }
{
    match row_at(rules, number) {
        Some(row) => kept_off(rules, live, search, row).is_none(),
        None => false,
    }
}

/// The match value of the row of a number at a spot.
fn value_of(rules: &Rules, number: u32, spot: u16) -> u32
    ensures { result ≡ rule.value_of rules.now number spot }
{
    match_value(rules.machine, attach_of(rules, number), spot)
}

/// Whether a row has a greater match value than the best so far.
fn is_above(rules: &Rules, number: u32, best: Option<u32>, spot: u16) -> bool
    ensures { result ≡ option_map_or (λ b. nat_lt (rule.value_of rules.now b spot) (rule.value_of rules.now number spot)) best true }
{
    match best {
        Some(best) => value_of(rules, best, spot) < value_of(rules, number, spot),
        None => true,
    }
}

/// The row that takes the spot of a search.
fn winner(rules: &Rules, live: &Live, search: Search) -> Option<u32>
    requires offers { HasOffers rules.now search }
    ensures { rule.winner rules.now live.now.devices (parent_by rules.now search.parent) search.place search.spot ≡ result }
{
    let mut best = None;
    for row in 0..rules.tables.rows.len() as u32 {
        if is_candidate(rules, live, search, row) && is_above(rules, row, best, search.spot) {
            best = Some(row);
        }
    }
    best
}

/// Why a row does not take the spot of a search.
fn reason_of(rules: &Rules, live: &Live, search: Search, number: u32, row: &Row) -> Option<Reason>
    requires search { IsSearchOf rules.now live.now.devices search }
    ensures { result ≡ reason_of rules.now live.now.devices (parent_by rules.now search.parent) search.place search.spot number row.now }
{
    match kept_off(rules, live, search, row) {
        Some(reason) => Some(reason),
        None => beaten(search.winner, number),
    }
}

/// The search of a spot below a device, or below the root, with no row that takes the spot.
fn search_below(rules: &Rules, parent: Option<Dev>, spot: u16) -> Search
    ensures offers { HasOffers rules.now result }
    ensures parent { result.parent ≡ parent }
    ensures place { result.place ≡ spot_place rules.now.machine spot }
    ensures spot { result.spot ≡ spot }
{
    let place = place_of(rules, spot);
    Search {
        parent,
        offers: offers(rules, parent, place),
        place,
        spot,
        winner: None,
    }
}

/// The search of a spot below the device of a serial, or below the root. See autoconf(9).
pub fn search_of(rules: &Rules, live: &Live, parent: u64, spot: u16) -> Search
    ensures { IsSearchAt rules.now live.now.devices parent spot result }
{
    let mut search = search_below(rules, device_at(live, parent), spot);
    search.winner = winner(rules, live, search);
    search
}

/// Why the row of a number does not take the spot of a search; the row that takes it has no reason.
#[tactic(auto, unfolding(crate::specs::Reasons::reason))]
pub fn reason_at(rules: &Rules, live: &Live, search: Search, number: u32) -> Option<Reason>
    requires search { IsSearchOf rules.now live.now.devices search }
    ensures { result ≡ reason rules.now live.now.devices (parent_by rules.now search.parent) search.place search.spot number }
{
    match row_at(rules, number) {
        Some(row) => reason_of(rules, live, search, number, row),
        None => None,
    }
}

/// Whether a list has a place.
fn has_place(places: &[Place], place: Place) -> bool
    ensures { result ≡ list_any (λ q. world.same_place q place) places.now }
{
    places.iter().any(|other| same_place(*other, place))
}

/// Whether a device has an attachment at a place.
fn has_attachment(rules: &Rules, place: Place, device: u32) -> bool
    ensures { result ≡ has_attachment rules.now.tables place device }
{
    let attaches = rules.tables.attaches.items();
    attaches.iter().any(|attach| attach.device == device && has_place(attach.places.items(), place))
}

/// Whether the device of a row has an attachment at a place.
fn could_stand(rules: &Rules, place: Place, number: u32) -> bool
    ensures { result ≡ could_stand rules.now.tables place number }
{
    match row_at(rules, number) {
        Some(row) => has_attachment(rules, place, row.device),
        None => false,
    }
}

/// Why each row does not take a spot, at a search below the device of a serial, or below the root: of the rows whose
/// device has an attachment at the place of the spot. The row that takes the spot has no reason. See autoconf(9).
#[tactic(auto, unfolding(crate::specs::Reasons::told_of))]
pub fn told_of(
    alloc: Global,
    rules: &Rules,
    live: &Live,
    parent: u64,
    spot: u16,
) -> Result<Told, Memory>
    ensures { IfOk result (λ told. told ≡ told_of rules.now live.now.devices parent spot) }
{
    let search = search_of(rules, live, parent, spot);
    let mut rows = List::make(alloc);
    let mut others = 0;
    for row in 0..rules.tables.rows.len() as u32 {
        if could_stand(rules, search.place, row) {
            let reason = reason_at(rules, live, search, row);
            rows.push(RowReason { row, reason })?;
        } else {
            others += 1;
        }
    }
    Ok(Told { rows, others })
}
