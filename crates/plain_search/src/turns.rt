//! The due turn of a scan: on a direct bus by a look at each spot, on an indirect one by the row that takes each spot. See
//! autoconf(9).
ghost use Rattle.std.specs.Prelude.{◌≡◌, ◌≤◌, ◌<◌, ℕ, false, true, find, map, option_map, length, slice_get, nat_le};
ghost use Rattle.cf_types.specs.declared.tables.Place.TheVariants.{At};
ghost use Rattle.std.specs.Option.{option_map_or};
ghost use Rattle.std.specs.Ordering.{int_eq};
ghost use Rattle.run_rules.specs.Next as next;
ghost use Rattle.run_rules.specs.Search as rule;
ghost use Rattle.run_rules.specs.World as world;
ghost use Rattle.plain_search.specs.Buses.{IsOffered, IsOnlyAt, IsTurnOf, MaySearch, better, due_for, is_indirect_by, row_turns, taken_at, takes, takes_below, turn_on, turns_among, turns_on};
ghost use Rattle.run_rules.specs.Suits.{hangs_at};
ghost use Rattle.plain_search.specs.Open.{Follows};

use crate::matches::{arrival, named_by, parent_offers, winner};
use crate::seeker::Seeker;
use cf_types::Place;
use plain_world::{
    Plain, Rules, attach_of, device_at, driver_of, found_at, is_occupied, offered, same_place,
    stretch_at,
};
use run_rules::{Deed, Dev, ParentRef, Position, Turn, Wanted};

/// Whether a spot has the locator value that is wanted.
fn has_value(found: &[i64], wanted: Wanted) -> bool
    ensures { result ≡ option_map_or (λ value. int_eq value wanted.value) (slice_get found.now wanted.place) false }
{
    match found.get(wanted.place as usize) {
        Some(value) => *value == wanted.value,
        None => false,
    }
}

/// Whether a spot has all locator values that are wanted. If none is wanted, the spot is not looked at.
fn passes_filter(rules: &Rules, spot: u16, filter: &[Wanted]) -> bool
    ensures { result ≡ rule.passes_filter (rule.found_at rules.now.machine spot) filter.now }
{
    filter
        .iter()
        .all(|wanted| has_value(found_at(rules, spot), *wanted))
}

/// Whether a spot is open to search: present, not hidden, free, and with the locator values that are wanted.
#[inline(always)]
#[tactic(auto, unfolding(run_rules::specs::Search::is_open))]
pub fn is_open(rules: &Rules, plain: &Plain, filter: &[Wanted], spot: u16) -> bool
    ensures { result ≡ rule.is_open rules.now.machine plain.now.live.devices plain.now.absent plain.now.hidden filter.now spot }
{
    !plain.absent.has(spot)
        && !plain.hidden.has(spot)
        && !is_occupied(&plain.live, spot)
        && passes_filter(rules, spot, filter)
}

/// Whether a position is before another: by attribute, then row, then spot.
#[tactic(auto, unfolding(run_rules::specs::Search::is_before))]
fn is_before(a: Position, b: Position) -> bool
    ensures { result ≡ rule.is_before a b }
{
    a.attr < b.attr || (a.attr == b.attr && (a.row < b.row || (a.row == b.row && a.spot < b.spot)))
}

/// A scan that goes on: of which serial, the live device of that one, how rows name it, the locator values that its spots
/// have to have, and from where.
#[derive(Drop)]
struct Going<'a> {
    serial: u64,
    device: Option<Dev>,
    parent: ParentRef,
    filter: &'a [Wanted],
    from: Position,
}

/// Whether a spot is below another one, or below the root, at a place.
fn is_child(rules: &Rules, parent: Option<u16>, place: Place, spot: u16) -> bool
    ensures { result ≡ rule.is_child rules.now.machine parent place spot }
{
    match rules.machine.spots.items().get(spot as usize) {
        Some(spot) => spot.parent == parent && same_place(spot.place, place),
        None => false,
    }
}

/// A place that a scan goes through: its number among those places, the place, whether it is searched row by row, and
/// whether the device offers it.
#[derive(Clone, Copy)]
struct Bus {
    attr: u16,
    place: Place,
    indirect: bool,
    offered: bool,
}

/// The turn of a bus at a row and a spot.
fn turn_on(bus: Bus, row: u32, spot: u16) -> Turn
    ensures { result ≡ turn_on bus row spot }
{
    Turn {
        at: Position {
            attr: bus.attr,
            row,
            spot,
        },
        place: bus.place,
        indirect: bus.indirect,
    }
}

/// The spot from which the turns of a row are looked at: those of all spots before it are before the scan's position.
#[tactic(auto, using(crate::proofs::BusLaws::spot_before))]
fn first_spot(scan: &Going, bus: Bus, row: u32) -> u16
    ensures { (x : ℕ) → x < result → rule.is_before (turn_on bus row x).at scan.now.from ≡ true }
{
    if bus.attr != scan.from.attr {
        return 0;
    }
    if row == scan.from.row {
        scan.from.spot
    } else {
        0
    }
}

/// Whether a spot of a direct bus is the one that a scan takes, if none before it is.
#[inline(always)]
#[tactic(auto, unfolding(run_rules::specs::Search::is_due))]
fn is_next(rules: &Rules, plain: &Plain, scan: &Going, turn: Turn) -> bool
    requires { turn.indirect ≡ false }
    ensures { result ≡ takes rules.now plain.now scan.now turn }
{
    !is_before(turn.at, scan.from) && is_open(rules, plain, scan.filter, turn.at.spot)
}

/// The turn that a scan takes on a direct bus: spot by spot.
#[inline(always)]
fn direct_turn(
    rules: &Rules,
    plain: &Plain,
    scan: &Going,
    parent: Option<u16>,
    bus: Bus,
) -> Option<Turn>
    requires direct { bus.indirect ≡ false }
    ensures { find (takes rules.now plain.now scan.now) (map (turn_on bus 0) (rule.child_spots rules.now.machine parent bus.place)) ≡ result }
{
    let below = stretch_at(rules.stretches, parent);
    let end = below.end.min(rules.machine.spots.len() as u16);
    for spot in first_spot(scan, bus, 0).max(below.first)..end {
        let turn = turn_on(bus, 0, spot);
        if is_child(rules, parent, bus.place, spot) && is_next(rules, plain, scan, turn) {
            return Some(turn);
        }
    }
    None
}

/// The first row whose turns on a bus may not all be before the scan's position.
#[tactic(auto, using(crate::proofs::BusLaws::row_before))]
fn first_row(scan: &Going, bus: Bus) -> u32
    ensures { (r x : ℕ) → r < result → rule.is_before (turn_on bus r x).at scan.now.from ≡ true }
{
    if bus.attr == scan.from.attr {
        scan.from.row
    } else {
        0
    }
}

/// The turn that a scan takes at a spot of an indirect bus: that of the row that takes the spot.
#[inline(always)]
#[tactic(auto, unfolding(run_rules::specs::Search::is_due))]
fn spot_turn(seeker: &Seeker, plain: &Plain, scan: &Going, bus: Bus, spot: u16) -> Option<Turn>
    requires may { MaySearch seeker.now plain.now scan.now }
    requires offered { IsOffered seeker.now.rules.now scan.now bus }
    requires indirect { bus.indirect ≡ true }
    requires at { hangs_at seeker.now.rules.now.machine spot bus.place ≡ true }
    ensures { IsTurnOf seeker.now.rules.now plain.now scan.now bus spot result }
{
    if !is_open(seeker.rules, plain, scan.filter, spot) {
        return None;
    }
    let Some(row) = winner(seeker, bus.offered, scan.parent, bus.place, spot) else {
        return None;
    };
    let turn = turn_on(bus, row, spot);
    if is_before(turn.at, scan.from) {
        return None;
    }
    Some(turn)
}

/// The same, if the spot is below a parent at the place of the bus.
#[inline(always)]
fn child_turn(
    seeker: &Seeker,
    plain: &Plain,
    scan: &Going,
    parent: Option<u16>,
    bus: Bus,
    spot: u16,
) -> Option<Turn>
    requires may { MaySearch seeker.now plain.now scan.now }
    requires offered { IsOffered seeker.now.rules.now scan.now bus }
    requires indirect { bus.indirect ≡ true }
    ensures { IsOnlyAt (takes_below seeker.now.rules.now plain.now scan.now parent bus) (turn_on bus) (length seeker.now.rules.now.tables.rows) spot result }
{
    if !is_child(seeker.rules, parent, bus.place, spot) {
        return None;
    }
    spot_turn(seeker, plain, scan, bus, spot)
}

/// Whether a turn is of a row up to the least one.
fn is_of_least(turn: Option<Turn>, least: u32) -> bool
    ensures { result ≡ option_map_or (λ t. nat_le t.at.row least) turn false }
{
    match turn {
        Some(turn) => turn.at.row <= least,
        None => false,
    }
}

/// Of the best turn so far and that of a later spot the one of the earlier row.
fn better(best: Option<Turn>, turn: Option<Turn>) -> Option<Turn>
    ensures { result ≡ better best turn }
{
    match (best, turn) {
        (None, _) => turn,
        (Some(_), None) => best,
        (Some(b), Some(t)) => { if t.at.row < b.at.row { turn } else { best } }
    }
}

/// The turn that a scan takes on an indirect bus: row by row, and in each row spot by spot. One row takes each spot, so the
/// spot whose row is the earliest is looked for; a row before which none is left ends the search.
fn indirect_turn(
    seeker: &Seeker,
    plain: &Plain,
    scan: &Going,
    parent: Option<u16>,
    bus: Bus,
) -> Option<Turn>
    requires may { MaySearch seeker.now plain.now scan.now }
    requires offered { IsOffered seeker.now.rules.now scan.now bus }
    requires indirect { bus.indirect ≡ true }
    ensures { find (takes seeker.now.rules.now plain.now scan.now) (row_turns seeker.now.rules.now parent bus) ≡ result }
{
    let rules = seeker.rules;
    let least = first_row(scan, bus);
    let below = stretch_at(rules.stretches, parent);
    let end = below.end.min(rules.machine.spots.len() as u16);
    let mut best = None;
    for spot in below.first..end {
        let turn = child_turn(seeker, plain, scan, parent, bus, spot);
        if is_of_least(turn, least) {
            return turn;
        }
        best = better(best, turn);
    }
    best
}

/// The turn that a scan takes on a bus.
#[inline(always)]
fn bus_turn(
    seeker: &Seeker,
    plain: &Plain,
    scan: &Going,
    parent: Option<u16>,
    bus: Bus,
) -> Option<Turn>
    requires may { MaySearch seeker.now plain.now scan.now }
    requires offered { IsOffered seeker.now.rules.now scan.now bus }
    ensures { find (takes seeker.now.rules.now plain.now scan.now) (turns_on seeker.now.rules.now parent bus) ≡ result }
{
    if bus.indirect {
        indirect_turn(seeker, plain, scan, parent, bus)
    } else {
        direct_turn(seeker.rules, plain, scan, parent, bus)
    }
}

/// The last style line for an attachment and an attribute; direct without one.
fn is_indirect_by(seeker: &Seeker, attach: u32, attr: u32) -> bool
    ensures { result ≡ is_indirect_by seeker.now.rules.now.machine attach attr }
{
    seeker.styles.is_indirect(attach, attr)
}

/// Whether a device of this attachment searches a place row by row. See autoconf(9).
#[tactic(auto, unfolding(run_rules::specs::Search::is_bus_indirect))]
pub fn is_indirect(seeker: &Seeker, attach: Option<u32>, place: Place) -> bool
    ensures { result ≡ rule.is_bus_indirect seeker.now.rules.now.machine attach place }
{
    match (attach, place) {
        (_, Place::Root) => false,
        (None, Place::At(_)) => false,
        (Some(attach), Place::At(attr)) => is_indirect_by(seeker, attach, attr),
    }
}

/// The attachment of a device; none for the root.
fn attach_of_device(rules: &Rules, device: Option<Dev>) -> Option<u32>
    ensures { result ≡ option_map (λ d. world.attach_of rules.now d.row) device }
{
    match device {
        Some(device) => Some(attach_of(rules, device.row)),
        None => None,
    }
}

/// The spot of a device; none for the root.
fn spot_of_device(device: Option<Dev>) -> Option<u16>
    ensures { result ≡ option_map (λ d. d.spot) device }
{
    match device {
        Some(device) => Some(device.spot),
        None => None,
    }
}

/// The turn that a scan takes at a place of this number.
#[inline(always)]
fn place_turn(seeker: &Seeker, plain: &Plain, scan: &Going, attr: u16, place: Place) -> Option<Turn>
    requires { MaySearch seeker.now plain.now scan.now }
    ensures { taken_at seeker.now.rules.now plain.now scan.now attr place ≡ result }
{
    if attr < scan.from.attr {
        return None;
    }
    let attach = attach_of_device(seeker.rules, scan.device);
    let bus = Bus {
        attr,
        place,
        indirect: is_indirect(seeker, attach, place),
        offered: parent_offers(seeker.rules, scan.parent, place),
    };
    bus_turn(seeker, plain, scan, spot_of_device(scan.device), bus)
}

/// The turn that a scan takes at these attributes.
#[inline(always)]
fn turn_among(seeker: &Seeker, plain: &Plain, scan: &Going, attrs: &[u32]) -> Option<Turn>
    requires may { MaySearch seeker.now plain.now scan.now }
    requires few { length attrs.now ≤ 64 }
    ensures { find (takes seeker.now.rules.now plain.now scan.now) (turns_among seeker.now.rules.now plain.now scan.now.serial 0 attrs.now) ≡ result }
{
    for number in 0..attrs.len() as u16 {
        let place = Place::At(attrs[number as usize]);
        match place_turn(seeker, plain, scan, number, place) {
            Some(turn) => return Some(turn),
            None => {}
        }
    }
    None
}

/// The turn that a scan takes at all places that its device offers, or at the root.
#[inline(always)]
fn turn_of_all(seeker: &Seeker, plain: &Plain, scan: &Going) -> Option<Turn>
    requires may { MaySearch seeker.now plain.now scan.now }
    ensures { find (takes seeker.now.rules.now plain.now scan.now) (rule.turns seeker.now.rules.now plain.now.live.devices scan.now.serial None) ≡ result }
{
    seeker.rules.stands();
    match scan.device {
        Some(device) => {
            let offered = offered(seeker.rules, driver_of(seeker.rules, device.row));
            turn_among(seeker, plain, scan, offered)
        }
        None => place_turn(seeker, plain, scan, 0, Place::Root),
    }
}

/// The first due turn of a scan from a position on. See autoconf(9).
#[inline(always)]
#[tactic(auto, unfolding(run_rules::specs::Search::due))]
fn due_turn(seeker: &Seeker, plain: &Plain, scan: &Going, only: Option<u32>) -> Option<Turn>
    requires may { MaySearch seeker.now plain.now scan.now }
    ensures { due_for seeker.now.rules.now plain.now scan.now only ≡ result }
{
    match only {
        Some(attr) => turn_among(seeker, plain, scan, &[attr]),
        None => turn_of_all(seeker, plain, scan),
    }
}

/// The position after a turn: after it, or at the first pair of the same row.
#[tactic(auto, unfolding(run_rules::specs::Search::after_turn))]
fn after_turn(turn: Turn) -> Position
    requires { turn.at.spot < 1024 }
    ensures { result ≡ rule.after_turn turn }
{
    if turn.indirect {
        Position {
            attr: turn.at.attr,
            row: turn.at.row,
            spot: 0,
        }
    } else {
        Position {
            attr: turn.at.attr,
            row: 0,
            spot: turn.at.spot + 1,
        }
    }
}

/// What is done next on a scan.
#[inline(always)]
#[tactic(auto, unfolding(run_rules::specs::Next::next_scan))]
pub fn next_scan(
    seeker: &Seeker,
    plain: &Plain,
    serial: u64,
    only: Option<u32>,
    filter: &[Wanted],
    from: Position,
) -> Deed
    requires few { length plain.now.live.devices ≤ 1024 }
    requires follows { Follows seeker.now plain.now.live.devices }
    ensures { next.next_scan seeker.now.rules.now plain.now.live.devices plain.now.absent plain.now.hidden serial only filter.now from ≡ result }
{
    seeker.rules.stands();
    let device = device_at(&plain.live, serial);
    let scan = Going {
        serial,
        device,
        parent: named_by(seeker.rules, device),
        filter,
        from,
    };
    match due_turn(seeker, plain, &scan, only) {
        Some(turn) => Deed::Search {
            parent: serial,
            spot: turn.at.spot,
            moved: after_turn(turn),
            got: arrival(seeker, &plain.live, serial, turn.place, turn.at.spot),
        },
        None => Deed::EndScan { of: serial },
    }
}
