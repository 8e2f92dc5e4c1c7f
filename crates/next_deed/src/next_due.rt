//! Where a scan goes on after a turn that is not due.
ghost use Rattle.std.specs.Prelude.{◌≡◌, ◌≤◌, ◌<◌, ℕ, true, false, IfSome};
ghost use Rattle.run_rules.specs.Search as rule;
ghost use Rattle.run_rules.specs.declared.world.Position as places;
ghost use Rattle.next_deed.specs.Pairs.{IsIdle, IsPassed, IsWhereDue};
ghost use Rattle.next_deed.specs.Turns.{is_open_at};

use crate::due::is_open;
use crate::looks::spot_count;
use crate::search::winner_at;
use cf_types::Place;
use run_rules::{Position, Turn, Wanted};
use run_world::{Going, is_occupied};
use scan_engine::is_child;

/// What a scan goes by: the device that it searches, the spot of that device, none for the root, and the locator values
/// that are wanted.
#[derive(Clone, Copy)]
pub struct Scan<'a> {
    pub serial: u64,
    pub parent: Option<u16>,
    pub filter: &'a [Wanted],
}

/// Whether a position is before another: by attribute, then row, then spot.
#[tactic(auto, unfolding(run_rules::specs::Search::is_before))]
#[inline(always)]
fn is_before(a: Position, b: Position) -> bool
    ensures { result ≡ rule.is_before a b }
{
    a.attr < b.attr || (a.attr == b.attr && (a.row < b.row || (a.row == b.row && a.spot < b.spot)))
}

/// The sooner of two positions; the second one counts only if it is there and after a third.
#[tactic(auto, unfolding(run_rules::specs::Search::is_before))]
#[inline(always)]
fn sooner(behind: Position, next: Position, found: Option<Position>) -> Position
    ensures behind { rule.is_before behind next ≡ true → rule.is_before behind result ≡ true }
    ensures sooner { (p : places.Position) → rule.is_before p result ≡ true → rule.is_before p next ≡ true }
    ensures found { IfSome found (λ p. rule.is_before behind p ≡ true → rule.is_before p result ≡ false) }
{
    match found {
        Some(position) => {
            if is_before(behind, position) && is_before(position, next) {
                position
            } else {
                next
            }
        }
        None => next,
    }
}

/// Where a spot is due on the bus of a turn: at the row that takes it, if it is open.
#[tactic(auto, unfolding(run_rules::specs::Search::is_due))]
fn due_position(going: &Going, scan: &Scan<'_>, turn: Turn, spot: u16) -> Option<Position>
    ensures place { IfSome result (λ p. (p.attr ≡ turn.at.attr) × (p.spot ≡ spot)) }
    ensures due { IsWhereDue going.now scan.now.serial scan.now.filter.now scan.now.parent turn spot result }
{
    if !is_child(&going.setup().machine, scan.parent, turn.place, spot)
        || !is_open(going, scan.filter, spot)
    {
        return None;
    }
    let row = winner_at(going, scan.serial, turn.place, spot)?;
    Some(Position {
        attr: turn.at.attr,
        row,
        spot,
    })
}

/// Where a search of an indirect bus goes on: at the first pair of an open spot and the row that takes it, so that rows
/// that take nothing are skipped.
#[inline(never)]
fn next_pair(going: &Going, scan: &Scan<'_>, turn: Turn) -> Position
    requires attr { turn.at.attr < 64 }
    requires indirect { turn.indirect ≡ true }
    ensures behind { rule.is_before turn.at result ≡ true }
    ensures bus { (p : places.Position) → rule.is_before p result ≡ true → p.attr ≤ turn.at.attr }
    ensures idle { IsIdle going.now scan.now.serial scan.now.filter.now scan.now.parent turn result }
{
    let mut next = Position {
        attr: turn.at.attr + 1,
        row: 0,
        spot: 0,
    };
    for spot in 0..spot_count(going) {
        let found = due_position(going, scan, turn, spot);
        next = sooner(turn.at, next, found);
    }
    next
}

/// Whether a search passes a spot: it is not open, or is not on this bus.
#[tactic(auto, unfolding(run_rules::specs::Search::is_open))]
#[inline(always)]
fn is_passed(going: &Going, scan: &Scan<'_>, place: Place, spot: u16) -> bool
    ensures { result ≡ true → rule.is_child going.now.setup.machine scan.now.parent place spot ≡ true
        → is_open_at going.now scan.now.filter.now spot ≡ false }
{
    is_occupied(going.tree(), spot)
        || !is_child(&going.setup().machine, scan.parent, place, spot)
        || !is_open(going, scan.filter, spot)
}

/// The first spot from a number on that a search of this bus does not pass; after all spots if there is none.
#[inline(always)]
fn next_open(going: &Going, scan: &Scan<'_>, place: Place, from: u16) -> u16
    ensures behind { from ≤ result }
    ensures passed { (x : ℕ) → from ≤ x → x < result → IsPassed going.now scan.now.filter.now scan.now.parent place x }
{
    let count = spot_count(going);
    for spot in from..count {
        if !is_passed(going, scan, place, spot) {
            return spot;
        }
    }
    from.max(count)
}

/// Where a search of a direct bus goes on: at its next open spot.
#[inline(never)]
fn next_on_bus(going: &Going, scan: &Scan<'_>, turn: Turn) -> Position
    requires spot { turn.at.spot < 1024 }
    ensures here { (result.attr ≡ turn.at.attr) × (result.row ≡ turn.at.row) }
    ensures behind { turn.at.spot < result.spot }
    ensures passed { (x : ℕ) → turn.at.spot < x → x < result.spot → IsPassed going.now scan.now.filter.now scan.now.parent turn.place x }
{
    let from = turn.at.spot + 1;
    Position {
        attr: turn.at.attr,
        row: turn.at.row,
        spot: next_open(going, scan, turn.place, from),
    }
}

/// Where a search goes on after a turn that is not due: no turn that is due is between.
#[inline(always)]
pub fn next_position(going: &Going, scan: &Scan<'_>, turn: Turn) -> Position
    requires attr { turn.at.attr < 64 }
    requires spot { turn.at.spot < 1024 }
    ensures behind { rule.is_before turn.at result ≡ true }
    ensures bus { (p : places.Position) → rule.is_before p result ≡ true → p.attr ≤ turn.at.attr }
    ensures idle { IsIdle going.now scan.now.serial scan.now.filter.now scan.now.parent turn result }
{
    if turn.indirect {
        next_pair(going, scan, turn)
    } else {
        next_on_bus(going, scan, turn)
    }
}
