//! The due turn of a scan.
ghost use Rattle.std.specs.Prelude.{◌≡◌, ◌<◌, false, IfSome, length, slice_get};
ghost use Rattle.std.specs.Option.{option_map_or};
ghost use Rattle.std.specs.Ordering.{int_eq};
ghost use Rattle.run_rules.specs.World as world;
ghost use Rattle.run_rules.specs.Search as rule;
ghost use Rattle.next_deed.specs.Turns.{due_at, is_due_at, is_open_at, searcher_of};

use crate::looks::{is_absent, is_hidden};
use crate::next_due::{Scan, next_position};
use crate::search::winner_at;
use cf_types::Machine;
use match_search::found_at;
use run_rules::{ParentRef, Position, Turn, Wanted};
use run_world::{Going, attach_of, driver_of, is_occupied};
use scan_engine::{Children, Ground, Searched, next_turn};

/// Who searches: the driver, the attachment and the spot of a device, none of them for the root; and how rows name it.
#[derive(Clone, Copy)]
pub struct Searcher {
    pub driver: Option<u32>,
    pub attach: Option<u32>,
    pub spot: Option<u16>,
    pub parent: ParentRef,
}

/// The device of a serial as one that searches, or the root.
#[inline(always)]
pub fn who_searches(going: &Going, serial: u64) -> Searcher
    ensures { result ≡ searcher_of going.now.setup going.now.live serial }
{
    let setup = going.setup();
    match going.device(serial) {
        Some(d) => Searcher {
            driver: Some(driver_of(setup, d.row)),
            attach: Some(attach_of(setup, d.row)),
            spot: Some(d.spot),
            parent: ParentRef::Dev {
                device: driver_of(setup, d.row),
                unit: d.unit,
            },
        },
        None => Searcher {
            driver: None,
            attach: None,
            spot: None,
            parent: ParentRef::Root,
        },
    }
}

/// Whether a spot has the locator value that is wanted.
#[inline(always)]
fn has_value(found: &[i64], wanted: Wanted) -> bool
    ensures { result ≡ option_map_or (λ value. int_eq value wanted.value) (slice_get found.now wanted.place) false }
{
    match found.get(wanted.place as usize) {
        Some(value) => *value == wanted.value,
        None => false,
    }
}

/// Whether a spot has all locator values that are wanted. If none is wanted, the spot is not looked at.
#[inline(always)]
fn passes_filter(machine: &Machine, spot: u16, filter: &[Wanted]) -> bool
    ensures { result ≡ rule.passes_filter (rule.found_at machine.now spot) filter.now }
{
    filter
        .iter()
        .all(|wanted| has_value(found_at(machine, spot), *wanted))
}

/// Whether a spot is open to search.
#[tactic(auto, unfolding(run_rules::specs::Search::is_open))]
#[inline(always)]
pub fn is_open(going: &Going, filter: &[Wanted], spot: u16) -> bool
    ensures { is_open_at going.now filter.now spot ≡ result }
{
    let absent = is_absent(going, spot);
    let hidden = is_hidden(going, spot);
    let occupied = is_occupied(going.tree(), spot);
    let passes = passes_filter(&going.setup().machine, spot, filter);
    !absent && !hidden && !occupied && passes
}

#[inline(always)]
fn is_row(winner: Option<u32>, row: u32) -> bool
    ensures { result ≡ world.is_number winner row }
{
    match winner {
        Some(r) => r == row,
        None => false,
    }
}

/// Whether the turn's row is the winner at its spot.
#[inline(always)]
fn wins(going: &Going, serial: u64, turn: Turn) -> bool
    ensures { world.is_number (rule.winner_at going.now.setup going.now.live serial turn.place turn.at.spot) turn.at.row ≡ result }
{
    is_row(
        winner_at(going, serial, turn.place, turn.at.spot),
        turn.at.row,
    )
}

/// Whether a turn is due: its spot is open, and on an indirect bus its row is the winner there.
#[tactic(auto, unfolding(run_rules::specs::Search::is_due))]
#[inline(always)]
fn is_due(going: &Going, serial: u64, filter: &[Wanted], turn: Turn) -> bool
    ensures { is_due_at going.now serial filter.now turn ≡ result }
{
    is_open(going, filter, turn.at.spot) && (!turn.indirect || wins(going, serial, turn))
}

/// The first due turn of a scan from a position on. See autoconf(9).
#[inline(always)]
pub fn due_turn(
    going: &Going,
    serial: u64,
    by: &Searcher,
    only: Option<u32>,
    filter: &[Wanted],
    from: Position,
) -> Option<Turn>
    requires { by.now ≡ searcher_of going.now.setup going.now.live serial }
    ensures due { due_at going.now serial only filter.now from ≡ result }
    ensures spot { IfSome result (λ t. t.at.spot < length going.now.setup.machine.spots) }
{
    let held = &going.held;
    let site = &held.site;
    let ground = Ground {
        tables: &site.setup.tables,
        graph: &site.graph,
        machine: &site.setup.machine,
        styles: &site.styles,
    };
    let searched = Searched {
        device: by.driver,
        attach: by.attach,
        children: Children {
            spot: by.spot,
            span: site.spans.below(by.spot),
        },
    };
    let mut position = from;
    loop {
        let turn = next_turn(&ground, searched, only, position)?;
        if is_due(going, serial, filter, turn) {
            return Some(turn);
        }
        let scan = Scan {
            serial,
            parent: by.spot,
            filter,
        };
        position = next_position(going, &scan, turn);
    }
}
