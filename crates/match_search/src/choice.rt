//! The best row for a spot.
ghost use Rattle.std.specs.Prelude.{◌≡◌, ◌≤◌, ℕ, List, [], find, length, nat_lt, slice_index_or, true};
ghost use Rattle.std.specs.Option.{option_map_or};
ghost use Rattle.run_rules.specs.declared.world.Dev.{Dev};
ghost use Rattle.run_rules.specs.declared.world.Setup.{Setup};
ghost use Rattle.run_rules.specs.Search as rule;
ghost use Rattle.attr_graph.specs.Graphs.{IsGraphOf, declared_by};
ghost use Rattle.match_search.specs.Best.{best_row, live_rows, may_take};
ghost use Rattle.run_rules.specs.Suits.{hangs_at, worth};
ghost use Rattle.match_search.specs.Index as listed;
ghost use Rattle.match_search.specs.Index.{IsIndexOf};
ghost use Rattle.match_search.specs.Leaders.{AreLeadersOf};

use crate::fits::{attr_at, fits, found_or, names_parent, parent_offers, passes, same_place};
use crate::index::RowIndex;
use crate::leaders::Leaders;
use crate::live::LiveRows;
use crate::value::match_value;
use attr_graph::Graph;
use cf_types::{Locs, Machine, Place, Tables};
use run_rules::ParentRef;

/// The rows of tables with their graph, on a machine, each marked as live or not.
#[derive(Clone, Copy)]
pub struct Rows<'a> {
    pub tables: &'a Tables,
    pub graph: &'a Graph,
    pub machine: &'a Machine,
    pub live: &'a LiveRows,
}

/// A spot for which a row is sought, below a parent at a place.
#[derive(Clone, Copy)]
pub struct Sought {
    pub parent: ParentRef,
    pub place: Place,
    pub spot: u16,
}

/// Whether a row is marked live, fits, passes submatch and has a match value above 0.
fn takes(among: &Rows<'_>, at: Sought, row: u32) -> bool
    requires graph { IsGraphOf (declared_by among.now.tables.now) among.now.graph.now }
    ensures { result ≡ may_take among.now.tables.now among.now.machine.now among.now.live.now at.parent at.place at.spot row }
{
    match among.tables.rows.items().get(row as usize) {
        Some(r) => {
            among.live.is_live(row)
                && fits(among.graph, among.tables, at.parent, at.place, r)
                && passes(
                    attr_at(among.tables, at.place),
                    r,
                    found_or(among.machine, at.spot, &Locs::make()),
                )
                && match_value(among.machine, r.attach, at.spot) > 0
        }
        None => false,
    }
}

/// The match value of a row's attachment at a spot.
fn worth_of(tables: &Tables, machine: &Machine, row: u32, spot: u16) -> u32
    ensures { result ≡ worth tables.now machine.now row spot }
{
    let attach = match tables.rows.items().get(row as usize) {
        Some(r) => r.attach,
        None => 0,
    };
    match_value(machine, attach, spot)
}

/// Whether a row has a greater match value than the best so far.
fn is_above(tables: &Tables, machine: &Machine, row: u32, best: Option<u32>, spot: u16) -> bool
    ensures { result ≡ option_map_or (λ b. nat_lt (worth tables.now machine.now b spot) (worth tables.now machine.now row spot)) best true }
{
    match best {
        Some(b) => worth_of(tables, machine, b, spot) < worth_of(tables, machine, row, spot),
        None => true,
    }
}

/// The best row for a spot, found by a look at each row of the tables.
#[inline(never)]
fn best_of_all(among: &Rows<'_>, at: Sought) -> Option<u32>
    requires graph { IsGraphOf (declared_by among.now.tables.now) among.now.graph.now }
    requires few { length among.now.tables.now.rows ≤ 8192 }
    ensures { result ≡ best_row among.now.tables.now among.now.machine.now among.now.live.now at.parent at.place at.spot }
{
    let mut best = None;
    for row in 0..among.tables.rows.len() as u32 {
        if takes(among, at, row) && is_above(among.tables, among.machine, row, best, at.spot) {
            best = Some(row);
        }
    }
    best
}

/// Whether a spot is at a place.
#[inline(always)]
fn hangs_at(machine: &Machine, spot: u16, place: Place) -> bool
    ensures { result ≡ hangs_at machine.now spot place }
{
    match machine.spots.items().get(spot as usize) {
        Some(found) => same_place(found.place, place),
        None => false,
    }
}

/// Whether a row is marked live, and names this parent or none.
fn is_open_to(tables: &Tables, live: &LiveRows, parent: ParentRef, row: u16) -> bool
    ensures { result ≡ listed.is_open_to tables.now live.now parent row }
{
    live.is_live(u32::from(row))
        && match tables.rows.items().get(row as usize) {
            Some(row) => names_parent(row.parent, parent),
            None => false,
        }
}

/// The first of some rows that is marked live, and names this parent or none.
fn first_open(tables: &Tables, live: &LiveRows, parent: ParentRef, rows: &[u16]) -> Option<u16>
    ensures { result ≡ find (listed.is_open_to tables.now live.now parent) rows.now }
{
    rows.iter()
        .copied()
        .find(|row| is_open_to(tables, live, parent, *row))
}

/// The best row for a spot, where some rows have the same first open one as those of the index. If the spot is at the
/// place, only they are looked at.
#[inline(always)]
fn best_among(among: &Rows<'_>, at: Sought, rows: &[u16]) -> Option<u32>
    requires graph { IsGraphOf (declared_by among.now.tables.now) among.now.graph.now }
    requires few { length among.now.tables.now.rows ≤ 8192 }
    ensures { (index : List (List ℕ)) → IsIndexOf among.now.tables.now among.now.machine.now index
        → find (listed.is_open_to among.now.tables.now among.now.live.now at.parent) rows.now
        ≡ find (listed.is_open_to among.now.tables.now among.now.live.now at.parent) (slice_index_or index at.spot [])
        → result ≡ best_row among.now.tables.now among.now.machine.now among.now.live.now at.parent at.place at.spot }
{
    if !hangs_at(among.machine, at.spot, at.place) {
        // (a copy, so that the fields of the other one can stay in registers)
        let rows = *among;
        return best_of_all(&rows, at);
    }
    match first_open(among.tables, among.live, at.parent, rows) {
        Some(row) => {
            if parent_offers(among.graph, among.tables, at.parent, at.place) {
                Some(u32::from(row))
            } else {
                None
            }
        }
        None => None,
    }
}

/// The row that takes a spot below a parent at a place: of those that are marked live, fit, pass submatch and have a
/// match value above 0, the one of greatest match value, the earliest among equals. None if there is none. Any truth
/// values may be given. See autoconf(9).
#[inline(always)]
pub fn best(
    tables: &Tables,
    graph: &Graph,
    index: &RowIndex,
    machine: &Machine,
    live: &LiveRows,
    parent: ParentRef,
    place: Place,
    spot: u16,
) -> Option<u32>
    requires graph { IsGraphOf (declared_by tables.now) graph.now }
    requires index { IsIndexOf tables.now machine.now index.now }
    requires few { length tables.now.rows ≤ 8192 }
    ensures row { result ≡ best_row tables.now machine.now live.now parent place spot }

    // So it is the winner in each world whose rows are live as the truth values say.
    ensures winner { (s : Setup) (devices : List Dev) → s.tables ≡ tables.now → s.machine ≡ machine.now
        → live.now ≡ live_rows s devices → rule.winner s devices parent place spot ≡ result }
{
    let rows = Rows {
        tables,
        graph,
        machine,
        live,
    };
    let at = Sought {
        parent,
        place,
        spot,
    };
    best_among(&rows, at, index.rows(spot))
}

/// The same in a world, whose rows are live as its devices say: rows that differ in nothing that liveness and parents go by
/// are passed at one look.
#[inline(always)]
pub fn winner(among: &Rows<'_>, index: &RowIndex, leaders: &Leaders, at: Sought) -> Option<u32>
    requires graph { IsGraphOf (declared_by among.now.tables.now) among.now.graph.now }
    requires index { IsIndexOf among.now.tables.now among.now.machine.now index.now }
    requires leaders { AreLeadersOf among.now.tables.now index.now leaders.now }
    requires few { length among.now.tables.now.rows ≤ 8192 }
    ensures { (s : Setup) (devices : List Dev) → s.tables ≡ among.now.tables.now → s.machine ≡ among.now.machine.now
        → among.now.live.now ≡ live_rows s devices → rule.winner s devices at.parent at.place at.spot ≡ result }
{
    best_among(among, at, leaders.rows(index, at.spot))
}
