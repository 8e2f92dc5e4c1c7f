//! The rows that suit each spot, the best first.
ghost use Rattle.std.specs.Prelude.{◌≡◌, ◌≤◌, ◌<◌, ◌-◌, ◌&&◌, nat_lt, [], length, map, IfOk, IsTrue};
ghost use Rattle.std.specs.List.{slice_index_or};
ghost use Rattle.cf_types.specs.Locators.{locators_at, submatch};
ghost use Rattle.run_rules.specs.Search.{found_at};
ghost use Rattle.run_rules.specs.World as world;
ghost use Rattle.plain_rows.specs.Suited.{AreSuited, FindsAlike, FindsBest, RepeatsAt, key_of, suits_by};
ghost use Rattle.plain_rows.specs.Sought.{HaveAll, candidate_at, candidates_in};
ghost use Rattle.plain_rows.specs.declared.suited.Candidate.{Candidate as Given};
ghost use Rattle.run_rules.specs.MatchLines.{AreValuesAt};

use crate::lines::own_lines;
use crate::placed::PlacedRows;
use crate::values::{set_own, set_values, unset_own, value_of};
use cf_types::{Locs, Machine, Memory, ParentSpec, Place, Row, Tables};
use locator_rules::submatch;
use std::alloc::Global;
use std::cmp::Reverse;
use std::marker::Model;

/// For each spot the rows that suit it at its own place: those of a match value above 0 whose locator values fit what is
/// found there, the best first. Of rows one after the other that are alike only the first is there, since no other is ever
/// taken. Contracts see a list of rows for each spot.
#[derive(Drop)]
pub struct Suited {
    lists: Vec<Vec<u32>>,
}

impl Model for Suited {
    ghost use Rattle.std.specs.Prelude.{ℕ, List, map};

    ghost Value = { List (List ℕ) };

    ghost view = { λ suited. map (λ list. list.items) suited.lists.items };
}

/// A row with its match value. The better one is less.
#[derive(Clone, Copy, PartialEq, Eq, PartialOrd, Ord)]
struct Candidate {
    value: Reverse<u32>,
    row: u32,
}

/// What is sought: the rows of these tables that suit a spot of the machine at its place, with the match values of
/// attachments there.
#[derive(Clone, Copy)]
struct Sought<'a> {
    tables: &'a Tables,
    machine: &'a Machine,
    values: &'a Vec<u32>,
    place: Place,
    spot: u16,
}

/// Whether two places are the same.
fn is_at(place: Place, other: Place) -> bool
    ensures { result ≡ world.same_place place other }
{
    match (place, other) {
        (Place::Root, Place::Root) => true,
        (Place::At(a), Place::At(b)) => a == b,
        _ => false,
    }
}

/// Whether the locator values of a row at a place fit those that are found at a spot. See submatch in autoconf(9).
#[tactic(auto, unfolding(cf_types::specs::Locators::submatch))]
pub fn passes(tables: &Tables, machine: &Machine, place: Place, row: &Row, spot: u16) -> bool
    ensures { result ≡ submatch (locators_at tables.now.attrs place) row.now.locs (found_at machine.now spot) }
{
    let Place::At(attr) = place else {
        return true;
    };
    let Some(attr) = tables.attrs.items().get(attr as usize) else {
        return true;
    };
    match machine.spots.items().get(spot as usize) {
        Some(spot) => submatch(attr, &row.locs, &spot.found),
        None => submatch(attr, &row.locs, &Locs::make()),
    }
}

/// Whether a row of this match value suits the spot that is sought for.
fn is_suited(sought: &Sought, row: &Row, value: u32) -> bool
    ensures { result ≡ suits_by sought.now.tables.now sought.now.machine.now sought.now.place sought.now.spot row.now value }
{
    let place = sought.place;
    is_at(row.place, place)
        && value > 0
        && passes(sought.tables, sought.machine, place, row, sought.spot)
}

/// The candidate that a row is, if it suits the spot.
fn candidate_of(sought: &Sought, number: u32) -> Option<Candidate>
    requires { AreValuesAt sought.now.machine.now sought.now.spot sought.now.values.now.items }
    ensures { result ≡ candidate_at sought.now number }
{
    let row = sought.tables.rows.items().get(number as usize)?;
    let value = value_of(sought.values, row.attach);
    if is_suited(sought, row, value) {
        Some(Candidate {
            value: Reverse(value),
            row: number,
        })
    } else {
        None
    }
}

/// Those of some rows that suit the spot, in their order.
fn suiting_rows(sought: &Sought, rows: &[u32]) -> Result<Vec<Candidate>, Memory>
    requires { AreValuesAt sought.now.machine.now sought.now.spot sought.now.values.now.items }
    ensures { IfOk result (λ list. list.items ≡ candidates_in sought.now rows.now) }
{
    let mut list = Vec::new(*sought.values.allocator());
    for row in rows {
        if let Some(candidate) = candidate_of(sought, *row) {
            list.push(candidate)?;
        }
    }
    Ok(list)
}

/// Whether two parents that rows name are the same.
fn same_parent(a: Option<ParentSpec>, b: Option<ParentSpec>) -> bool
    ensures { IsTrue result → a ≡ b }
{
    match (a, b) {
        (None, None) => true,
        (Some(a), Some(b)) => a.device == b.device && a.unit == b.unit,
        _ => false,
    }
}

/// Whether two rows are of one driver and unit, both starred or not, and name the same parent: no search takes the second.
fn is_alike(tables: &Tables, first: u32, second: u32) -> bool
    ensures { IsTrue result → key_of tables.now first ≡ key_of tables.now second }
{
    let rows = tables.rows.items();
    match (rows.get(first as usize), rows.get(second as usize)) {
        (Some(a), Some(b)) => {
            a.device == b.device
                && a.unit == b.unit
                && a.star == b.star
                && same_parent(a.parent, b.parent)
        }
        _ => false,
    }
}

/// Whether the candidate at a place is alike to the one before it.
fn repeats(tables: &Tables, list: &[Candidate], place: usize) -> bool
    requires { place < length list.now }
    ensures { IsTrue result → RepeatsAt tables.now list.now place }
{
    place > 0 && is_alike(tables, list[place - 1].row, list[place].row)
}

/// The rows of candidates, without those that are alike to the one before.
fn rows_of(tables: &Tables, list: &Vec<Candidate>) -> Result<Vec<u32>, Memory>
    ensures { IfOk result (λ rows. FindsAlike tables.now (map (λ c. c.row) list.now.items) rows.items) }
{
    let mut rows = Vec::new(*list.allocator());
    for place in 0..list.len() {
        if !repeats(tables, list, place) {
            rows.push(list[place].row)?;
        }
    }
    Ok(rows)
}

/// The rows that suit the spot, the best first. All that suit it are among those that are given.
fn best_first(sought: &Sought, rows: &[u32]) -> Result<Vec<u32>, Memory>
    requires all { HaveAll sought.now rows.now }
    requires values { AreValuesAt sought.now.machine.now sought.now.spot sought.now.values.now.items }
    ensures { IfOk result (λ list. FindsBest sought.now.tables.now sought.now.machine.now sought.now.place sought.now.spot list.items) }
{
    let mut list = suiting_rows(sought, rows)?;
    list.sort()?;
    rows_of(sought.tables, &list)
}

impl Suited {
    /// The rows of these tables that suit the spots of this machine.
    pub fn make(alloc: Global, tables: &Tables, machine: &Machine) -> Result<Suited, Memory>
        requires few_rows { length tables.now.rows ≤ 8192 }
        requires few_spots { length machine.now.spots ≤ 1024 }
        ensures { IfOk result (AreSuited tables.now machine.now) }
    {
        let mut everywhere = Vec::new(alloc);
        set_values(&mut everywhere, machine.matches.items(), None)?;
        let own = own_lines(alloc, machine.spots.items(), machine.matches.items())?;
        let placed = PlacedRows::make(alloc, tables.rows.items())?;
        let mut values = Vec::from_slice(alloc, &everywhere)?;
        let mut lists = Vec::with_capacity(alloc, machine.spots.len())?;
        for (number, spot) in machine.spots.items().iter().enumerate() {
            let own_here = own[number].as_slice();
            set_own(&mut values, machine, own_here, number as u16)?;
            let sought = Sought {
                tables,
                machine,
                values: &values,
                place: spot.place,
                spot: number as u16,
            };
            let rows = best_first(&sought, placed.rows(spot.place))?;
            unset_own(&mut values, &everywhere, own_here)?;
            lists.push(rows)?;
        }
        Ok(Suited { lists })
    }

    /// The rows that suit a spot at its own place, the best first.
    #[inline(always)]
    pub fn rows(&self, spot: u16) -> &[u32]
        ensures { result.now ≡ slice_index_or self.now spot [] }
    {
        match self.lists.get(spot as usize) {
            Some(rows) => rows,
            None => &[],
        }
    }
}
