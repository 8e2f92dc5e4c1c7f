//! The rows that suit each spot, the best first.
ghost use Rattle.std.specs.Prelude.{◌≡◌, ◌≤◌, ◌++◌, [], length, map, IfOk, OnOk};
ghost use Rattle.std.specs.List.{slice_index_or};
ghost use Rattle.match_search.specs.Index.{IsIndexOf};
ghost use Rattle.run_rules.specs.MatchLines.{AreValuesAt};
ghost use Rattle.run_rules.specs.Suits.{AreBestFirst};
ghost use Rattle.cf_types.specs.Locators.{locators_at};
ghost use Rattle.match_search.specs.Found.{locators_in};
ghost use Rattle.match_search.specs.Placed.{AreLooked, ArePlaced};
ghost use Rattle.match_search.specs.Sought.{AreCandidates, HaveAll, candidate_at, candidates_in, first_locator};
ghost use Rattle.run_rules.specs.Search.{found_at};

use crate::fits::{attr_at, found_at, found_or, passes, same_place};
use crate::own::own_lines;
use crate::placed::{Looked, PlaceKey, PlacedRows, look_among};
use crate::values::{set_own, set_values, unset_own, value_of};
use cf_types::{Attr, Locs, Machine, Memory, Place, Tables};
use std::alloc::Global;
use std::cmp::Reverse;
use std::marker::Model;

/// For each spot the rows that suit it at its own place: those of a match value above 0 whose locator values fit what is
/// found there, the best first. Contracts see a list of rows for each spot.
#[derive(Drop)]
pub struct RowIndex {
    lists: Vec<Vec<u16>>,
}

impl Model for RowIndex {
    ghost use Rattle.std.specs.Prelude.{ℕ, List, map};

    ghost Value = { List (List ℕ) };

    ghost view = { λ index. map (λ list. list.items) index.lists.items };
}

/// A row with its match value. The better one is less.
#[derive(Clone, Copy, PartialEq, Eq, PartialOrd, Ord)]
struct Candidate {
    value: Reverse<u32>,
    row: u16,
}

/// What is looked for: rows of these tables that suit a spot of the machine at its place, with the match values of
/// attachments there.
#[derive(Clone, Copy)]
struct Sought<'a> {
    tables: &'a Tables,
    machine: &'a Machine,
    values: &'a Vec<u32>,
    place: Place,
    spot: u16,
}

/// The first locator of a place: its default, and the value that is found at a spot.
#[derive(Clone, Copy)]
struct FirstLocator {
    default: Option<i64>,
    found: i64,
}

/// The candidate that a row is, if it suits the spot, at which these values are found.
fn candidate_of(
    sought: &Sought,
    attr: Option<&Attr>,
    found: &Locs,
    number: u16,
) -> Option<Candidate>
    requires values { AreValuesAt sought.now.machine.now sought.now.spot sought.now.values.now.items }
    requires attr { locators_in attr ≡ locators_at sought.now.tables.now.attrs sought.now.place }
    requires found { found.now ≡ found_at sought.now.machine.now sought.now.spot }
    ensures { result ≡ candidate_at sought.now number }
{
    let row = sought.tables.rows.items().get(number as usize)?;
    let value = value_of(sought.values, row.attach);
    if same_place(row.place, sought.place) && 0 < value && passes(attr, row, found) {
        Some(Candidate {
            value: Reverse(value),
            row: number,
        })
    } else {
        None
    }
}

/// Adds those of some rows that suit the spot.
fn add_candidates(sought: &Sought, rows: &[u16], list: &mut Vec<Candidate>) -> Result<(), Memory>
    requires values { AreValuesAt sought.now.machine.now sought.now.spot sought.now.values.now.items }
    ensures { OnOk result (list.new.items ≡ list.old.items ++ candidates_in sought.now rows.now) }
{
    let none = Locs::make();
    let attr = attr_at(sought.tables, sought.place);
    let found = found_or(sought.machine, sought.spot, &none);
    for row in rows {
        if let Some(candidate) = candidate_of(sought, attr, found, *row) {
            list.push(candidate)?;
        }
    }
    Ok(())
}

/// The first locator of the spot's place, with the first value that is found there, if there are both.
fn first_locator(sought: &Sought) -> Option<FirstLocator>
    ensures { result ≡ first_locator (locators_at sought.now.tables.now.attrs sought.now.place) (found_at sought.now.machine.now sought.now.spot) }
{
    let locator = attr_at(sought.tables, sought.place)?.locs.items().first()?;
    let found = *found_at(sought.machine, sought.spot).first()?;
    Some(FirstLocator {
        default: locator.default,
        found,
    })
}

/// Two lists of rows, among which are all that suit the spot: of those at its place the ones with the first value that
/// is found there, and the ones with the default of the first locator.
fn placed_for<'a>(sought: &Sought, placed: &'a PlacedRows) -> (&'a [u16], &'a [u16])
    requires placed { ArePlaced sought.now.tables.now.rows placed.now }
    ensures { HaveAll sought.now (result.0.now ++ result.1.now) }
{
    let place = sought.place;
    let Some(first) = first_locator(sought) else {
        return (placed.rows(PlaceKey { place, first: None }), &[]);
    };
    let found = placed.rows(PlaceKey {
        place,
        first: Some(first.found),
    });
    match first.default {
        Some(default) if default != first.found => {
            let wild = PlaceKey {
                place,
                first: Some(default),
            };
            (found, placed.rows(wild))
        }
        _ => (found, &[]),
    }
}

/// Two lists of rows, among which are all that suit the spot.
#[inline(always)]
fn rows_for<'a>(sought: &Sought, looked: &'a Looked) -> (&'a [u16], &'a [u16])
    requires looked { AreLooked sought.now.tables.now.rows looked.now }
    ensures { HaveAll sought.now (result.0.now ++ result.1.now) }
{
    match looked {
        Looked::Listed(lists) => (lists.rows(sought.place), &[]),
        Looked::Placed(placed) => placed_for(sought, placed),
    }
}

/// The rows that suit the spot.
fn suiting_rows(sought: &Sought, looked: &Looked) -> Result<Vec<Candidate>, Memory>
    requires looked { AreLooked sought.now.tables.now.rows looked.now }
    requires values { AreValuesAt sought.now.machine.now sought.now.spot sought.now.values.now.items }
    ensures { IfOk result (λ list. AreCandidates sought.now list.items) }
{
    let (some, others) = rows_for(sought, looked);
    let mut list = Vec::new(*sought.values.allocator());
    add_candidates(sought, some, &mut list)?;
    add_candidates(sought, others, &mut list)?;
    Ok(list)
}

/// The rows of candidates.
fn rows_of(list: &Vec<Candidate>) -> Result<Vec<u16>, Memory>
    ensures { IfOk result (λ rows. rows.items ≡ map (λ c. c.row) list.now.items) }
{
    let mut rows = Vec::with_capacity(*list.allocator(), list.len())?;
    for candidate in list {
        rows.push(candidate.row)?;
    }
    Ok(rows)
}

/// The rows that suit the spot, the best first.
fn best_first(sought: &Sought, looked: &Looked) -> Result<Vec<u16>, Memory>
    requires looked { AreLooked sought.now.tables.now.rows looked.now }
    requires values { AreValuesAt sought.now.machine.now sought.now.spot sought.now.values.now.items }
    ensures { IfOk result (λ rows. AreBestFirst sought.now.tables.now sought.now.machine.now sought.now.place sought.now.spot rows.items) }
{
    let mut list = suiting_rows(sought, looked)?;
    list.sort()?;
    rows_of(&list)
}

/// For each spot the rows that suit it, looked for among these, the best first.
fn lists_by(
    alloc: Global,
    tables: &Tables,
    machine: &Machine,
    looked: &Looked,
) -> Result<Vec<Vec<u16>>, Memory>
    requires looked { AreLooked tables.now.rows looked.now }
    requires few_spots { length machine.now.spots ≤ 65536 }
    ensures { IfOk result (λ lists. IsIndexOf tables.now machine.now (map (λ list. list.items) lists.items)) }
{
    let mut everywhere = Vec::new(alloc);
    set_values(&mut everywhere, machine.matches.items(), None)?;
    let own = own_lines(alloc, machine.spots.items(), machine.matches.items())?;
    let mut values = Vec::from_slice(alloc, &everywhere)?;
    let mut lists = Vec::with_capacity(alloc, machine.spots.len())?;
    for (number, spot) in machine.spots.items().iter().enumerate() {
        let own_here = own[number].as_slice();
        set_own(&mut values, machine, own_here, number as u16)?;
        let sought = Sought {
            tables,
            machine,
            values: &values,
            place: spot.place,
            spot: number as u16,
        };
        let rows = best_first(&sought, looked)?;
        unset_own(&mut values, &everywhere, own_here)?;
        lists.push(rows)?;
    }
    Ok(lists)
}

impl RowIndex {
    /// The index of the rows of these tables over the spots of this machine.
    pub fn make(alloc: Global, tables: &Tables, machine: &Machine) -> Result<RowIndex, Memory>
        requires few_rows { length tables.now.rows ≤ 65536 }
        requires few_spots { length machine.now.spots ≤ 65536 }
        ensures { IfOk result (IsIndexOf tables.now machine.now) }
    {
        let looked = look_among(alloc, tables)?;
        let lists = lists_by(alloc, tables, machine, &looked)?;
        Ok(RowIndex { lists })
    }

    /// How many spots there are.
    pub fn count(&self) -> usize
        ensures { result ≡ length self.now }
    {
        self.lists.len()
    }

    /// The rows that suit a spot at its own place, the best first. It takes no memory.
    #[inline(always)]
    pub fn rows(&self, spot: u16) -> &[u16]
        ensures { result.now ≡ slice_index_or self.now spot [] }
    {
        match self.lists.get(spot as usize) {
            Some(rows) => rows,
            None => &[],
        }
    }
}
