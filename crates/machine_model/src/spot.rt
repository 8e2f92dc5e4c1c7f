ghost use Rattle.std.specs.Prelude.{◌≡◌, ◌≤◌, ◌<◌, ◌&&◌, IfErr, IfOk, None, Some, bytes_eq, codes, find, is_none, length, map, not, option_and_then, slice_get};
ghost use Rattle.std.specs.List.{list_any};
ghost use Rattle.config_rules.specs.MachineText.{depth_of, found_fault, found_value, spot_fault};
ghost use Rattle.machine_model.specs.Found.{given_of};
ghost use Rattle.machine_model.specs.Indexed.{IsDraft, IsIndex};
ghost use Rattle.machine_model.specs.Sites.{IsSite, found_fault_at, site_fault, spot_at};
ghost use Rattle.machine_text.specs.Words.{seen};

use crate::draft::Draft;
use crate::index::TableNames;
use crate::locator::FoundValue;
use crate::lookup::{spot_above, spot_place};
use crate::names::find;
use crate::word::{is_one, spells};
use cf_types::code::machine as code;
use cf_types::{Locator, Locs, Memory, Name, Place, Spot};
use locator_rules::locators_at;
use std::alloc::Global;

/// The most spots of a machine.
const MAX_SPOTS: usize = 1_024;

/// The most spots on the way from a spot to the root.
const MAX_DEPTH: usize = 64;

/// The value of a locator that has neither a value nor a default.
const NO_VALUE: i64 = -1;

fn has_locator(locs: &[Locator], name: &[u8]) -> bool
    ensures { result ≡ list_any (λ l. bytes_eq l.name name.now) locs.now }
{
    locs.iter().any(|loc| loc.name.bytes() == name)
}

/// Whether a number was out of its range.
fn is_far(value: Option<i64>) -> bool
    ensures { result ≡ is_none value }
{
    match value {
        Some(_) => false,
        None => true,
    }
}

/// The first code of the values that a spot gives.
fn found_fault(locs: &[Locator], found: &[FoundValue]) -> Option<u8>
    ensures { result ≡ found_fault locs.now (map given_of found.now) }
{
    for value in found {
        if !has_locator(locs, value.name) {
            return Some(code::UNKNOWN_LOCATOR);
        }
        if is_far(value.value) {
            return Some(code::OUT_OF_RANGE);
        }
    }
    None
}

/// The value that a spot gives for a locator.
fn given_for(found: &[FoundValue], name: &[u8]) -> Option<i64>
    ensures { result ≡ option_and_then (λ g. g.value) (find (λ g. bytes_eq g.name name.now) (map given_of found.now)) }
{
    for value in found {
        if spells(value.name, name) {
            return value.value;
        }
    }
    None
}

/// The value given, else the default, else -1.
fn found_value(found: &[FoundValue], loc: &Locator) -> i64
    ensures { result ≡ found_value (map given_of found.now) loc.now }
{
    match given_for(found, loc.name.bytes()) {
        Some(value) => value,
        None => match loc.default {
            Some(value) => value,
            None => NO_VALUE,
        },
    }
}

/// The values that the bus finds, one for each locator.
fn found_values(found: &[FoundValue], locs: &[Locator]) -> Locs
    requires { length locs.now ≤ 16 }
    ensures { result ≡ map (found_value (map given_of found.now)) locs.now }
{
    let mut values = Locs::make();
    for loc in locs {
        values.push(found_value(found, loc));
    }
    values
}

fn parent_of(spots: &[Spot], number: u16) -> Option<u16>
    ensures { result ≡ option_and_then (λ s. s.parent) (slice_get spots.now number) }
{
    match spots.get(number as usize) {
        Some(spot) => spot.parent,
        None => None,
    }
}

/// How many spots lead from one below this one to the root.
fn depth_below(spots: &[Spot], above: Option<u16>) -> usize
    ensures { result ≡ depth_of (length spots.now) spots.now above }
{
    let mut depth = 1;
    let mut above = above;
    for _ in 0..spots.len() {
        match above {
            Some(number) => {
                depth += 1;
                above = parent_of(spots, number);
            }
            None => return depth,
        }
    }
    depth
}

/// What a spot is below, and the slot of its name among those of the spots.
#[derive(Drop)]
pub struct SpotSite<'t> {
    pub slot: usize,
    above: Option<u16>,
    place: Place,
    locators: &'t [Locator],
}

/// Whether no earlier line gave the parent; `above` is the spot of the parent.
fn is_orphan(parent: &[u8], above: Option<u16>) -> bool
    ensures { result ≡ (not (bytes_eq parent.now (codes "root")) && is_none above) }
{
    !spells(parent, b"root") && above.is_none()
}

/// The site of a new spot, or the first code of its name, its parent and its attribute.
fn site_of<'t>(
    index: &TableNames<'t>,
    draft: &Draft,
    name: &[u8],
    parent: &[u8],
    attr: &[u8],
) -> Result<SpotSite<'t>, u8>
    requires index { IsIndex index.now }
    requires draft { IsDraft draft.now }
    ensures fault { IfErr result (λ code. site_fault index.now.tables.now draft.now.machine.spots name.now parent.now attr.now ≡ Some code) }
    ensures none { IfOk result (λ site. site_fault index.now.tables.now draft.now.machine.spots name.now parent.now attr.now ≡ None) }
    ensures site { IfOk result (IsSite index.now.tables.now draft.now name.now parent.now attr.now) }
{
    let slot = match find(&draft.names, name) {
        Ok(_) => return Err(code::SPOT_TWICE),
        Err(slot) => slot,
    };
    let above = spot_above(draft, parent);
    if is_orphan(parent, above) {
        return Err(code::UNKNOWN_SPOT);
    }
    match spot_place(index, parent, attr) {
        Some(place) => Ok(SpotSite {
            slot,
            above,
            place,
            locators: locators_at(index.tables, place),
        }),
        None => Err(code::NO_INTERFACE),
    }
}

/// The first code of the values that are found at a site, and of its depth.
fn found_fault_at(draft: &Draft, site: &SpotSite, found: &[FoundValue]) -> Option<u8>
    ensures code { result ≡ found_fault_at draft.now.machine.spots site.now.above site.now.locators.now (map given_of found.now) }
    ensures not_full { result ≡ None → length draft.now.machine.spots < 1024 }
{
    if let Some(code) = found_fault(site.locators, found) {
        return Some(code);
    }
    let spots = draft.machine.spots.items();
    if MAX_SPOTS <= spots.len() {
        return Some(code::TOO_MANY_SPOTS);
    }
    if MAX_DEPTH < depth_below(spots, site.above) {
        return Some(code::TOO_DEEP);
    }
    None
}

/// The site of a new spot, or the first code of the spot.
pub fn fitting_site<'t>(
    index: &TableNames<'t>,
    draft: &Draft,
    name: &[u8],
    parent: &[u8],
    attr: &[u8],
    found: &[FoundValue],
) -> Result<SpotSite<'t>, u8>
    requires index { IsIndex index.now }
    requires draft { IsDraft draft.now }
    ensures fault { IfErr result (λ code. spot_fault index.now.tables.now draft.now.machine.spots name.now parent.now attr.now (map given_of found.now)
        ≡ Some code) }
    ensures none { IfOk result (λ site. spot_fault index.now.tables.now draft.now.machine.spots name.now parent.now attr.now (map given_of found.now) ≡ None) }
    ensures site { IfOk result (IsSite index.now.tables.now draft.now name.now parent.now attr.now) }
    ensures not_full { IfOk result (λ site. length draft.now.machine.spots < 1024) }
{
    let site = site_of(index, draft, name, parent, attr)?;
    match found_fault_at(draft, &site, found) {
        Some(code) => Err(code),
        None => Ok(site),
    }
}

/// The spot of a line at its site.
pub fn make_spot(
    alloc: Global,
    site: &SpotSite,
    name: &[u8],
    found: &[FoundValue],
    marks: &[&[u8]],
) -> Result<Spot, Memory>
    requires not_empty { 1 ≤ length name.now }
    requires not_long { length name.now ≤ 63 }
    requires few { length site.now.locators.now ≤ 16 }
    ensures { IfOk result (λ s. s ≡ spot_at site.now name.now (map given_of found.now) (seen marks.now)) }
{
    Ok(Spot {
        name: Name::make(alloc, name)?,
        parent: site.above,
        place: site.place,
        found: found_values(found, site.locators),
        late: is_one(marks, b"late"),
        absent: is_one(marks, b"absent"),
        bad: is_one(marks, b"bad"),
    })
}
