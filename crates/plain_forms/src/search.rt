//! Which row takes a spot, by comparing each row and each match line.

use crate::devices::{Device, is_live_row, parent_ref};
use cf_types::{Locs, Machine, Memory, ParentSpec, Place, Row, Spot, Tables};
use locator_rules::submatch;
use run_rules::ParentRef;
use std::alloc::Global;

/// The match value of an attachment at a spot: the last line for both counts, else the last for all spots.
fn match_value(machine: &Machine, attach: u32, spot: u16) -> u32 {
    let lines = machine.matches.items();
    let own = lines
        .iter()
        .rev()
        .find(|line| line.attach == attach && line.spot == Some(spot));
    let line = match own {
        Some(line) => Some(line),
        None => lines
            .iter()
            .rev()
            .find(|line| line.attach == attach && line.spot.is_none()),
    };
    match line {
        Some(line) => line.value,
        None => 0,
    }
}

/// Whether a row names this parent, or none.
fn names_parent(row: Option<ParentSpec>, parent: ParentRef) -> bool {
    match (row, parent) {
        (None, _) => true,
        (Some(_), ParentRef::Root) => false,
        (Some(named), ParentRef::Dev { device, unit }) => {
            named.device == device && named.unit.is_none_or(|number| number == unit)
        }
    }
}

/// Marks an attribute.
fn mark(marks: &mut Vec<bool>, attr: u32) {
    if let Some(marked) = marks.get_mut(attr as usize) {
        *marked = true;
    }
}

/// For each attribute whether a driver has it: those that it names, and those that these name, all of them earlier.
fn attrs_of(alloc: Global, tables: &Tables, driver: u32) -> Result<Vec<bool>, Memory> {
    let mut marks = Vec::new(alloc);
    marks.resize(tables.attrs.len(), false)?;
    if let Some(device) = tables.devices.items().get(driver as usize) {
        if let Some(own) = device.own {
            mark(&mut marks, own);
        }
        for need in device.needs.items() {
            mark(&mut marks, *need);
        }
    }
    for (number, attr) in tables.attrs.items().iter().enumerate().rev() {
        if marks.get(number).copied() == Some(true) {
            for need in attr.needs.items() {
                mark(&mut marks, *need);
            }
        }
    }
    Ok(marks)
}

/// Whether the root, or a device, offers a place.
pub fn offers(
    alloc: Global,
    tables: &Tables,
    parent: Option<Device>,
    place: Place,
) -> Result<bool, Memory> {
    match (parent, place) {
        (None, Place::Root) => Ok(true),
        (Some(device), Place::At(attr)) => {
            let marks = attrs_of(alloc, tables, device.driver)?;
            let is_interface = match tables.attrs.items().get(attr as usize) {
                Some(attr) => attr.iface,
                None => false,
            };
            Ok(is_interface && marks.get(attr as usize).copied() == Some(true))
        }
        _ => Ok(false),
    }
}

/// Whether a driver offers any place at which devices are searched.
pub fn offers_any(alloc: Global, tables: &Tables, driver: u32) -> Result<bool, Memory> {
    let marks = attrs_of(alloc, tables, driver)?;
    let mut attrs = tables.attrs.items().iter().zip(&marks);
    Ok(attrs.any(|(attr, marked)| attr.iface && *marked))
}

/// Whether the locator values of a row fit those that are found at a spot.
fn passes(tables: &Tables, row: &Row, spot: &Spot) -> bool {
    let Place::At(attr) = row.place else {
        return true;
    };
    match tables.attrs.items().get(attr as usize) {
        Some(attr) => submatch(attr, &row.locs, &spot.found),
        None => true,
    }
}

/// What a search of a spot uses.
#[derive(Clone, Copy)]
struct Search<'a> {
    tables: &'a Tables,
    machine: &'a Machine,
    devices: &'a [Device],
    parent: ParentRef,
    spot: &'a Spot,
    number: u16,
}

/// Whether a row is live, and fits the parent and what is found at the spot.
fn is_open(search: Search, row: &Row) -> bool {
    row.place == search.spot.place
        && names_parent(row.parent, search.parent)
        && is_live_row(search.devices, row)
        && passes(search.tables, row, search.spot)
}

/// The match value of a row; 0 if it is not open.
fn worth_of(search: Search, row: &Row) -> u32 {
    if is_open(search, row) {
        match_value(search.machine, row.attach, search.number)
    } else {
        0
    }
}

/// A row and its match value.
#[derive(Clone, Copy)]
struct Best {
    row: Option<u32>,
    worth: u32,
}

/// The first row of the greatest match value above 0.
fn best_row(search: Search) -> Option<u32> {
    let mut best = Best {
        row: None,
        worth: 0,
    };
    let mut number: u32 = 0;
    for row in search.tables.rows.items() {
        let worth = worth_of(search, row);
        if best.worth < worth {
            best = Best {
                row: Some(number),
                worth,
            };
        }
        number = number.saturating_add(1);
    }
    best.row
}

/// The row that takes a spot below a device, or below the root: of those that are live and fit the one of greatest match
/// value, the first among equals.
pub fn winner(
    alloc: Global,
    tables: &Tables,
    machine: &Machine,
    devices: &[Device],
    parent: Option<Device>,
    number: u16,
) -> Result<Option<u32>, Memory> {
    let Some(spot) = machine.spots.items().get(number as usize) else {
        return Ok(None);
    };
    if !offers(alloc, tables, parent, spot.place)? {
        return Ok(None);
    }
    let search = Search {
        tables,
        machine,
        devices,
        parent: parent_ref(parent),
        spot,
        number,
    };
    Ok(best_row(search))
}
