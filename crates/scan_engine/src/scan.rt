//! The next turn of a scan.
ghost use Rattle.std.specs.Prelude.{◌≡◌, ◌≤◌, ℕ, false, flat_map, length, map, IfSome};
ghost use Rattle.std.specs.List.{enumerate_from};
ghost use Rattle.cf_types.specs.declared.tables.Place.TheVariants.{Root, At};
ghost use Rattle.cf_types.specs.Offers as offer;
ghost use Rattle.run_rules.specs.Search.{is_before, turns_of};
ghost use Rattle.attr_graph.specs.Graphs.{IsGraphOf, declared_by};
ghost use Rattle.scan_engine.specs.Buses.{place_turns};
ghost use Rattle.scan_engine.specs.Grounds.{IsGround};
ghost use Rattle.run_rules.specs.Spans.{HoldsChildren};
ghost use Rattle.scan_engine.specs.Turns.{IsTurn, first_from};

use crate::bus::{Bus, bus_turn};
use crate::spans::Children;
use crate::styles::Styles;
use attr_graph::Graph;
use cf_types::{Machine, Place, Tables};
use run_rules::{Position, Turn};

/// The interface attributes that a driver offers, in the order in which they are searched; none if there is no such
/// driver. See config(5).
#[inline(always)]
pub fn offered<'a>(graph: &'a Graph, tables: &Tables, device: u32) -> &'a [u32]
    requires graph { IsGraphOf (declared_by tables.now) graph.now }
    ensures { result.now ≡ offer.interfaces tables.now.attrs tables.now.devices device }
{
    if (device as usize) < tables.devices.len() {
        graph.interfaces(device)
    } else {
        &[]
    }
}

/// What scans go through: tables with their graph, and a machine with the styles of its buses.
#[derive(Clone, Copy)]
pub struct Ground<'a> {
    pub tables: &'a Tables,
    pub graph: &'a Graph,
    pub machine: &'a Machine,
    pub styles: &'a Styles,
}

/// What a scan searches: a device by its driver and attachment, or, without both, the root; and the spots below it.
#[derive(Clone, Copy)]
pub struct Searched {
    pub device: Option<u32>,
    pub attach: Option<u32>,
    pub children: Children,
}

/// The first turn of a place that is not before a position on it or on an earlier place.
#[inline(always)]
fn place_turn(
    on: &Ground<'_>,
    by: Searched,
    attr: u16,
    place: Place,
    from: Position,
) -> Option<Turn>
    requires fit { IsGround on.now }
    requires span { HoldsChildren on.now.machine.now by.children.spot by.children.span }
    requires late { from.attr ≤ attr }
    ensures { first_from (place_turns on.now.tables.now on.now.machine.now by.attach by.children.spot (attr, place)) from ≡ result }
{
    let bus = Bus {
        attr,
        place,
        indirect: on.styles.is_indirect(by.attach, place),
    };
    bus_turn(
        on.machine,
        on.tables.rows.len() as u32,
        by.children,
        bus,
        bus.begin(from),
    )
}

/// The first turn at these attributes that is not before a position.
#[inline(always)]
fn turn_among(on: &Ground<'_>, by: Searched, attrs: &[u32], from: Position) -> Option<Turn>
    requires fit { IsGround on.now }
    requires span { HoldsChildren on.now.machine.now by.children.spot by.children.span }
    requires few { length attrs.now ≤ 64 }
    ensures { first_from (flat_map (place_turns on.now.tables.now on.now.machine.now by.attach by.children.spot)
        (enumerate_from 0 (map At attrs.now))) from ≡ result }
{
    for attr in from.attr..attrs.len() as u16 {
        let place = Place::At(attrs[attr as usize]);
        match place_turn(on, by, attr, place, from) {
            Some(turn) => return Some(turn),
            None => {}
        }
    }
    None
}

/// The first turn at the root that is not before a position.
#[inline(always)]
fn root_turn(on: &Ground<'_>, by: Searched, from: Position) -> Option<Turn>
    requires fit { IsGround on.now }
    requires span { HoldsChildren on.now.machine.now by.children.spot by.children.span }
    ensures { first_from (place_turns on.now.tables.now on.now.machine.now by.attach by.children.spot (0, Root)) from ≡ result }
{
    if from.attr > 0 {
        return None;
    }
    place_turn(on, by, 0, Place::Root, from)
}

/// The first turn of a scan that is not before a position.
#[inline(always)]
fn scan_turn(on: &Ground<'_>, by: Searched, only: Option<u32>, from: Position) -> Option<Turn>
    requires fit { IsGround on.now }
    requires span { HoldsChildren on.now.machine.now by.children.spot by.children.span }
    ensures { first_from (turns_of on.now.tables.now on.now.machine.now by.device by.attach by.children.spot only) from ≡ result }
{
    match only {
        Some(attr) => turn_among(on, by, &[attr], from),
        None => match by.device {
            Some(device) => {
                let attrs = offered(on.graph, on.tables, device);
                turn_among(on, by, attrs, from)
            }
            None => root_turn(on, by, from),
        },
    }
}

/// The first turn of a scan, due or not, that is not before a position; none if there is none. The scan is of one attribute
/// alone if one is given. It takes no memory, and looks at nothing before the position. See autoconf(9).
#[inline(always)]
pub fn next_turn(on: &Ground<'_>, by: Searched, only: Option<u32>, from: Position) -> Option<Turn>
    requires fit { IsGround on.now }
    requires span { HoldsChildren on.now.machine.now by.children.spot by.children.span }
    ensures next { first_from (turns_of on.now.tables.now on.now.machine.now by.device by.attach by.children.spot only) from ≡ result }
    ensures turn { IfSome result (IsTurn on.now.tables.now on.now.machine.now by.children.spot) }
    ensures forward { IfSome result (λ t. is_before t.at from ≡ false) }
{
    scan_turn(on, by, only, from)
}
