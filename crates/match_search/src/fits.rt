//! Which rows fit a parent at a place, and what is found at a spot.
ghost use Rattle.std.specs.Prelude.{◌≡◌, []};
ghost use Rattle.cf_types.specs.Locators as shared;
ghost use Rattle.cf_types.specs.Offers as offer;
ghost use Rattle.run_rules.specs.Search as rule;
ghost use Rattle.run_rules.specs.World as world;
ghost use Rattle.attr_graph.specs.Graphs.{IsGraphOf, declared_by};
ghost use Rattle.match_search.specs.Found.{locators_in};

use attr_graph::Graph;
use cf_types::{Attr, Locs, Machine, ParentSpec, Place, Row, Tables};
use locator_rules::submatch;
use run_rules::ParentRef;

pub fn names_parent(spec: Option<ParentSpec>, parent: ParentRef) -> bool
    ensures { result ≡ rule.names_parent spec parent }
{
    match (spec, parent) {
        (None, _) => true,
        (Some(_), ParentRef::Root) => false,
        (Some(spec), ParentRef::Dev { device, unit }) => {
            spec.device == device && spec.unit.is_none_or(|u| u == unit)
        }
    }
}

#[inline(always)]
pub fn same_place(a: Place, b: Place) -> bool
    ensures { result ≡ world.same_place a b }
{
    match (a, b) {
        (Place::Root, Place::Root) => true,
        (Place::At(a), Place::At(b)) => a == b,
        _ => false,
    }
}

/// Whether a driver offers an attribute.
#[tactic(auto, unfolding(cf_types::specs::Offers::offers))]
fn offers(graph: &Graph, tables: &Tables, device: u32, attr: u32) -> bool
    requires graph { IsGraphOf (declared_by tables.now) graph.now }
    ensures { result ≡ offer.offers tables.now.attrs tables.now.devices device attr }
{
    if (device as usize) < tables.devices.len() {
        graph.offers(device, attr)
    } else {
        false
    }
}

pub fn parent_offers(graph: &Graph, tables: &Tables, parent: ParentRef, place: Place) -> bool
    requires graph { IsGraphOf (declared_by tables.now) graph.now }
    ensures { result ≡ rule.parent_offers tables.now parent place }
{
    match (parent, place) {
        (ParentRef::Root, Place::Root) => true,
        (ParentRef::Root, Place::At(_)) => false,
        (ParentRef::Dev { device: _, unit: _ }, Place::Root) => false,
        (ParentRef::Dev { device, unit: _ }, Place::At(a)) => offers(graph, tables, device, a),
    }
}

/// Whether a row fits a parent at a place.
pub fn fits(graph: &Graph, tables: &Tables, parent: ParentRef, place: Place, row: &Row) -> bool
    requires graph { IsGraphOf (declared_by tables.now) graph.now }
    ensures { result ≡ rule.fits tables.now parent place row.now }
{
    same_place(row.place, place)
        && parent_offers(graph, tables, parent, place)
        && names_parent(row.parent, parent)
}

/// The locator values that are found at a spot.
pub fn found_at(machine: &Machine, spot: u16) -> &[i64]
    ensures { result.now ≡ rule.found_at machine.now spot }
{
    match machine.spots.items().get(spot as usize) {
        Some(s) => s.found.items(),
        None => &[],
    }
}

/// The attribute whose locators a row has at a place; none at the root.
pub fn attr_at(tables: &Tables, place: Place) -> Option<&Attr>
    ensures { locators_in result ≡ shared.locators_at tables.now.attrs place }
{
    match place {
        Place::Root => None,
        Place::At(attr) => tables.attrs.items().get(attr as usize),
    }
}

/// The locator values that are found at a spot, or those given if there is no such spot.
pub fn found_or<'a>(machine: &'a Machine, spot: u16, none: &'a Locs) -> &'a Locs
    requires { none.now ≡ [] }
    ensures { result.now ≡ rule.found_at machine.now spot }
{
    match machine.spots.items().get(spot as usize) {
        Some(spot) => &spot.found,
        None => none,
    }
}

/// Whether the locator values of a row fit those that are found.
#[tactic(auto, unfolding(cf_types::specs::Locators::submatch))]
pub fn passes(attr: Option<&Attr>, row: &Row, found: &Locs) -> bool
    ensures { result ≡ shared.submatch (locators_in attr.entry) row.now.locs found.now }
{
    match attr {
        Some(attr) => submatch(attr, &row.locs, found),
        None => true,
    }
}
