//! Look-ups in the tables and in the machine.
ghost use Rattle.std.specs.Prelude.{◌≡◌, false, bytes_eq, option_copied, position, slice_get};
ghost use Rattle.std.specs.Option.{option_map_or};
ghost use Rattle.cf_types.specs.Offers as offer;
ghost use Rattle.cf_types.specs.declared.tables.Place.TheVariants.{Root};
ghost use Rattle.run_rules.specs.World as world;
ghost use Rattle.run_rules.specs.Next as next;
ghost use Rattle.run_rules.specs.Search as rule;
ghost use Rattle.run_sound.specs.Kept.{MayRun};

use attr_graph::Graph;
use cf_types::{Machine, Place, Policy, Row, Script, Tables};
use run_rules::Span;
use std::marker::Model;

/// What a run goes by: the tables with the graph of their attributes, the machine with the stretches of its spots, and the
/// scripts of the callers 1, 2 and so on. Contracts see the setup that they make. A run may go by it, and graph and stretches
/// are made from it.
#[derive(Drop)]
pub struct Rules<'a> {
    pub tables: &'a Tables,
    pub graph: &'a Graph,
    pub machine: &'a Machine,
    pub stretches: &'a [Span],
    pub scripts: &'a [Script],
}

impl<'a> Model for Rules<'a> {
    ghost use Rattle.run_rules.specs.declared.world.Setup.{Setup};

    ghost Value = { Setup };

    ghost use Rattle.plain_world.specs.Rules.{AreFit, setup_by};

    ghost view = { setup_by };

    ghost invariant = { AreFit };
}

impl<'a> Rules<'a> {
    /// A run may go by them: the fact that all rules keep. It does nothing.
    #[inline(always)]
    pub fn stands(&self)
        ensures { MayRun self.now }
    {
        let _ = &self.tables;
    }
}

/// The driver of a row.
pub fn driver_of(rules: &Rules, row: u32) -> u32
    ensures { result ≡ world.driver_of rules.now row }
{
    match rules.tables.rows.items().get(row as usize) {
        Some(row) => row.device,
        None => 0,
    }
}

/// The attachment of a row.
pub fn attach_of(rules: &Rules, row: u32) -> u32
    ensures { result ≡ world.attach_of rules.now row }
{
    match rules.tables.rows.items().get(row as usize) {
        Some(row) => row.attach,
        None => 0,
    }
}

/// What the driver of a row does, by the row's attachment.
pub fn policy_of(rules: &Rules, row: u32) -> Policy
    ensures { result ≡ world.policy_of rules.now row }
{
    let policies = rules.machine.policies.items();
    match policies.get(attach_of(rules, row) as usize) {
        Some(policy) => *policy,
        None => Policy::none(),
    }
}

/// The interface attributes that a driver offers, in the order in which they are searched; none if there is no such
/// driver. See config(5).
pub fn offered<'a>(rules: &'a Rules, driver: u32) -> &'a [u32]
    ensures { result.now ≡ offer.interfaces rules.now.tables.attrs rules.now.tables.devices driver }
{
    if (driver as usize) < rules.tables.devices.len() {
        rules.graph.interfaces(driver)
    } else {
        &[]
    }
}

/// The row of a number.
pub fn row_at<'a>(rules: &'a Rules, row: u32) -> Option<&'a Row>
    ensures { slice_get rules.now.tables.rows row ≡ option_copied result }
{
    rules.tables.rows.items().get(row as usize)
}

/// The locator values that are found at a spot.
pub fn found_at<'a>(rules: &'a Rules, spot: u16) -> &'a [i64]
    ensures { result.now ≡ rule.found_at rules.now.machine spot }
{
    match rules.machine.spots.items().get(spot as usize) {
        Some(spot) => spot.found.items(),
        None => &[],
    }
}

/// Whether two places are the same.
pub fn same_place(a: Place, b: Place) -> bool
    ensures { result ≡ world.same_place a b }
{
    match (a, b) {
        (Place::Root, Place::Root) => true,
        (Place::At(a), Place::At(b)) => a == b,
        _ => false,
    }
}

/// The place of a spot.
pub fn place_of(rules: &Rules, spot: u16) -> Place
    ensures { result ≡ option_map_or (λ spot. spot.place) (slice_get rules.now.machine.spots spot) Root }
{
    match rules.machine.spots.items().get(spot as usize) {
        Some(spot) => spot.place,
        None => Place::Root,
    }
}

/// Whether a transfer on a spot ends with a device error.
pub fn is_bad(rules: &Rules, spot: u16) -> bool
    ensures { result ≡ option_map_or (λ spot. spot.bad) (slice_get rules.now.machine.spots spot) false }
{
    match rules.machine.spots.items().get(spot as usize) {
        Some(spot) => spot.bad,
        None => false,
    }
}

/// Whether a number is this one.
pub fn is_number(number: Option<u16>, other: u16) -> bool
    ensures { result ≡ world.is_number number other }
{
    match number {
        Some(number) => number == other,
        None => false,
    }
}

/// Whether a list has a number.
pub fn has(list: &[u32], number: u32) -> bool
    ensures { result ≡ world.has list.now number }
{
    list.iter().any(|other| *other == number)
}

/// Whether a list is empty.
pub fn is_nothing(offers: &[u32]) -> bool
    ensures { result ≡ next.has_nothing offers.now }
{
    match offers {
        [] => true,
        [..] => false,
    }
}

/// The number of the spot of a name.
pub fn spot_named(rules: &Rules, name: &[u8]) -> Option<u16>
    ensures { position (λ x. bytes_eq x.name name.now) rules.now.machine.spots ≡ result }
{
    for (place, spot) in rules.machine.spots.items().iter().enumerate() {
        if spot.name.bytes() == name {
            return Some(place as u16);
        }
    }
    None
}

/// The number of the attribute of a name.
pub fn attr_named(rules: &Rules, name: &[u8]) -> Option<u32>
    ensures { position (λ a. bytes_eq a.name name.now) rules.now.tables.attrs ≡ result }
{
    for (place, attr) in rules.tables.attrs.items().iter().enumerate() {
        if attr.name.bytes() == name {
            return Some(place as u32);
        }
    }
    None
}
