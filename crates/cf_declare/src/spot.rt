//! The first spot of a device that suits an instance, by the first spots of the device at each place.
ghost use Rattle.std.specs.Prelude.{◌≡◌, ◌==◌, ◌&&◌, List, find, option_map};
ghost use Rattle.attr_graph.specs.Graphs.{IsGraphOf};
ghost use Rattle.cf_names.specs.Spots.{AreSpots, Spot, all_spots, first_spot};
ghost use Rattle.cf_types.specs.Offers.{interfaces};
ghost use Rattle.config_rules.specs.Joined.{spots_of, suits};
ghost use Rattle.cf_declare.specs.FirstSpots.{earlier, offered, place_of};

use attr_graph::Graph;
use cf_names::{Catalog, FirstSpot, SpotKey, Spots};
use cf_types::{AttachPlace, Place, Target};

/// The earlier one of two spots.
fn earlier(spot: Option<FirstSpot>, other: Option<FirstSpot>) -> Option<FirstSpot>
    ensures { result ≡ earlier spot other }
{
    match (spot, other) {
        (None, other) => other,
        (Some(spot), None) => Some(spot),
        (Some(spot), Some(other)) => if other.rank < spot.rank {
            Some(other)
        } else {
            Some(spot)
        },
    }
}

/// The interface list of a device; empty if there is no such device.
fn interfaces_of<'a>(declared: &Catalog, graph: &'a Graph, device: u32) -> &'a [u32]
    requires { IsGraphOf declared.now graph.now }
    ensures { result.now ≡ interfaces declared.now.attrs declared.now.devices device }
{
    if device as usize >= declared.devices().len() {
        return &[];
    }
    graph.interfaces(device)
}

/// The first spot of a device at one of these attributes.
fn first_offered(spots: &Spots, device: u32, attrs: &[u32]) -> Option<FirstSpot>
    ensures { (all : List Spot) → AreSpots spots.now all → result ≡ first_spot (λ s. (s.key.device == device) && offered attrs.now s.key.place) all }
{
    let mut first = None;
    for &attr in attrs {
        let key = SpotKey {
            device,
            place: Place::At(attr),
        };
        first = earlier(first, spots.first_at(key));
    }
    first
}

/// The first spot of a device that suits.
fn first_suiting(
    declared: &Catalog,
    graph: &Graph,
    spots: &Spots,
    target: Target,
    device: u32,
) -> Option<FirstSpot>
    requires graph { IsGraphOf declared.now graph.now }
    requires spots { AreSpots spots.now (all_spots declared.now.attaches) }
    ensures { result ≡ first_spot (λ s. (s.key.device == device) && suits declared.now target s.key.place) (all_spots declared.now.attaches) }
{
    match target {
        Target::AtRoot => spots.first_at(SpotKey {
            device,
            place: Place::Root,
        }),
        Target::On(attr) => spots.first_at(SpotKey {
            device,
            place: Place::At(attr),
        }),
        Target::Below(parent) => {
            first_offered(spots, device, interfaces_of(declared, graph, parent.device))
        }
    }
}

/// The first attachment of a device, with its first place, that suits. It looks only at what the parent offers.
pub fn noted_place(
    declared: &Catalog,
    graph: &Graph,
    spots: &Spots,
    target: Target,
    device: u32,
) -> Option<AttachPlace>
    requires graph { IsGraphOf declared.now graph.now }
    requires spots { AreSpots spots.now (all_spots declared.now.attaches) }
    ensures { result ≡ find (λ s. suits declared.now target s.place) (spots_of declared.now device) }
{
    match first_suiting(declared, graph, spots, target, device) {
        Some(spot) => Some(AttachPlace {
            attach: spot.attach,
            place: spot.place,
        }),
        None => None,
    }
}
