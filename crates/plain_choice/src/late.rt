//! The late spots that finalizers show.
ghost use Rattle.std.specs.Prelude.{◌≡◌, ◌≤◌, false, length, slice_get};
ghost use Rattle.std.specs.Option.{option_map_or};
ghost use Rattle.run_rules.specs.Next as next;
ghost use Rattle.plain_choice.specs.Late.{is_late_below, shown_by};
ghost use Rattle.plain_search.specs.Open.{Follows};
ghost use Rattle.plain_world.specs.Plain.{world_of};

use cf_types::Place;
use plain_search::{Seeker, arrival};
use plain_world::{
    Plain, Rules, device_at, driver_of, has, is_number, offered, place_of, stretch_at,
};
use run_rules::{Deed, Dev};

fn offers_place(offered: &[u32], place: Place) -> bool
    ensures { result ≡ next.offers_place offered.now place }
{
    match place {
        Place::Root => false,
        Place::At(attr) => has(offered, attr),
    }
}

/// Whether a spot is below a device, on an attribute that the device offers.
pub fn hangs_below(rules: &Rules, device: Dev, spot: u16) -> bool
    ensures { result ≡ option_map_or (next.hangs_below rules.now device) (slice_get rules.now.machine.spots spot) false }
{
    match rules.machine.spots.items().get(spot as usize) {
        Some(spot) => {
            is_number(spot.parent, device.spot)
                && offers_place(offered(rules, driver_of(rules, device.row)), spot.place)
        }
        None => false,
    }
}

/// Whether a finalizer of a device would show a spot.
fn is_late_below(rules: &Rules, plain: &Plain, device: Dev, spot: u16) -> bool
    ensures { result ≡ is_late_below (world_of rules.now plain.now) device spot }
{
    plain.hidden.has(spot) && !plain.absent.has(spot) && hangs_below(rules, device, spot)
}

/// The first spot that is late, hidden and present, and is below a device. It costs a look at each spot of the stretch below the
/// device.
#[tactic(auto, unfolding(run_rules::specs::Next::late_spot))]
fn late_spot(rules: &Rules, plain: &Plain, device: Dev) -> Option<u16>
    ensures { next.late_spot (world_of rules.now plain.now) device ≡ result }
{
    let below = stretch_at(rules.stretches, Some(device.spot));
    let end = below.end.min(rules.machine.spots.len() as u16);
    for spot in below.first..end {
        if is_late_below(rules, plain, device, spot) {
            return Some(spot);
        }
    }
    None
}

/// The spot that the finalizer of a device shows.
fn shown_by(rules: &Rules, plain: &Plain, serial: u64) -> Option<u16>
    ensures { shown_by (world_of rules.now plain.now) serial ≡ result }
{
    match device_at(&plain.live, serial) {
        Some(device) => late_spot(rules, plain, device),
        None => None,
    }
}

/// What the finalizer of a device does. See config_finalize_register(9).
#[tactic(auto, unfolding(run_rules::specs::Next::finalise))]
pub fn finalise(
    seeker: &Seeker,
    plain: &Plain,
    serial: u64,
    listed: Option<u64>,
    anew: bool,
) -> Deed
    requires few { length plain.now.live.devices ≤ 1024 }
    requires follows { Follows seeker.now plain.now.live.devices }
    ensures { next.finalise (world_of seeker.now.rules.now plain.now) serial listed anew ≡ result }
{
    match shown_by(seeker.rules, plain, serial) {
        None => Deed::Finalise {
            of: serial,
            shown: None,
            got: None,
            listed,
            anew,
        },
        Some(spot) => Deed::Finalise {
            of: serial,
            shown: Some(spot),
            got: arrival(
                seeker,
                &plain.live,
                serial,
                place_of(seeker.rules, spot),
                spot,
            ),
            listed,
            anew,
        },
    }
}
