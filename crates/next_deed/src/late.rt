//! The late spots that finalizers show.
ghost use Rattle.std.specs.Prelude.{◌≡◌, ◌<◌, length, find, false, slice_get};
ghost use Rattle.std.specs.Option.{option_map_or};
ghost use Rattle.cf_types.specs.Numbers.{below};
ghost use Rattle.run_rules.specs.Next as next;
ghost use Rattle.run_rules.specs.World as world;
ghost use Rattle.run_world.specs.Late as late;
ghost use Rattle.next_deed.specs.Turns.{is_late_at};

use crate::looks::{is_absent, is_hidden, offers_of, spot_count};
use cf_types::{Place, Spot};
use run_rules::Dev;
use run_world::{Going, has};

#[inline(always)]
fn is_number(value: Option<u16>, n: u16) -> bool
    ensures { result ≡ world.is_number value n }
{
    match value {
        Some(m) => m == n,
        None => false,
    }
}

#[inline(always)]
fn offers_place(offered: &[u32], place: Place) -> bool
    ensures { result ≡ next.offers_place offered.now place }
{
    match place {
        Place::Root => false,
        Place::At(attr) => has(offered, attr),
    }
}

/// Whether a spot is below the device, on an attribute that the device offers.
#[inline(always)]
fn is_below(going: &Going, device: Dev, spot: &Spot) -> bool
    ensures { result ≡ next.hangs_below going.now.setup device spot.now }
{
    if !is_number(spot.parent, device.spot) {
        return false;
    }
    offers_place(offers_of(going, device.row), spot.place)
}

/// The same for the spot of a number.
#[inline(always)]
fn hangs_below(going: &Going, device: Dev, spot: u16) -> bool
    ensures { result ≡ option_map_or (next.hangs_below going.now.setup device) (slice_get going.now.setup.machine.spots spot) false }
{
    match going.setup().machine.spots.items().get(spot as usize) {
        Some(s) => is_below(going, device, s),
        None => false,
    }
}

/// Whether a finalizer of the device would show the spot.
#[inline(always)]
fn is_late_below(going: &Going, device: Dev, spot: u16) -> bool
    ensures { is_late_at going.now device spot ≡ result }
{
    is_hidden(going, spot) && !is_absent(going, spot) && hangs_below(going, device, spot)
}

/// The first spot that is late, hidden and present, and is below the device. Only spots between the first and the last
/// one below it are looked at.
fn late_spot(going: &Going, device: Dev) -> Option<u16>
    ensures { find (is_late_at going.now device) (below (length going.now.setup.machine.spots)) ≡ result }
{
    let held = &going.held;
    let site = &held.site;
    let span = site.spans.below(Some(device.spot));
    let end = span.end.min(spot_count(going));
    for spot in span.first..end {
        if is_late_below(going, device, spot) {
            return Some(spot);
        }
    }
    None
}

/// The spot that the finalizer of a device shows.
pub fn shown_by(going: &Going, serial: u64) -> Option<u16>
    ensures { late.shown_by going.now serial ≡ result }
{
    match going.device(serial) {
        Some(d) => late_spot(going, d),
        None => None,
    }
}
