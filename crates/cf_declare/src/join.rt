ghost use Rattle.std.specs.Prelude.{◌≡◌, ◌==◌, ◌<◌, ◌≤◌, [], length, find, is_some, All, IfSome};
ghost use Rattle.std.specs.List.{list_any};
ghost use Rattle.cf_types.specs.Locators.{locators_at};
ghost use Rattle.cf_types.specs.Offers.{offers};
ghost use Rattle.cf_types.specs.Lookups.{attr_number};
ghost use Rattle.config_rules.specs.Joined.{attr_target, target_of, suits, spots_of, fill, join, parent_of};
ghost use Rattle.attr_graph.specs.Graphs.{IsGraphOf};
ghost use Rattle.cf_names.specs.Attaches.{attaches_of};
ghost use Rattle.cf_declare.specs.Graphs.{LocatorsFit, placed_at};

use crate::spot::noted_place;
use attr_graph::Graph;
use cf_names::{Catalog, MAX_SCANNED};
use cf_types::code::configuration as code;
use cf_types::{AtSpec, AttachPlace, GivenLoc, Joined, Locs, Name, ParentSpec, Place, Target};
use locator_rules::fill;

/// An attribute that an instance attaches to: unknown, no interface attribute, or written with a unit.
fn attr_target(declared: &Catalog, name: &Name, unit: Option<u32>) -> Result<Target, u8>
    requires { length declared.now.attrs ≤ 65536 }
    ensures { result ≡ attr_target declared.now unit (attr_number declared.now.attrs name.now) }
{
    let Some(number) = declared.attr_number(name) else {
        return Err(code::UNKNOWN_ATTRIBUTE);
    };
    if !declared.attrs()[number].iface {
        return Err(code::NO_INTERFACE);
    }
    if unit.is_some() {
        return Err(code::UNIT_ON_ATTRIBUTE);
    }
    Ok(Target::On(number as u32))
}

/// What an instance attaches to. A name that is a device and an attribute is read as the device.
fn target_of(declared: &Catalog, at: &AtSpec) -> Result<Target, u8>
    requires attrs { length declared.now.attrs ≤ 65536 }
    requires devices { length declared.now.devices ≤ 65536 }
    ensures { result ≡ target_of declared.now at.now }
{
    match at {
        AtSpec::Root => Ok(Target::AtRoot),
        AtSpec::Named { base, unit } => match declared.device_number(base) {
            Some(device) => Ok(Target::Below(ParentSpec {
                device: device as u32,
                unit: *unit,
            })),
            None => attr_target(declared, base, *unit),
        },
    }
}

/// Whether a device offers an attribute.
fn offers(declared: &Catalog, graph: &Graph, device: u32, attr: u32) -> bool
    requires { IsGraphOf declared.now graph.now }
    ensures { result ≡ offers declared.now.attrs declared.now.devices device attr }
{
    if device as usize >= declared.devices().len() {
        return false;
    }
    graph.offers(device, attr)
}

/// Whether a place is what an instance attaches to.
fn suits(declared: &Catalog, graph: &Graph, target: Target, place: Place) -> bool
    requires { IsGraphOf declared.now graph.now }
    ensures { result ≡ suits declared.now target place }
{
    match (target, place) {
        (Target::AtRoot, Place::Root) => true,
        (Target::Below(parent), Place::At(attr)) => offers(declared, graph, parent.device, attr),
        (Target::On(wanted), Place::At(attr)) => attr == wanted,
        (Target::AtRoot, Place::At(_)) => false,
        (Target::Below(_), Place::Root) => false,
        (Target::On(_), Place::Root) => false,
    }
}

/// The first of these places that suits.
fn suitable(declared: &Catalog, graph: &Graph, target: Target, places: &[Place]) -> Option<Place>
    requires { IsGraphOf declared.now graph.now }
    ensures { result ≡ find (suits declared.now target) places.now }
{
    for place in places {
        if suits(declared, graph, target, *place) {
            return Some(*place);
        }
    }
    None
}

/// The first place of the attachment of this number that suits.
fn place_of(declared: &Catalog, graph: &Graph, target: Target, number: usize) -> Option<AttachPlace>
    requires graph { IsGraphOf declared.now graph.now }
    requires few { length declared.now.attaches ≤ 65536 }
    requires within { number < length declared.now.attaches }
    ensures { result ≡ placed_at declared.now target number }
{
    let attach = &declared.attaches()[number];
    let place = suitable(declared, graph, target, attach.places.items())?;
    Some(AttachPlace {
        attach: number as u32,
        place,
    })
}

/// The numbers of a device's attachments, if it has one.
fn attachments(declared: &Catalog, device: u32) -> Option<&[usize]>
    ensures some { is_some result ≡ list_any (λ a. a.device == device) declared.now.attaches }
    ensures numbers { IfSome result (λ numbers. numbers.now ≡ attaches_of declared.now.attaches device) }
    ensures within { IfSome result (λ numbers. All (λ n. n < length declared.now.attaches) numbers.now) }
{
    let numbers = declared.attaches_of(device);
    if numbers.is_empty() {
        return None;
    }
    Some(numbers)
}

/// The first of these attachments of a device, with its first place, that suits, by going over them.
fn attach_place(
    declared: &Catalog,
    graph: &Graph,
    target: Target,
    device: u32,
    numbers: &[usize],
) -> Option<AttachPlace>
    requires graph { IsGraphOf declared.now graph.now }
    requires few { length declared.now.attaches ≤ 65536 }
    requires numbers { numbers.now ≡ attaches_of declared.now.attaches device }
    requires within { All (λ n. n < length declared.now.attaches) numbers.now }
    ensures { result ≡ find (λ s. suits declared.now target s.place) (spots_of declared.now device) }
{
    for number in numbers {
        match place_of(declared, graph, target, *number) {
            Some(place) => return Some(place),
            None => {}
        }
    }
    None
}

/// Whether these are few attachments, each with few places.
fn are_few(declared: &Catalog, numbers: &[usize]) -> bool
    requires { All (λ n. n < length declared.now.attaches) numbers.now }
{
    if numbers.len() > MAX_SCANNED {
        return false;
    }
    for number in numbers {
        if declared.attaches()[*number].places.len() > MAX_SCANNED {
            return false;
        }
    }
    true
}

/// The first of these attachments of a device, with its first place, that suits: found by the notes of each place, if
/// there are any, else by going over the attachments, which are few then. Which way is taken affects only speed.
fn fitting_place(
    declared: &Catalog,
    graph: &Graph,
    target: Target,
    device: u32,
    numbers: &[usize],
) -> Option<AttachPlace>
    requires graph { IsGraphOf declared.now graph.now }
    requires few { length declared.now.attaches ≤ 65536 }
    requires numbers { numbers.now ≡ attaches_of declared.now.attaches device }
    requires within { All (λ n. n < length declared.now.attaches) numbers.now }
    ensures { result ≡ find (λ s. suits declared.now target s.place) (spots_of declared.now device) }
{
    let Some(spots) = declared.noted_spots() else {
        return attach_place(declared, graph, target, device, numbers);
    };
    if are_few(declared, numbers) {
        return attach_place(declared, graph, target, device, numbers);
    }
    noted_place(declared, graph, spots, target, device)
}

/// The locator values of an instance at a place.
#[inline(always)]
fn fill_at(declared: &Catalog, place: Place, pairs: &[GivenLoc]) -> Result<Locs, u8>
    requires { LocatorsFit declared.now }
    ensures { result ≡ fill (locators_at declared.now.attrs place) pairs.now }
{
    match place {
        Place::Root => fill_nothing(pairs),
        Place::At(attr) => match declared.attrs().get(attr as usize) {
            Some(attr) => fill(attr, pairs),
            None => fill_nothing(pairs),
        },
    }
}

/// The values of no locators: whatever is written is unknown.
fn fill_nothing(pairs: &[GivenLoc]) -> Result<Locs, u8>
    ensures { result ≡ fill [] pairs.now }
{
    if pairs.is_empty() {
        return Ok(Locs::make());
    }
    Err(code::UNKNOWN_LOCATOR)
}

/// What an instance joins, or its first code. It is inlined, since each call that it leaves copies the values once more.
#[inline(always)]
#[tactic(auto, unfolding(config_rules::specs::Joined::join))]
pub fn join(
    declared: &Catalog,
    graph: &Graph,
    base: &Name,
    at: &AtSpec,
    pairs: &[GivenLoc],
) -> Result<Joined, u8>
    requires attrs { length declared.now.attrs ≤ 65536 }
    requires devices { length declared.now.devices ≤ 65536 }
    requires attaches { length declared.now.attaches ≤ 65536 }
    requires graph { IsGraphOf declared.now graph.now }
    requires locators { LocatorsFit declared.now }
    ensures { result ≡ join declared.now base.now at.now pairs.now }
{
    let Some(device) = declared.device_number(base) else {
        return Err(code::UNKNOWN_DEVICE);
    };
    let device = device as u32;
    let Some(numbers) = attachments(declared, device) else {
        return Err(code::NO_ATTACHMENT);
    };
    let target = target_of(declared, at)?;
    let Some(spot) = fitting_place(declared, graph, target, device, numbers) else {
        return Err(code::NO_FITTING_ATTACHMENT);
    };
    let locs = fill_at(declared, spot.place, pairs)?;
    Ok(Joined {
        device,
        attach: spot.attach,
        place: spot.place,
        parent: parent_of(target),
        locs,
    })
}

/// The parent device that is named, if one is.
fn parent_of(target: Target) -> Option<ParentSpec>
    ensures { result ≡ parent_of target }
{
    match target {
        Target::Below(parent) => Some(parent),
        Target::AtRoot => None,
        Target::On(_) => None,
    }
}
