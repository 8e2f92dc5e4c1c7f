ghost use Rattle.std.specs.Prelude.{◌≡◌, ◌<◌, ◌≤◌, [], ◌∷◌, true, false, length, map, option_map, bytes_eq, All, IfOk, IfSome, MatchOption};
ghost use Rattle.std.specs.List.{list_any};
ghost use Rattle.cf_names.specs.Indexed.{with_attach};
ghost use Rattle.cf_types.specs.Lookups.{attr_number};
ghost use Rattle.config_rules.specs.Fault.{attr_numbers, has_attr, has_device, is_pseudo, lacks_attr};
ghost use Rattle.config_rules.specs.Fault.{attach_fault, place_fault, places_fault, repeats, repeats_locator};
ghost use Rattle.cf_declare.specs.Declare.{attach_named, place_named};
ghost use Rattle.cf_declare.specs.Judging.{Judges, Takes};

use crate::lookup::{attr_named, is_root, numbered_attr};
use cf_names::Catalog;
use cf_types::code::configuration as code;
use cf_types::{Attach, Few, List, Locator, Memory, Name, Place};
use std::alloc::Global;

pub fn has_attr(declared: &Catalog, name: &Name) -> bool
    ensures { result ≡ has_attr declared.now name.now }
{
    declared.attr_number(name).is_some()
}

pub fn has_device(declared: &Catalog, name: &Name) -> bool
    ensures { result ≡ has_device declared.now name.now }
{
    declared.device_number(name).is_some()
}

/// The number of an attribute, as the only one of a list; `None` if the attribute is not there.
#[inline(always)]
fn only_number(declared: &Catalog, name: &Name) -> Option<Few<u32>>
    requires { length declared.now.attrs ≤ 65536 }
    ensures { result ≡ option_map (λ number. number ∷ []) (attr_number declared.now.attrs name.now) }
{
    match declared.attr_number(name) {
        Some(number) => Some(Few::one(number as u32)),
        None => None,
    }
}

/// The numbers of these attributes; `None` if one of them is not there.
pub fn known_numbers(
    alloc: Global,
    declared: &Catalog,
    names: &[Name],
) -> Result<Option<Few<u32>>, Memory>
    requires { length declared.now.attrs ≤ 65536 }
    ensures found { IfOk result (λ found. MatchOption found (lacks_attr declared.now names.now ≡ true)
        (λ numbers. (lacks_attr declared.now names.now ≡ false) × (numbers ≡ attr_numbers declared.now names.now))) }
    ensures within { IfOk result (λ found. IfSome found (λ numbers. All (λ a. a < length declared.now.attrs) numbers)) }
{
    if let [name] = names {
        return Ok(only_number(declared, name));
    }
    let mut numbers = Vec::with_capacity(alloc, names.len())?;
    for name in names {
        let Some(number) = declared.attr_number(name) else {
            return Ok(None);
        };
        numbers.push(number as u32)?;
    }
    Ok(Some(Few::from_vec(numbers)))
}

/// Whether a locator is given twice in a list.
pub fn repeats_locator(locators: &Option<List<Locator>>) -> bool
    ensures { result ≡ repeats_locator locators.now }
{
    match locators {
        Some(locators) => repeats(locators.items()),
        None => false,
    }
}

#[tactic(auto, using(crate::proofs::FaultLemmas::any_map))]
fn repeats(locators: &[Locator]) -> bool
    ensures { result ≡ repeats (map (λ l. l.name) locators.now) }
{
    let mut left = locators;
    while let Some((first, rest)) = left.split_first() {
        if is_named(rest, first.name.bytes()) {
            return true;
        }
        left = rest;
    }
    false
}

fn is_named(locators: &[Locator], name: &[u8]) -> bool
    ensures { result ≡ list_any (λ l. bytes_eq l.name name.now) locators.now }
{
    locators.iter().any(|locator| locator.name.bytes() == name)
}

/// The place of a name, or its code: unknown, or no interface attribute.
fn place_found(declared: &Catalog, name: &Name) -> Result<Place, u8>
    requires { length declared.now.attrs ≤ 65536 }
    ensures { Judges (place_fault declared.now name.now) (place_named declared.now name.now) result }
{
    if is_root(name.bytes()) {
        return Ok(Place::Root);
    }
    match numbered_attr(declared, name) {
        Some((number, attr)) => {
            if attr.iface {
                Ok(Place::At(number as u32))
            } else {
                Err(code::NO_INTERFACE)
            }
        }
        None => Err(code::UNKNOWN_ATTRIBUTE),
    }
}

/// The place of a name, as the only one of a list, or its code.
#[inline(always)]
fn only_place(declared: &Catalog, name: &Name) -> Result<Few<Place>, u8>
    requires { length declared.now.attrs ≤ 65536 }
    ensures { Judges (places_fault declared.now (name.now ∷ [])) (map (place_named declared.now) (name.now ∷ [])) result }
{
    match place_found(declared, name) {
        Ok(place) => Ok(Few::one(place)),
        Err(code) => Err(code),
    }
}

/// The places of these names, or the first code of them.
fn places_found(
    alloc: Global,
    declared: &Catalog,
    names: &[Name],
) -> Result<Result<Few<Place>, u8>, Memory>
    requires { length declared.now.attrs ≤ 65536 }
    ensures { IfOk result (Judges (places_fault declared.now names.now) (map (place_named declared.now) names.now)) }
{
    if let [name] = names {
        return Ok(only_place(declared, name));
    }
    let mut places = Vec::with_capacity(alloc, names.len())?;
    for name in names {
        match place_found(declared, name) {
            Ok(place) => places.push(place)?,
            Err(code) => return Ok(Err(code)),
        }
    }
    Ok(Ok(Few::from_vec(places)))
}

/// What an `attach` statement says: the device, the places, the name of the attachment, and the attributes that it names.
#[derive(Clone, Copy)]
pub struct Attaching<'a> {
    pub device: &'a Name,
    pub places: &'a [Name],
    pub name: &'a Name,
    pub needs: &'a [Name],
}

/// Takes an attachment of a device under a name: its first code, or else it is added.
pub fn take_attach(
    alloc: Global,
    declared: &mut Catalog,
    said: &Attaching<'_>,
) -> Result<Option<u8>, Memory>
    requires attrs { length declared.old.attrs ≤ 65536 }
    requires devices { length declared.old.devices ≤ 65536 }
    ensures { IfOk result (Takes (attach_fault declared.old said.now.device.now said.now.places.now said.now.name.now said.now.needs.now) declared.old
        (with_attach declared.old (attach_named declared.old said.now.device.now said.now.places.now said.now.name.now said.now.needs.now)) declared.new) }
{
    let Attaching {
        device,
        places,
        name,
        needs,
    } = *said;
    let Some(number) = declared.device_number(device) else {
        return Ok(Some(code::UNKNOWN_DEVICE));
    };
    let places = match places_found(alloc, declared, places)? {
        Ok(places) => places,
        Err(code) => return Ok(Some(code)),
    };
    if is_root(name.bytes()) || declared.has_attach(name) {
        return Ok(Some(code::NAME_TAKEN));
    }
    let Some(needs) = known_numbers(alloc, declared, needs)? else {
        return Ok(Some(code::UNKNOWN_ATTRIBUTE));
    };
    let attach = Attach {
        name: name.clone()?,
        device: number as u32,
        places,
        needs,
    };
    declared.add_attach(alloc, attach)?;
    Ok(None)
}

/// Whether the attribute of this name is that of a pseudo-device.
pub fn is_pseudo(declared: &Catalog, name: &Name) -> bool
    ensures { result ≡ is_pseudo declared.now name.now }
{
    match attr_named(declared, name) {
        Some(attr) => attr.pseudo,
        None => false,
    }
}
