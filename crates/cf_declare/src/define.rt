ghost use Rattle.std.specs.Prelude.{◌≡◌, ◌==◌, ◌<◌, ◌+◌, ◌&&◌, ◌++◌, ◌∷◌, [], true, false, not, nat_lt, length, filter, find, if◌then◌else◌, is_some, unwrap_or, All, IfOk, OnOk};
ghost use Rattle.std.specs.List.{list_any};
ghost use Rattle.std.specs.Option.{option_to_list};
ghost use Rattle.cf_types.specs.Offers.{firsts, interfaces_of};
ghost use Rattle.cf_types.specs.declared.stmt.Stmt.TheVariants as stmt;
ghost use Rattle.cf_names.specs.Indexed.{with_attr};
ghost use Rattle.attr_graph.specs.Graphs.{IsGraphOf};
ghost use Rattle.config_rules.specs.Declared.{attr};
ghost use Rattle.config_rules.specs.Fault.{attr_numbers, class_fault, is_class, define_fault, device_fault};
ghost use Rattle.cf_declare.specs.Declare.{declare, device_named, own_attr};
ghost use Rattle.cf_declare.specs.Judging.{Takes};

use crate::entry::{Entry, class_attr, defined, own_number};
use crate::fault::{has_attr, has_device, known_numbers, repeats_locator};
use crate::grow::{add_attr, add_device};
use crate::lookup::is_root;
use attr_graph::Graph;
use cf_names::Catalog;
use cf_types::code::configuration as code;
use cf_types::{Device, Few, Memory, Name};
use std::alloc::Global;

/// Whether the interface list of these attributes, with its own if there is one, would have more than 64 entries.
fn offers_too_much(graph: &mut Graph, own: bool, numbers: &[u32]) -> Result<bool, Memory>
    requires { All (λ a. a < length graph.old.attrs) numbers.now }
    ensures many { IfOk result (λ many. many ≡ nat_lt 64 ((if own then 1 else 0) + length (interfaces_of graph.old.attrs numbers.now))) }
    ensures same { graph.new ≡ graph.old }
{
    let fits = graph.fits(own, numbers)?;
    Ok(!fits)
}

/// Takes a statement of `define` or `defpseudo`: its first code, or else its attribute is added.
pub fn take_define(
    alloc: Global,
    declared: &mut Catalog,
    graph: &mut Graph,
    entry: &Entry<'_>,
    pseudo: bool,
) -> Result<Option<u8>, Memory>
    requires few { length declared.old.attrs < 65536 }
    requires graph { IsGraphOf declared.old graph.old }
    ensures takes { IfOk result (Takes (define_fault declared.old entry.now.name.now entry.now.locators.now entry.now.needs.now) declared.old
        (with_attr declared.old (attr entry.now.name.now (is_some entry.now.locators.now) false pseudo (unwrap_or entry.now.locators.now [])
        (attr_numbers declared.old entry.now.needs.now))) declared.new) }
    ensures graph { IfOk result (λ _. IsGraphOf declared.new graph.new) }
{
    let Entry {
        name,
        locators,
        needs,
    } = *entry;
    if is_root(name.bytes()) || has_attr(declared, name) {
        return Ok(Some(code::NAME_TAKEN));
    }
    if repeats_locator(locators) {
        return Ok(Some(code::LOCATOR_TWICE));
    }
    let Some(numbers) = known_numbers(alloc, declared, needs.items())? else {
        return Ok(Some(code::UNKNOWN_ATTRIBUTE));
    };
    if offers_too_much(graph, locators.is_some(), numbers.items())? {
        return Ok(Some(code::TOO_MANY_INTERFACES));
    }
    let attr = defined(alloc, name, pseudo, locators, numbers)?;
    add_attr(alloc, declared, graph, attr)?;
    Ok(None)
}

/// Takes a device class: its code, or else its attribute is added.
pub fn take_class(
    alloc: Global,
    declared: &mut Catalog,
    graph: &mut Graph,
    name: &Name,
) -> Result<Option<u8>, Memory>
    requires few { length declared.old.attrs < 65536 }
    requires graph { IsGraphOf declared.old graph.old }
    ensures takes { IfOk result (Takes (class_fault declared.old name.now) declared.old
        (with_attr declared.old (attr name.now false true false [] [])) declared.new) }
    ensures graph { IfOk result (λ _. IsGraphOf declared.new graph.new) }
{
    if is_root(name.bytes()) || has_attr(declared, name) {
        return Ok(Some(code::NAME_TAKEN));
    }
    add_attr(alloc, declared, graph, class_attr(alloc, name)?)?;
    Ok(None)
}

/// Whether one of these numbers is a device class other than this one.
fn has_other_class(declared: &Catalog, numbers: &[u32], class: u32) -> bool
    ensures { result ≡ list_any (λ a. is_class declared.now a && not (a == class)) numbers.now }
{
    numbers
        .iter()
        .any(|&number| is_class(declared, number) && number != class)
}

fn is_class(declared: &Catalog, attr: u32) -> bool
    ensures { result ≡ is_class declared.now attr }
{
    match declared.attrs().get(attr as usize) {
        Some(attr) => attr.class,
        None => false,
    }
}

fn first_class(declared: &Catalog, numbers: &[u32]) -> Option<u32>
    ensures { result ≡ find (is_class declared.now) numbers.now }
{
    numbers
        .iter()
        .copied()
        .find(|&number| is_class(declared, number))
}

/// Whether these attributes are of two device classes.
fn has_classes(declared: &Catalog, numbers: &[u32]) -> bool
    ensures { result ≡ nat_lt 1 (length (firsts (filter (is_class declared.now) numbers.now))) }
{
    match first_class(declared, numbers) {
        Some(class) => has_other_class(declared, numbers, class),
        None => false,
    }
}

/// Adds the interface attribute of a device, if it has braces.
fn add_own(
    alloc: Global,
    declared: &mut Catalog,
    graph: &mut Graph,
    entry: &Entry<'_>,
) -> Result<(), Memory>
    requires few { length declared.old.attrs < 65536 }
    requires graph { IsGraphOf declared.old graph.old }
    ensures added { OnOk result (declared.new ≡ record declared.old {
      attrs = declared.old.attrs
          ++ option_to_list (own_attr entry.now.name.now entry.now.locators.now);
    }) }
    ensures graph { OnOk result (IsGraphOf declared.new graph.new) }
{
    if entry.locators.is_none() {
        return Ok(());
    }
    let attr = defined(alloc, entry.name, false, entry.locators, Few::none(alloc))?;
    add_attr(alloc, declared, graph, attr)
}

/// Adds a device that names the attributes of these numbers, and its interface attribute, if it has braces.
fn add_entry(
    alloc: Global,
    declared: &mut Catalog,
    graph: &mut Graph,
    entry: &Entry<'_>,
    numbers: Few<u32>,
) -> Result<(), Memory>
    requires attrs { length declared.old.attrs < 65536 }
    requires devices { length declared.old.devices < 65536 }
    requires graph { IsGraphOf declared.old graph.old }
    requires known { All (λ a. a < length declared.old.attrs) numbers }
    ensures added { OnOk result (declared.new ≡ record declared.old {
      attrs = declared.old.attrs ++ option_to_list (own_attr entry.now.name.now entry.now.locators.now);
      devices = declared.old.devices ++ device_named declared.old entry.now.name.now entry.now.locators.now numbers ∷ [];
    }) }
    ensures graph { OnOk result (IsGraphOf declared.new graph.new) }
{
    let device = Device {
        name: entry.name.clone()?,
        own: own_number(declared, entry.locators),
        needs: numbers,
    };
    match add_own(alloc, declared, graph, entry) {
        Ok(()) => add_device(alloc, declared, graph, device),
        Err(stop) => {
            drop(device);
            Err(stop)
        }
    }
}

/// Takes a device: its first code, or else it is added.
pub fn take_device(
    alloc: Global,
    declared: &mut Catalog,
    graph: &mut Graph,
    entry: &Entry<'_>,
) -> Result<Option<u8>, Memory>
    requires attrs { length declared.old.attrs < 65536 }
    requires devices { length declared.old.devices < 65536 }
    requires graph { IsGraphOf declared.old graph.old }
    ensures takes { IfOk result (Takes (device_fault declared.old entry.now.name.now entry.now.locators.now entry.now.needs.now) declared.old
        (declare declared.old (stmt.Device entry.now.name.now entry.now.locators.now entry.now.needs.now)) declared.new) }
    ensures graph { IfOk result (λ _. IsGraphOf declared.new graph.new) }
{
    let Entry {
        name,
        locators,
        needs,
    } = *entry;
    if is_root(name.bytes())
        || has_device(declared, name)
        || (locators.is_some() && has_attr(declared, name))
    {
        return Ok(Some(code::NAME_TAKEN));
    }
    if repeats_locator(locators) {
        return Ok(Some(code::LOCATOR_TWICE));
    }
    let Some(numbers) = known_numbers(alloc, declared, needs.items())? else {
        return Ok(Some(code::UNKNOWN_ATTRIBUTE));
    };
    if has_classes(declared, numbers.items()) {
        return Ok(Some(code::SECOND_CLASS));
    }
    if offers_too_much(graph, locators.is_some(), numbers.items())? {
        return Ok(Some(code::TOO_MANY_INTERFACES));
    }
    add_entry(alloc, declared, graph, entry, numbers)?;
    Ok(None)
}
