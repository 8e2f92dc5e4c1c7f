//! Which attributes the rows and the pseudo-devices of tables need.
ghost use Rattle.std.specs.Prelude.{◌≡◌, ℕ, Bool, List as Items, ◌<◌, ◌≤◌, [], ◌∷◌, ◌++◌, length, map, flat_map, false, if◌then◌else◌, All, IfOk, OnOk};
ghost use Rattle.std.specs.List.{slice_index_or};
ghost use Rattle.std.specs.Option.{option_map_or};
ghost use Rattle.cf_types.specs.Gather.{is_in};
ghost use Rattle.cf_types.specs.Offers.{named_by, needs_at, nodes_of, walks, AreEarlier};
ghost use Rattle.config_rules.specs.Formed.{FormedTables};
ghost use Rattle.config_rules.specs.Select.{has_name};
ghost use Rattle.file_rules.specs.Chosen.{attach_in, attr_name, device_in, named_attrs, reached_attrs, row_attrs, wanted_attrs};
ghost use Rattle.file_select.specs.Marks.{AddsMarks, AreSeen, HasSeen};

use crate::texts::TextSet;
use cf_types::{Attach, Attr, Device, Memory, Pseudo, Row, Tables};
use std::alloc::Global;

/// The device of a row.
pub fn device_of<'a>(devices: &'a [Device], row: &Row) -> &'a Device
    requires { row.now.device < length devices.now }
    ensures { device_in devices.now row.now ≡ result.now ∷ [] }
{
    &devices[row.device as usize]
}

/// The attachment of a row.
pub fn attach_of<'a>(attaches: &'a [Attach], row: &Row) -> &'a Attach
    requires { row.now.attach < length attaches.now }
    ensures { attach_in attaches.now row.now ≡ result.now ∷ [] }
{
    &attaches[row.attach as usize]
}

/// Marks these attributes.
fn mark_all(marks: &mut [bool], attrs: &[u32])
    requires { All (λ a. a < length marks.old) attrs.now }
    ensures { AddsMarks marks.old marks.new attrs.now }
{
    for attr in attrs {
        marks[*attr as usize] = true;
    }
}

/// Marks an attribute, if there is one.
fn mark_own(marks: &mut [bool], own: Option<u32>)
    requires { All (λ a. a < length marks.old) (option_map_or (λ a. a ∷ []) own []) }
    ensures { AddsMarks marks.old marks.new (option_map_or (λ a. a ∷ []) own []) }
{
    if let Some(own) = own {
        marks[own as usize] = true;
    }
}

/// Marks the attributes of a device, its own too.
fn mark_device(marks: &mut [bool], device: &Device)
    requires { All (λ a. a < length marks.old) (named_by device.now) }
    ensures { AddsMarks marks.old marks.new (named_by device.now) }
{
    mark_own(marks, device.own);
    mark_all(marks, device.needs.items());
}

/// For each device and each attachment whether its attributes are marked already.
#[derive(Drop)]
struct Seen {
    devices: Vec<bool>,
    attaches: Vec<bool>,
}

/// So many marks, none of which is set.
fn no_marks(alloc: Global, count: usize) -> Result<Vec<bool>, Memory>
    ensures size { IfOk result (λ marks. length marks.items ≡ count) }
    ensures none { (i : ℕ) → IfOk result (λ marks. slice_index_or marks.items i false ≡ false) }
{
    Ok(vec![in alloc; false; count]?)
}

/// None of the devices and attachments was seen.
fn none_seen(alloc: Global, tables: &Tables) -> Result<Seen, Memory>
    ensures { (marks : Items Bool) → IfOk result (HasSeen tables.now marks) }
{
    let devices = no_marks(alloc, tables.devices.len())?;
    let attaches = no_marks(alloc, tables.attaches.len())?;
    Ok(Seen { devices, attaches })
}

/// Marks the attributes of the device of a row, unless it was seen before.
fn mark_new_device(marks: &mut [bool], seen: &mut Vec<bool>, devices: &[Device], row: &Row)
    requires device { row.now.device < length devices.now }
    requires within { All (λ a. a < length marks.old) (flat_map named_by (device_in devices.now row.now)) }
    requires seen { AreSeen named_by devices.now seen.old.items marks.old }
    ensures marks { AddsMarks marks.old marks.new (flat_map named_by (device_in devices.now row.now)) }
    ensures seen { AreSeen named_by devices.now seen.new.items marks.new }
{
    let place = row.device as usize;
    if seen[place] {
        return;
    }
    seen[place] = true;
    mark_device(marks, device_of(devices, row));
}

/// Marks the attributes of the attachment of a row, unless it was seen before.
fn mark_new_attach(marks: &mut [bool], seen: &mut Vec<bool>, attaches: &[Attach], row: &Row)
    requires attach { row.now.attach < length attaches.now }
    requires within { All (λ a. a < length marks.old) (flat_map (λ x. x.needs) (attach_in attaches.now row.now)) }
    requires seen { AreSeen (λ x. x.needs) attaches.now seen.old.items marks.old }
    ensures marks { AddsMarks marks.old marks.new (flat_map (λ x. x.needs) (attach_in attaches.now row.now)) }
    ensures seen { AreSeen (λ x. x.needs) attaches.now seen.new.items marks.new }
{
    let place = row.attach as usize;
    if seen[place] {
        return;
    }
    seen[place] = true;
    mark_all(marks, attach_of(attaches, row).needs.items());
}

/// Marks the attributes of a row.
fn mark_row(marks: &mut [bool], seen: &mut Seen, tables: &Tables, row: &Row)
    requires formed { FormedTables tables.now }
    requires device { row.now.device < length tables.now.devices }
    requires attach { row.now.attach < length tables.now.attaches }
    requires room { length marks.old ≡ length tables.now.attrs }
    requires seen { HasSeen tables.now marks.old seen.old }
    ensures marks { AddsMarks marks.old marks.new (row_attrs tables.now row.now) }
    ensures seen { HasSeen tables.now marks.new seen.new }
{
    mark_new_device(marks, &mut seen.devices, tables.devices.items(), row);
    mark_new_attach(marks, &mut seen.attaches, tables.attaches.items(), row);
}

/// Marks the attributes of the rows: those of a device or an attachment once, however many rows it has.
fn mark_rows(alloc: Global, marks: &mut [bool], tables: &Tables) -> Result<(), Memory>
    requires formed { FormedTables tables.now }
    requires room { length marks.old ≡ length tables.now.attrs }
    ensures { OnOk result (AddsMarks marks.old marks.new (flat_map (row_attrs tables.now) tables.now.rows)) }
{
    let mut seen = none_seen(alloc, tables)?;
    for row in tables.rows.items() {
        mark_row(marks, &mut seen, tables, row);
    }
    Ok(())
}

/// The names of pseudo-devices.
fn pseudo_names(alloc: Global, pseudos: &[Pseudo]) -> Result<TextSet, Memory>
    ensures { IfOk result (λ set. (name : Items ℕ) → has_name set name ≡ has_name (map (λ p. p.name) pseudos.now) name) }
{
    let mut names = TextSet::make(alloc);
    for pseudo in pseudos {
        names.insert(alloc, pseudo.name.bytes())?;
    }
    Ok(names)
}

/// Marks an attribute, if it is wanted.
fn mark_wanted(marks: &mut [bool], place: usize, is_wanted: bool)
    requires { place < length marks.old }
    ensures { AddsMarks marks.old marks.new (if is_wanted then place ∷ [] else []) }
{
    if is_wanted {
        marks[place] = true;
    }
}

/// Marks the attributes of these names.
fn mark_named(marks: &mut [bool], attrs: &[Attr], names: &TextSet)
    requires { length marks.old ≡ length attrs.now }
    ensures { AddsMarks marks.old marks.new (named_attrs attrs.now names.now) }
{
    for (place, attr) in attrs.iter().enumerate() {
        mark_wanted(marks, place, names.contains(attr.name.bytes()));
    }
}

/// Marks the attributes that marked ones need, and so on; it goes from the last to the first, because each needs
/// earlier ones.
fn mark_needs(marks: &mut [bool], attrs: &[Attr])
    requires room { length marks.old ≡ length attrs.now }
    requires earlier { AreEarlier (nodes_of attrs.now) }
    ensures size { length marks.new ≡ length marks.old }
    ensures marked { (wanted : Items ℕ) → All (λ a. a < length attrs.now) wanted
        → ((a : ℕ) → slice_index_or marks.old a false ≡ is_in a wanted)
        → (a : ℕ) → slice_index_or marks.new a false ≡ is_in a (walks (nodes_of attrs.now) wanted) }
{
    let mut next = attrs.len();
    while next > 0 {
        next -= 1;
        if marks[next] {
            mark_all(marks, attrs[next].needs.items());
        }
    }
}

/// Marks the attributes that a row or a pseudo-device needs; none is marked before.
fn mark_reached(alloc: Global, tables: &Tables, marks: &mut [bool]) -> Result<(), Memory>
    requires formed { FormedTables tables.now }
    requires room { length marks.old ≡ length tables.now.attrs }
    requires none { (a : ℕ) → slice_index_or marks.old a false ≡ false }
    ensures size { length marks.new ≡ length marks.old }
    ensures marked { OnOk result ((a : ℕ) → slice_index_or marks.new a false ≡ is_in a (reached_attrs tables.now)) }
{
    let names = pseudo_names(alloc, tables.pseudos.items())?;
    mark_rows(alloc, marks, tables)?;
    mark_named(marks, tables.attrs.items(), &names);
    mark_needs(marks, tables.attrs.items());
    Ok(())
}

/// For each attribute whether a row or a pseudo-device needs it.
pub fn reached_marks(alloc: Global, tables: &Tables) -> Result<Vec<bool>, Memory>
    requires { FormedTables tables.now }
    ensures size { IfOk result (λ marks. length marks.items ≡ length tables.now.attrs) }
    ensures marked { IfOk result (λ marks. (a : ℕ) → slice_index_or marks.items a false ≡ is_in a (reached_attrs tables.now)) }
{
    let mut marks = vec![in alloc; false; tables.attrs.len()]?;
    mark_reached(alloc, tables, &mut marks)?;
    Ok(marks)
}
