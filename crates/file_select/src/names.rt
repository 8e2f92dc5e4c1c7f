//! The names that tables choose.
ghost use Rattle.std.specs.Prelude.{◌≡◌, ℕ, List as Items, ◌<◌, false, if◌then◌else◌, [], ◌∷◌, map, filter, flat_map, length, All, IfOk, OnOk};
ghost use Rattle.std.specs.List.{slice_index_or};
ghost use Rattle.std.specs.Str.{str_to_ascii_lowercase};
ghost use Rattle.cf_types.specs.Numbers.{below};
ghost use Rattle.config_rules.specs.Formed.{FormedTables};
ghost use Rattle.config_rules.specs.Select.{has_name};
ghost use Rattle.file_rules.specs.Chosen.{AreChosen, attr_name, is_chosen, row_names};
ghost use Rattle.file_select.specs.Texts.{IsShort, with_text, with_texts};

use crate::marks::{attach_of, device_of, reached_marks};
use crate::texts::TextSet;
use cf_types::{Attr, Item, ItemList, List, Memory, Name, Row, Tables};
use std::alloc::Global;

/// Adds the names of the device and the attachment of a row.
fn insert_row(alloc: Global, names: &mut TextSet, tables: &Tables, row: &Row) -> Result<(), Memory>
    requires device { row.now.device < length tables.now.devices }
    requires attach { row.now.attach < length tables.now.attaches }
    ensures names { OnOk result (names.new ≡ with_texts names.old (row_names tables.now row.now)) }
    ensures short { OnOk result (All IsShort names.old → All IsShort names.new) }
{
    names.insert(alloc, device_of(tables.devices.items(), row).name.bytes())?;
    names.insert(alloc, attach_of(tables.attaches.items(), row).name.bytes())?;
    Ok(())
}

/// Adds the names of the devices and the attachments of the rows.
fn insert_rows(alloc: Global, names: &mut TextSet, tables: &Tables) -> Result<(), Memory>
    requires { FormedTables tables.now }
    ensures names { OnOk result (names.new ≡ with_texts names.old (flat_map (row_names tables.now) tables.now.rows)) }
    ensures short { OnOk result (All IsShort names.old → All IsShort names.new) }
{
    for row in tables.rows.items() {
        insert_row(alloc, names, tables, row)?;
    }
    Ok(())
}

/// Adds a name, if it is wanted.
fn insert_wanted(
    alloc: Global,
    names: &mut TextSet,
    is_wanted: bool,
    name: &Name,
) -> Result<(), Memory>
    ensures names { OnOk result (names.new ≡ with_texts names.old (if is_wanted then name.now ∷ [] else [])) }
    ensures short { OnOk result (All IsShort names.old → All IsShort names.new) }
{
    if is_wanted {
        names.insert(alloc, name.bytes())?;
    }
    Ok(())
}

/// Adds the names of the attributes that are marked.
fn insert_attrs(
    alloc: Global,
    names: &mut TextSet,
    attrs: &[Attr],
    marks: &[bool],
) -> Result<(), Memory>
    requires { length marks.now ≡ length attrs.now }
    ensures names { OnOk result (names.new ≡ with_texts names.old
        (map (attr_name attrs.now) (filter (λ a. slice_index_or marks.now a false) (below (length attrs.now))))) }
    ensures short { OnOk result (All IsShort names.old → All IsShort names.new) }
{
    for (place, attr) in attrs.iter().enumerate() {
        insert_wanted(alloc, names, marks[place], &attr.name)?;
    }
    Ok(())
}

/// Adds a name in lower case.
fn insert_lower(alloc: Global, names: &mut TextSet, name: &Name) -> Result<(), Memory>
    ensures names { OnOk result (names.new ≡ with_text names.old (str_to_ascii_lowercase name.now)) }
    ensures short { OnOk result (All IsShort names.old → All IsShort names.new) }
{
    let lower: Vec<u8> = name
        .bytes()
        .iter()
        .map(|byte| byte.to_ascii_lowercase())
        .collect(alloc)?;
    names.insert(alloc, &lower)?;
    Ok(())
}

/// Adds the names of items in lower case.
fn insert_items(alloc: Global, names: &mut TextSet, items: &[Item]) -> Result<(), Memory>
    ensures names { OnOk result (names.new ≡ with_texts names.old (map str_to_ascii_lowercase (map (λ i. i.name) items.now))) }
    ensures short { OnOk result (All IsShort names.old → All IsShort names.new) }
{
    for item in items {
        insert_lower(alloc, names, &item.name)?;
    }
    Ok(())
}

/// Adds the names of options in lower case.
fn insert_options(alloc: Global, names: &mut TextSet, options: &ItemList) -> Result<(), Memory>
    ensures names { OnOk result (names.new ≡ with_texts names.old (map str_to_ascii_lowercase (map (λ i. i.name) options.now))) }
    ensures short { OnOk result (All IsShort names.old → All IsShort names.new) }
{
    let mut place = 0;
    while place < options.len() {
        let items = options.from(place);
        insert_items(alloc, names, items)?;
        place += items.len();
    }
    Ok(())
}

/// Adds the names of file systems in lower case.
fn insert_file_systems(
    alloc: Global,
    names: &mut TextSet,
    file_systems: &[Name],
) -> Result<(), Memory>
    ensures names { OnOk result (names.new ≡ with_texts names.old (map str_to_ascii_lowercase file_systems.now)) }
    ensures short { OnOk result (All IsShort names.old → All IsShort names.new) }
{
    for name in file_systems {
        insert_lower(alloc, names, name)?;
    }
    Ok(())
}

/// The names that tables choose, as a set.
pub fn chosen_set(alloc: Global, tables: &Tables) -> Result<TextSet, Memory>
    requires { FormedTables tables.now }
    ensures same { IfOk result (λ names. (name : Items ℕ) → has_name names name ≡ is_chosen tables.now name) }
    ensures short { IfOk result (All IsShort) }
{
    let marks = reached_marks(alloc, tables)?;
    let mut names = TextSet::make(alloc);
    insert_rows(alloc, &mut names, tables)?;
    insert_attrs(alloc, &mut names, tables.attrs.items(), &marks)?;
    insert_options(alloc, &mut names, &tables.options)?;
    insert_file_systems(alloc, &mut names, tables.file_systems.items())?;
    Ok(names)
}

/// The names that the tables of a configuration choose, each once, in the order of their bytes: those of the devices
/// and attachments that have rows, of the attributes that these and the pseudo-devices need, and of the options and
/// file systems, in lower case. The only error is `Memory`. See config(5).
pub fn chosen(alloc: Global, tables: &Tables) -> Result<List<Name>, Memory>
    requires { FormedTables tables.now }
    ensures { IfOk result (AreChosen tables.now) }
{
    let names = chosen_set(alloc, tables)?;
    names.into_names(alloc)
}
