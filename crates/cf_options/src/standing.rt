ghost use Rattle.std.specs.Prelude.{◌≡◌, ℕ, ◌&&◌, ◌||◌, List, false, true, not, map, bytes_eq, if◌then◌else◌, IfOk, OnOk};
ghost use Rattle.cf_types.specs.declared.stmt.ItemKind.{ItemKind as Kind};
ghost use Rattle.config_rules.specs.Select.{drops, has_name, item_names, same_kind};
ghost use Rattle.cf_options.specs.ItemFlags.{Sets, flag_of, stands_in};
ghost use Rattle.cf_options.specs.Last.{is_behind, is_dropped, last_of};

use crate::last::{LastPlaces, Negations, is_dropped};
use cf_types::{Item, ItemKind, Memory, Name, Stmt};
use std::alloc::Global;
use std::collections::HashMap;

/// For each name that is negated later whether an item of that name is in force, by the kind of items.
#[derive(Drop)]
pub struct Flags<'a> {
    pub options: HashMap<&'a Name, bool>,
    pub makeoptions: HashMap<&'a Name, bool>,
    pub pseudos: HashMap<&'a Name, bool>,
    pub file_systems: HashMap<&'a Name, bool>,
}

/// Nothing is in force.
pub fn nothing_stands<'a>(alloc: Global) -> Flags<'a>
    ensures { (kind : Kind) (q : List ℕ) → stands_in result kind q ≡ false }
{
    Flags {
        options: HashMap::new(alloc),
        makeoptions: HashMap::new(alloc),
        pseudos: HashMap::new(alloc),
        file_systems: HashMap::new(alloc),
    }
}

/// Whether an item of this name is in force.
fn is_set(flags: &HashMap<&Name, bool>, name: &Name) -> bool
    ensures { result ≡ flag_of flags.now name.now }
{
    match flags.get(&name) {
        Some(stands) => *stands,
        None => false,
    }
}

/// Whether an item of this kind and name is in force.
pub fn stands(flags: &Flags, kind: ItemKind, name: &Name) -> bool
    ensures { result ≡ stands_in flags.now kind name.now }
{
    match kind {
        ItemKind::Options => is_set(&flags.options, name),
        ItemKind::MakeOptions => is_set(&flags.makeoptions, name),
        ItemKind::PseudoDevice => is_set(&flags.pseudos, name),
        ItemKind::FileSystem => is_set(&flags.file_systems, name),
    }
}

/// Notes whether an item of this name is in force after a place, if a later negation names it: otherwise nobody asks.
fn set<'a>(
    flags: &mut HashMap<&'a Name, bool>,
    last: &LastPlaces,
    place: usize,
    name: &'a Name,
    stands: bool,
) -> Result<(), Memory>
    ensures { OnOk result (Sets last.now place (bytes_eq name.now) stands flags.old flags.new) }
{
    if !is_dropped(last, name, place) {
        return Ok(());
    }
    match flags.insert(name, stands) {
        Ok(_) => Ok(()),
        Err(_) => Err(Memory),
    }
}

/// Notes for these names whether an item is in force after a place.
fn set_names<'a>(
    flags: &mut HashMap<&'a Name, bool>,
    last: &LastPlaces,
    place: usize,
    names: &'a [Name],
    stands: bool,
) -> Result<(), Memory>
    ensures { OnOk result (Sets last.now place (has_name names.now) stands flags.old flags.new) }
{
    for name in names {
        set(flags, last, place, name, stands)?;
    }
    Ok(())
}

/// Notes that these items are in force after a place.
fn set_items<'a>(
    flags: &mut HashMap<&'a Name, bool>,
    last: &LastPlaces,
    place: usize,
    items: &'a [Item],
) -> Result<(), Memory>
    ensures { OnOk result ((q : List ℕ) → is_dropped last.now place q ≡ true
        → flag_of flags.new q ≡ (if has_name (map (λ i. i.name) items.now) q then true else flag_of flags.old q)) }
{
    for item in items {
        set(flags, last, place, &item.name, true)?;
    }
    Ok(())
}

/// Notes the items of a negation.
fn take_back<'a>(
    flags: &mut Flags<'a>,
    last: &Negations,
    place: usize,
    kind: ItemKind,
    names: &'a [Name],
) -> Result<(), Memory>
    ensures { OnOk result ((other : Kind) (q : List ℕ) → is_behind place (last_of last.now other q) ≡ true
        → stands_in flags.new other q ≡ (stands_in flags.old other q && not (same_kind kind other && has_name names.now q))) }
{
    match kind {
        ItemKind::Options => set_names(&mut flags.options, &last.options, place, names, false),
        ItemKind::MakeOptions => {
            set_names(
                &mut flags.makeoptions,
                &last.makeoptions,
                place,
                names,
                false,
            )
        }
        ItemKind::PseudoDevice => set_names(&mut flags.pseudos, &last.pseudos, place, names, false),
        ItemKind::FileSystem => {
            set_names(
                &mut flags.file_systems,
                &last.file_systems,
                place,
                names,
                false,
            )
        }
    }
}

/// Notes what the statement at a place does to the items of all kinds that are negated after it.
pub fn note_statement<'a>(
    flags: &mut Flags<'a>,
    last: &Negations,
    place: usize,
    stmt: &'a Stmt,
) -> Result<(), Memory>
    ensures { OnOk result ((kind : Kind) (q : List ℕ) → is_behind place (last_of last.now kind q) ≡ true
        → stands_in flags.new kind q ≡ (has_name (item_names kind stmt.now) q || (stands_in flags.old kind q && not (drops kind q stmt.now)))) }
{
    match stmt {
        Stmt::Options { items } => {
            set_items(&mut flags.options, &last.options, place, items.items())
        }
        Stmt::MakeOptions { items } => {
            set_items(
                &mut flags.makeoptions,
                &last.makeoptions,
                place,
                items.items(),
            )
        }
        Stmt::FileSystems { names } => {
            set_names(
                &mut flags.file_systems,
                &last.file_systems,
                place,
                names.items(),
                true,
            )
        }
        Stmt::PseudoDevice { name, .. } => set(
            &mut flags.pseudos,
            &last.pseudos,
            place,
            name,
            true,
        ),
        Stmt::NoItems { kind, names } => take_back(flags, last, place, *kind, names.items()),
        _ => Ok(()),
    }
}
