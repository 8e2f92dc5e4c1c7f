ghost use Rattle.std.specs.Prelude.{◌≡◌, ℕ, List, None, Some, bytes_eq, if◌then◌else◌, IfOk, OnOk};
ghost use Rattle.cf_types.specs.declared.stmt.ItemKind.{ItemKind as Kind};
ghost use Rattle.config_rules.specs.Select.{drops, has_name};
ghost use Rattle.cf_options.specs.Last.{AreNegations, is_dropped, last_of, place_of};

use cf_types::{ItemKind, Memory, Name, Placed, Stmt};
use std::alloc::Global;
use std::collections::HashMap;

/// For each name the place of the last negation that names it.
pub type LastPlaces<'a> = HashMap<&'a Name, usize>;

/// The last negation of each name, by the kind of items.
#[derive(Drop)]
pub struct Negations<'a> {
    pub options: HashMap<&'a Name, usize>,
    pub makeoptions: HashMap<&'a Name, usize>,
    pub pseudos: HashMap<&'a Name, usize>,
    pub file_systems: HashMap<&'a Name, usize>,
}

/// Nothing is negated.
fn nothing_negated<'a>(alloc: Global) -> Negations<'a>
    ensures { (kind : Kind) (q : List ℕ) → last_of result kind q ≡ None }
{
    Negations {
        options: HashMap::new(alloc),
        makeoptions: HashMap::new(alloc),
        pseudos: HashMap::new(alloc),
        file_systems: HashMap::new(alloc),
    }
}

/// Notes that a name is negated at this place.
fn note<'a>(last: &mut HashMap<&'a Name, usize>, name: &'a Name, place: usize) -> Result<(), Memory>
    ensures { OnOk result ((q : List ℕ) → place_of last.new q ≡ (if bytes_eq name.now q then Some place else place_of last.old q)) }
{
    match last.insert(name, place) {
        Ok(_) => Ok(()),
        Err(_) => Err(Memory),
    }
}

/// Notes that these names are negated at this place.
fn note_names<'a>(
    last: &mut HashMap<&'a Name, usize>,
    names: &'a [Name],
    place: usize,
) -> Result<(), Memory>
    ensures { OnOk result ((q : List ℕ) → place_of last.new q ≡ (if has_name names.now q then Some place else place_of last.old q)) }
{
    for name in names {
        note(last, name, place)?;
    }
    Ok(())
}

/// Notes the names of a statement at this place, if it is a negation of items.
fn note_statement<'a>(last: &mut Negations<'a>, stmt: &'a Stmt, place: usize) -> Result<(), Memory>
    ensures { OnOk result ((kind : Kind) (q : List ℕ) → last_of last.new kind q ≡ (if drops kind q stmt.now then Some place else last_of last.old kind q)) }
{
    match stmt {
        Stmt::NoItems { kind, names } => match kind {
            ItemKind::Options => note_names(&mut last.options, names.items(), place),
            ItemKind::MakeOptions => note_names(&mut last.makeoptions, names.items(), place),
            ItemKind::PseudoDevice => note_names(&mut last.pseudos, names.items(), place),
            ItemKind::FileSystem => note_names(&mut last.file_systems, names.items(), place),
        },
        _ => Ok(()),
    }
}

/// The last negations of items in these statements.
pub fn last_negations(alloc: Global, placed: &[Placed]) -> Result<Negations<'_>, Memory>
    ensures { IfOk result (AreNegations placed.now) }
{
    let mut last = nothing_negated(alloc);
    for (i, p) in placed.iter().enumerate() {
        note_statement(&mut last, &p.stmt, i)?;
    }
    Ok(last)
}

/// Whether the last negation of a name is after this place.
#[inline(always)]
pub fn is_dropped(last: &LastPlaces, name: &Name, place: usize) -> bool
    ensures { result ≡ is_dropped last.now place name.now }
{
    if last.is_empty() {
        return false;
    }
    match last.get(&name) {
        Some(negation) => place < *negation,
        None => false,
    }
}
