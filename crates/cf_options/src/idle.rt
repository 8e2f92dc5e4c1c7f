ghost use Rattle.std.specs.Prelude.{◌≡◌, ◌≤◌, ◌<◌, [], ◌∷◌, ◌++◌, length, IfOk, OnOk};
ghost use Rattle.std.specs.List.{list_any};
ghost use Rattle.config_rules.specs.Fault.{stmts_of};
ghost use Rattle.config_rules.specs.Meaning.{idle_items};
ghost use Rattle.cf_options.specs.ItemFlags.{idle_of, idle_places, stands_in};
ghost use Rattle.cf_options.specs.Last.{AreNegations};
ghost use Rattle.cf_options.specs.Parts.{negates_items};

use crate::last::Negations;
use crate::standing::{Flags, note_statement, nothing_stands, stands};
use cf_types::{ItemKind, List, Memory, Name, Placed, Stmt};
use std::alloc::Global;

/// Appends the place of a negation, if no item of its kind and name is in force.
fn push_idle_name(
    idle: &mut List<u32>,
    flags: &Flags,
    kind: ItemKind,
    name: &Name,
    place: u32,
) -> Result<(), Memory>
    ensures { OnOk result (idle.new ≡ idle.old ++ idle_places (stands_in flags.now kind) (name.now ∷ []) place) }
{
    if stands(flags, kind, name) {
        return Ok(());
    }
    idle.push(place)
}

/// Appends the place of a negation, once for each of its names for which no item is in force.
fn push_idle_names(
    idle: &mut List<u32>,
    flags: &Flags,
    kind: ItemKind,
    names: &[Name],
    place: u32,
) -> Result<(), Memory>
    ensures { OnOk result (idle.new ≡ idle.old ++ idle_places (stands_in flags.now kind) names.now place) }
{
    for name in names {
        push_idle_name(idle, flags, kind, name, place)?;
    }
    Ok(())
}

/// Appends the place of a statement, once for each name of it that takes nothing back.
fn push_idle(idle: &mut List<u32>, flags: &Flags, stmt: &Stmt, place: u32) -> Result<(), Memory>
    ensures { OnOk result (idle.new ≡ idle.old ++ idle_of (stands_in flags.now) stmt.now place) }
{
    match stmt {
        Stmt::NoItems { kind, names } => push_idle_names(idle, flags, *kind, names.items(), place),
        _ => Ok(()),
    }
}

/// Whether one of these statements is a negation of items.
fn negate_items(placed: &[Placed]) -> bool
    ensures { result ≡ list_any (λ p. negates_items p.stmt) placed.now }
{
    placed
        .iter()
        .any(|statement| matches!(statement.stmt, Stmt::NoItems { .. }))
}

/// The places of the negations of items, each once for each of its names that takes nothing back.
pub fn idle_items(alloc: Global, placed: &[Placed], last: &Negations) -> Result<List<u32>, Memory>
    requires few { length placed.now ≤ 65536 }
    requires last { AreNegations placed.now last.now }
    ensures { IfOk result (λ idle. idle ≡ idle_items [] (stmts_of placed.now)) }
{
    if !negate_items(placed) {
        return Ok(List::make(alloc));
    }
    let mut flags = nothing_stands(alloc);
    let mut idle = List::make(alloc);
    for (i, p) in placed.iter().enumerate() {
        push_idle(&mut idle, &flags, &p.stmt, i as u32)?;
        note_statement(&mut flags, last, i, &p.stmt)?;
    }
    Ok(idle)
}
