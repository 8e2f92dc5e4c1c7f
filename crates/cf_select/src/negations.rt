ghost use Rattle.std.specs.Prelude.{◌≡◌, ℕ, ◌&&◌, ◌||◌, ◌==◌, Some, None, if◌then◌else◌, OnOk};
ghost use Rattle.std.specs.Option.{option_map};
ghost use Rattle.config_rules.specs.Fault.{is_instance};
ghost use Rattle.config_rules.specs.Select.{names};
ghost use Rattle.cf_select.specs.Naming.{at_of, is_listed, mark_of, negation_of};
ghost use Rattle.cf_select.specs.Selected.{is_negation};
ghost use Rattle.cf_select.specs.declared.named.Named.{Named as Key};

use crate::lists::push_place;
use crate::named::{Attachment, Named};
use crate::places::Places;
use cf_types::{AtSpec, Memory, Stmt, UnitMark};
use std::alloc::Global;
use std::collections::HashMap;

/// The unit of a mark that is not starred.
fn unit_of(mark: UnitMark) -> Option<u32>
    ensures { mark_of result ≡ mark }
{
    match mark {
        UnitMark::Fixed(unit) => Some(unit),
        UnitMark::Star => None,
    }
}

/// What is attached to, with the bytes of its name.
fn attachment(at: &AtSpec) -> Attachment<'_>
    ensures { at_of result ≡ at.now }
{
    match at {
        AtSpec::Root => Attachment::Root,
        AtSpec::Named { base, unit } => Attachment::Named(base.bytes(), *unit),
    }
}

/// Which instances a statement names, if it is a negation of instances.
pub fn named_by(stmt: &Stmt) -> Option<Named<'_>>
    ensures { option_map negation_of result ≡ (if is_negation stmt.now then Some stmt.now else None) }
{
    match stmt {
        Stmt::NoInst {
            base,
            mark,
            at: None,
        } => Some(Named::Unit(base.bytes(), unit_of(*mark))),
        Stmt::NoInst {
            base,
            mark,
            at: Some(at),
        } => Some(Named::UnitAt(base.bytes(), unit_of(*mark), attachment(at))),
        Stmt::NoDevice { at } => Some(Named::At(attachment(at))),
        _ => None,
    }
}

/// Adds an instance to the lists of all that name it.
pub fn put_instance<'a>(
    alloc: Global,
    lists: &mut HashMap<Named<'a>, Places>,
    stmt: &'a Stmt,
    place: usize,
) -> Result<(), Memory>
    ensures { OnOk result ((q : Key) (x : ℕ) → is_listed lists.new q x ≡ (is_listed lists.old q x || (names (negation_of q) stmt.now && place == x))) }
{
    let Stmt::Inst { base, mark, at, .. } = stmt else {
        return Ok(());
    };
    let base = base.bytes();
    let unit = unit_of(*mark);
    let at = attachment(at);
    push_place(alloc, lists, Named::Unit(base, unit), place)?;
    push_place(alloc, lists, Named::UnitAt(base, unit, at), place)?;
    push_place(alloc, lists, Named::At(at), place)?;
    Ok(())
}

/// Whether a statement is an instance.
pub fn is_instance(stmt: &Stmt) -> bool
    ensures { result ≡ is_instance stmt.now }
{
    matches!(stmt, Stmt::Inst { .. })
}
