ghost use Rattle.std.specs.Prelude.{◌≡◌, [], ◌∷◌, ◌++◌, IfOk, OnOk, false, true};
ghost use Rattle.cf_types.specs.declared.stmt.ItemKind.TheVariants as of_kind;
ghost use Rattle.config_rules.specs.Fault.{stmts_of};
ghost use Rattle.config_rules.specs.Meaning.{file_systems_in, makeoptions_in, options_in, pseudos_in};
ghost use Rattle.config_rules.specs.Select.{kept_items};
ghost use Rattle.cf_options.specs.Last.{AreNegations, is_dropped, not_dropped};

use crate::copies::item_copied;
use crate::last::{LastPlaces, Negations, is_dropped};
use cf_types::{Item, ItemList, Items, List, Memory, Name, Placed, Pseudo, Stmt};
use std::alloc::Global;

/// Appends a copy of an item, if no negation after its place takes it back.
fn push_item(
    alloc: Global,
    kept: &mut ItemList,
    item: &Item,
    last: &LastPlaces,
    place: usize,
) -> Result<(), Memory>
    ensures { OnOk result (kept.new ≡ kept.old ++ not_dropped (is_dropped last.now place) (λ i. i.name) (item.now ∷ [])) }
{
    if is_dropped(last, &item.name, place) {
        return Ok(());
    }
    kept.push(item_copied(alloc, item)?)
}

/// Appends those of the items that no negation after their place takes back.
fn push_items(
    alloc: Global,
    kept: &mut ItemList,
    items: &[Item],
    last: &LastPlaces,
    place: usize,
) -> Result<(), Memory>
    ensures { OnOk result (kept.new ≡ kept.old ++ not_dropped (is_dropped last.now place) (λ i. i.name) items.now) }
{
    for item in items {
        push_item(alloc, kept, item, last, place)?;
    }
    Ok(())
}

/// Whether no negation after their place takes back one of these items.
fn are_kept(items: &[Item], last: &LastPlaces, place: usize) -> bool
    ensures { result ≡ true → not_dropped (is_dropped last.now place) (λ i. i.name) items.now ≡ items.now }
{
    for item in items {
        if is_dropped(last, &item.name, place) {
            return false;
        }
    }
    true
}

/// Appends all of the items that a statement shares, which stay where they are, if no negation takes one back.
fn push_shared(
    kept: &mut ItemList,
    items: &Items,
    last: &LastPlaces,
    place: usize,
) -> Result<bool, Memory>
    ensures same { IfOk result (λ done. done ≡ false → kept.new ≡ kept.old) }
    ensures pushed { IfOk result (λ done. done ≡ true → kept.new ≡ kept.old ++ not_dropped (is_dropped last.now place) (λ i. i.name) items.now) }
{
    let Some(shared) = items.again()? else {
        return Ok(false);
    };
    if !are_kept(items.items(), last, place) {
        return Ok(false);
    }
    kept.push_part(shared)?;
    Ok(true)
}

/// Appends those of the items of a statement that no negation after its place takes back.
fn push_kept(
    alloc: Global,
    kept: &mut ItemList,
    items: &Items,
    last: &LastPlaces,
    place: usize,
) -> Result<(), Memory>
    ensures { OnOk result (kept.new ≡ kept.old ++ not_dropped (is_dropped last.now place) (λ i. i.name) items.now) }
{
    if push_shared(kept, items, last, place)? {
        return Ok(());
    }
    push_items(alloc, kept, items.items(), last, place)
}

/// Appends a file system, if no negation after its place takes it back.
fn push_name(
    kept: &mut List<Name>,
    name: &Name,
    last: &LastPlaces,
    place: usize,
) -> Result<(), Memory>
    ensures { OnOk result (kept.new ≡ kept.old ++ not_dropped (is_dropped last.now place) (λ n. n) (name.now ∷ [])) }
{
    if is_dropped(last, name, place) {
        return Ok(());
    }
    kept.push(name.clone()?)
}

/// Appends those of the file systems that no negation after their place takes back.
fn push_names(
    kept: &mut List<Name>,
    names: &[Name],
    last: &LastPlaces,
    place: usize,
) -> Result<(), Memory>
    ensures { OnOk result (kept.new ≡ kept.old ++ not_dropped (is_dropped last.now place) (λ n. n) names.now) }
{
    for name in names {
        push_name(kept, name, last, place)?;
    }
    Ok(())
}

/// Appends a pseudo-device, if no negation after its place takes it back.
fn push_pseudo(
    kept: &mut List<Pseudo>,
    name: &Name,
    count: u32,
    last: &LastPlaces,
    place: usize,
) -> Result<(), Memory>
    ensures { OnOk result (kept.new ≡ kept.old ++ not_dropped (is_dropped last.now place) (λ p. p.name) (record { name = name.now; count = count } ∷ [])) }
{
    if is_dropped(last, name, place) {
        return Ok(());
    }
    kept.push(Pseudo {
        name: name.clone()?,
        count,
    })
}

/// The items that no later negation takes back, by their kind.
#[derive(Drop)]
pub struct KeptItems {
    pub pseudos: List<Pseudo>,
    pub options: ItemList,
    pub makeoptions: ItemList,
    pub file_systems: List<Name>,
}

/// Appends those of the items of a statement, if it has any, that no negation after their place takes back. Most have none.
#[inline(always)]
fn push_statement(
    alloc: Global,
    kept: &mut KeptItems,
    stmt: &Stmt,
    last: &Negations,
    place: usize,
) -> Result<(), Memory>
    ensures pseudos { OnOk result (kept.new.pseudos ≡ kept.old.pseudos
        ++ not_dropped (is_dropped last.now.pseudos place) (λ p. p.name) (pseudos_in stmt.now)) }
    ensures options { OnOk result (kept.new.options ≡ kept.old.options
        ++ not_dropped (is_dropped last.now.options place) (λ i. i.name) (options_in stmt.now)) }
    ensures makeoptions { OnOk result (kept.new.makeoptions ≡ kept.old.makeoptions
        ++ not_dropped (is_dropped last.now.makeoptions place) (λ i. i.name) (makeoptions_in stmt.now)) }
    ensures file_systems { OnOk result (kept.new.file_systems ≡ kept.old.file_systems
        ++ not_dropped (is_dropped last.now.file_systems place) (λ n. n) (file_systems_in stmt.now)) }
{
    match stmt {
        Stmt::PseudoDevice { name, count } => {
            push_pseudo(&mut kept.pseudos, name, *count, &last.pseudos, place)
        }
        Stmt::Options { items } => {
            push_kept(alloc, &mut kept.options, items, &last.options, place)
        }
        Stmt::MakeOptions { items } => {
            push_kept(
                alloc,
                &mut kept.makeoptions,
                items,
                &last.makeoptions,
                place,
            )
        }
        Stmt::FileSystems { names } => {
            push_names(
                &mut kept.file_systems,
                names.items(),
                &last.file_systems,
                place,
            )
        }
        _ => Ok(()),
    }
}

/// No item.
fn nothing_kept(alloc: Global) -> KeptItems
    ensures { result ≡ record { pseudos = []; options = []; makeoptions = []; file_systems = [] } }
{
    KeptItems {
        pseudos: List::make(alloc),
        options: ItemList::make(alloc),
        makeoptions: ItemList::make(alloc),
        file_systems: List::make(alloc),
    }
}

/// The items that no later negation takes back, found in one walk.
pub fn kept_items(alloc: Global, placed: &[Placed], last: &Negations) -> Result<KeptItems, Memory>
    requires { AreNegations placed.now last.now }
    ensures pseudos { IfOk result (λ kept. kept.pseudos ≡ kept_items of_kind.PseudoDevice pseudos_in (λ p. p.name) (stmts_of placed.now)) }
    ensures options { IfOk result (λ kept. kept.options ≡ kept_items of_kind.Options options_in (λ i. i.name) (stmts_of placed.now)) }
    ensures makeoptions { IfOk result (λ kept. kept.makeoptions ≡ kept_items of_kind.MakeOptions makeoptions_in (λ i. i.name) (stmts_of placed.now)) }
    ensures file_systems { IfOk result (λ kept. kept.file_systems ≡ kept_items of_kind.FileSystem file_systems_in (λ n. n) (stmts_of placed.now)) }
{
    let mut kept = nothing_kept(alloc);
    for (i, p) in placed.iter().enumerate() {
        push_statement(alloc, &mut kept, &p.stmt, last, i)?;
    }
    Ok(kept)
}
