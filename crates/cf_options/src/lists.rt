ghost use Rattle.std.specs.Prelude.{◌≡◌, ◌≤◌, [], length, IfOk};
ghost use Rattle.cf_types.specs.declared.stmt.ItemKind.TheVariants as of_kind;
ghost use Rattle.config_rules.specs.Fault.{stmts_of};
ghost use Rattle.config_rules.specs.Meaning.{file_systems_in, idle_items, makeoptions_in, options_in, pseudos_in};
ghost use Rattle.config_rules.specs.Select.{kept_items};

use crate::idle::idle_items;
use crate::kept::{KeptItems, kept_items};
use crate::last::last_negations;
use cf_types::{ItemList, List, Memory, Name, Placed, Pseudo};
use std::alloc::Global;

/// The items of a configuration that no later negation takes back, each list in the order of the statements, and the
/// negations of items that take nothing back. See config(5).
#[derive(Drop)]
pub struct ItemLists {
    pub pseudos: List<Pseudo>,
    pub options: ItemList,
    pub makeoptions: ItemList,
    pub file_systems: List<Name>,
    /// The place of a negation, once for each of its names that takes nothing back.
    pub idle: List<u32>,
}

/// The items of at most 65,536 placed statements. Repeats are kept. Two equal names in one negation both take back what
/// is before it. The only error is `Memory`.
pub fn items(alloc: Global, placed: &[Placed]) -> Result<ItemLists, Memory>
    requires { length placed.now ≤ 65536 }
    ensures pseudos { IfOk result (λ lists. lists.pseudos ≡ kept_items of_kind.PseudoDevice pseudos_in (λ p. p.name) (stmts_of placed.now)) }
    ensures options { IfOk result (λ lists. lists.options ≡ kept_items of_kind.Options options_in (λ i. i.name) (stmts_of placed.now)) }
    ensures makeoptions { IfOk result (λ lists. lists.makeoptions ≡ kept_items of_kind.MakeOptions makeoptions_in (λ i. i.name) (stmts_of placed.now)) }
    ensures file_systems { IfOk result (λ lists. lists.file_systems ≡ kept_items of_kind.FileSystem file_systems_in (λ n. n) (stmts_of placed.now)) }
    ensures idle { IfOk result (λ lists. lists.idle ≡ idle_items [] (stmts_of placed.now)) }
{
    let last = last_negations(alloc, placed)?;
    let KeptItems {
        pseudos,
        options,
        makeoptions,
        file_systems,
    } = kept_items(alloc, placed, &last)?;
    Ok(ItemLists {
        pseudos,
        options,
        makeoptions,
        file_systems,
        idle: idle_items(alloc, placed, &last)?,
    })
}
