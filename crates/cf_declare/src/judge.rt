ghost use Rattle.std.specs.Prelude.{◌≡◌, ◌<◌, ℕ, false, IfOk, length};
ghost use Rattle.config_rules.specs.Fault.{code_of, is_instance, pseudo_fault};
ghost use Rattle.attr_graph.specs.Graphs.{IsGraphOf};
ghost use Rattle.cf_declare.specs.Declare.{declare};
ghost use Rattle.cf_declare.specs.Judging.{Takes};

use crate::define::{take_class, take_define, take_device};
use crate::entry::Entry;
use crate::fault::{Attaching, is_pseudo, take_attach};
use attr_graph::Graph;
use cf_names::Catalog;
use cf_types::code::configuration as code;
use cf_types::{Few, List, Locator, Memory, Name, Stmt};
use std::alloc::Global;

/// How many instance statements there may be.
pub const MAX_INSTANCES: usize = 8_192;

/// What a statement says of an attribute or a device, in its parts.
fn entry_of<'a>(
    name: &'a Name,
    locators: &'a Option<List<Locator>>,
    needs: &'a Few<Name>,
) -> Entry<'a>
    ensures name { result.name.now ≡ name.now }
    ensures locators { result.locators.now ≡ locators.now }
    ensures needs { result.needs.now ≡ needs.now }
{
    Entry {
        name,
        locators,
        needs,
    }
}

/// The code of a pseudo-device.
fn pseudo_fault(declared: &Catalog, name: &Name) -> Option<u8>
    ensures { result ≡ pseudo_fault declared.now name.now }
{
    if is_pseudo(declared, name) {
        return None;
    }
    Some(code::UNKNOWN_DEVICE)
}

/// Takes a statement that is not an instance: its first code, or else what it declares is added.
pub fn take(
    alloc: Global,
    declared: &mut Catalog,
    graph: &mut Graph,
    stmt: &Stmt,
) -> Result<Option<u8>, Memory>
    requires attrs { length declared.old.attrs < 65536 }
    requires devices { length declared.old.devices < 65536 }
    requires graph { IsGraphOf declared.old graph.old }
    requires instance { is_instance stmt.now ≡ false }
    ensures takes { IfOk result (λ code. (n : ℕ) → Takes (code_of declared.old n stmt.now) declared.old (declare declared.old stmt.now) declared.new code) }
    ensures graph { IfOk result (λ _. IsGraphOf declared.new graph.new) }
{
    match stmt {
        Stmt::Define { name, locs, needs } => {
            let entry = entry_of(name, locs, needs);
            take_define(alloc, declared, graph, &entry, false)
        }
        Stmt::DefPseudo { name, locs, needs } => {
            let entry = entry_of(name, locs, needs);
            take_define(alloc, declared, graph, &entry, true)
        }
        Stmt::Class { name } => take_class(alloc, declared, graph, name),
        Stmt::Device { name, locs, needs } => {
            let entry = entry_of(name, locs, needs);
            take_device(alloc, declared, graph, &entry)
        }
        Stmt::Attach {
            device,
            places,
            attach_name,
            needs,
        } => {
            let said = Attaching {
                device,
                places: places.items(),
                name: attach_name.as_ref().unwrap_or(device),
                needs: needs.items(),
            };
            take_attach(alloc, declared, &said)
        }
        Stmt::PseudoDevice { name, .. } => Ok(pseudo_fault(declared, name)),
        _ => Ok(None),
    }
}
