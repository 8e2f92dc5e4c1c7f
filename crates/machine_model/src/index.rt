ghost use Rattle.std.specs.Prelude.{◌≡◌, ◌≤◌, IfOk, length, map};
ghost use Rattle.config_rules.specs.Formed.{CountedTables};
ghost use Rattle.machine_model.specs.Indexed.{IsIndex};
ghost use Rattle.machine_model.specs.Names.{AreNames};

use crate::names::{Names, no_names, push, settle};
use cf_types::{Attach, Attr, Memory, Tables};
use std::alloc::Global;

/// Tables, with the names of their attributes and attachments.
#[derive(Drop)]
pub struct TableNames<'t> {
    pub tables: &'t Tables,
    pub attrs: Names<'t>,
    pub attaches: Names<'t>,
}

fn attr_names<'t>(alloc: Global, attrs: &'t [Attr]) -> Result<Names<'t>, Memory>
    requires { length attrs.now ≤ 65536 }
    ensures { IfOk result (λ names. AreNames names (map (λ a. a.name) attrs.now)) }
{
    let mut names = no_names(alloc, attrs.len())?;
    for attr in attrs {
        push(&mut names, attr.name.bytes())?;
    }
    settle(&mut names)?;
    Ok(names)
}

fn attach_names<'t>(alloc: Global, attaches: &'t [Attach]) -> Result<Names<'t>, Memory>
    requires { length attaches.now ≤ 65536 }
    ensures { IfOk result (λ names. AreNames names (map (λ a. a.name) attaches.now)) }
{
    let mut names = no_names(alloc, attaches.len())?;
    for attach in attaches {
        push(&mut names, attach.name.bytes())?;
    }
    settle(&mut names)?;
    Ok(names)
}

/// The tables with their names.
pub fn index_of<'t>(alloc: Global, tables: &'t Tables) -> Result<TableNames<'t>, Memory>
    requires { CountedTables tables.now }
    ensures index { IfOk result (λ index. IsIndex index) }
    ensures tables { IfOk result (λ index. index.tables.now ≡ tables.now) }
{
    Ok(TableNames {
        tables,
        attrs: attr_names(alloc, tables.attrs.items())?,
        attaches: attach_names(alloc, tables.attaches.items())?,
    })
}
