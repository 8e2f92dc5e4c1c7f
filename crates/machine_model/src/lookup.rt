ghost use Rattle.std.specs.Prelude.{◌≡◌};
ghost use Rattle.cf_types.specs.Lookups.{attach_number, attr_number, spot_number};
ghost use Rattle.config_rules.specs.MachineText.{interface_number, spot_above, spot_place};
ghost use Rattle.machine_model.specs.Indexed.{IsDraft, IsIndex};

use crate::draft::Draft;
use crate::index::TableNames;
use crate::names::number_of;
use crate::word::spells;
use cf_types::Place;

fn attr_number(index: &TableNames, name: &[u8]) -> Option<u32>
    requires { IsIndex index.now }
    ensures { result ≡ attr_number index.now.tables.now.attrs name.now }
{
    match number_of(&index.attrs, name) {
        Some(at) => Some(at as u32),
        None => None,
    }
}

/// The number of the attachment of this name.
pub fn attach_number(index: &TableNames, name: &[u8]) -> Option<u32>
    requires { IsIndex index.now }
    ensures { result ≡ attach_number index.now.tables.now.attaches name.now }
{
    match number_of(&index.attaches, name) {
        Some(at) => Some(at as u32),
        None => None,
    }
}

/// The number of the interface attribute of this name.
pub fn interface_number(index: &TableNames, name: &[u8]) -> Option<u32>
    requires { IsIndex index.now }
    ensures { result ≡ interface_number index.now.tables.now name.now }
{
    let at = attr_number(index, name)?;
    match index.tables.attrs.items().get(at as usize) {
        Some(attr) => if attr.iface { Some(at) } else { None },
        None => None,
    }
}

/// The number of the spot of this name.
pub fn spot_number(draft: &Draft, name: &[u8]) -> Option<u16>
    requires { IsDraft draft.now }
    ensures { result ≡ spot_number draft.now.machine.spots name.now }
{
    match number_of(&draft.names, name) {
        Some(at) => Some(at as u16),
        None => None,
    }
}

/// The number of the parent spot, `None` below the root.
pub fn spot_above(draft: &Draft, parent: &[u8]) -> Option<u16>
    requires { IsDraft draft.now }
    ensures { result ≡ spot_above draft.now.machine.spots parent.now }
{
    if spells(parent, b"root") {
        return None;
    }
    spot_number(draft, parent)
}

/// The place of a spot, if its attribute is one and both sides are `root`, or neither is.
pub fn spot_place(index: &TableNames, parent: &[u8], attr: &[u8]) -> Option<Place>
    requires { IsIndex index.now }
    ensures { result ≡ spot_place index.now.tables.now parent.now attr.now }
{
    if spells(parent, b"root") {
        return if spells(attr, b"root") {
            Some(Place::Root)
        } else {
            None
        };
    }
    if spells(attr, b"root") {
        return None;
    }
    Some(Place::At(interface_number(index, attr)?))
}
