ghost use Rattle.std.specs.Prelude.{◌≡◌, ◌++◌, [], map, All, IfOk, OnOk};
ghost use Rattle.std.specs.List.{filter_map};
ghost use Rattle.std.specs.Option.{unwrap_or};
ghost use Rattle.config_rules.specs.Meaning.{own_unit, first_unit, in_order, row, rows_of};
ghost use Rattle.cf_rows.specs.Rows.{seen, UnitFits};

use crate::device::by_device;
use crate::group::Group;
use crate::units::{first_unit, own_unit, put_in_order};
use cf_types::{Instance, List, Locs, Memory, Row};
use std::alloc::Global;

/// The row of an instance; `first` is the unit of a starred one. The values are put where the row has them, since a list of
/// them that is made first is copied once more.
fn row(first: u32, instance: &Instance) -> Row
    ensures { result ≡ row first instance.now }
{
    let unit = own_unit(instance);
    let mut made = Row {
        device: instance.joined.device,
        unit: unit.unwrap_or(first),
        star: unit.is_none(),
        attach: instance.joined.attach,
        place: instance.joined.place,
        parent: instance.joined.parent,
        locs: Locs::make(),
        flags: instance.flags,
    };
    for value in instance.joined.locs.items() {
        made.locs.push(*value);
    }
    made
}

/// Appends the rows of a device, from its own instances. The list is room for these in order.
fn push_device<'a>(
    alloc: Global,
    rows: &mut List<Row>,
    ordered: &mut Vec<&'a Instance>,
    own: &[&'a Instance],
) -> Result<(), Memory>
    requires { All UnitFits (seen own.now) }
    ensures { OnOk result (rows.new ≡ rows.old ++ map (row (first_unit (filter_map own_unit (seen own.now)))) (in_order (seen own.now))) }
{
    let first = first_unit(own);
    put_in_order(alloc, ordered, own)?;
    for instance in &*ordered {
        rows.push(row(first, instance))?;
    }
    Ok(())
}

/// Replaces the list by the instances of a device, if it has any.
fn put_own<'a>(own: &mut Vec<&'a Instance>, group: &Option<Group<'a>>) -> Result<(), Memory>
    ensures { OnOk result (own.new.items ≡ unwrap_or group.now []) }
{
    own.clear();
    match group {
        Some(group) => group.append_to(own),
        None => Ok(()),
    }
}

/// The rows of this many devices, in the order of the devices, from the rooted instances: first those without a star,
/// equal units together at the place of the first, then the starred ones, whose first unit is one more than the
/// greatest unit of the device. See config(5) and the cfdata rows of autoconf(9).
pub fn rows_of(alloc: Global, devices: u32, instances: &[&Instance]) -> Result<List<Row>, Memory>
    requires { All UnitFits (seen instances.now) }
    ensures { IfOk result (λ rows. rows ≡ rows_of devices (seen instances.now)) }
{
    let mut rows = List::from_vec(Vec::with_capacity(alloc, instances.len())?);
    let groups = by_device(alloc, devices, instances)?;
    let mut own = Vec::new(alloc);
    let mut ordered = Vec::new(alloc);
    for group in &groups {
        put_own(&mut own, group)?;
        push_device(alloc, &mut rows, &mut ordered, &own)?;
    }
    Ok(rows)
}
