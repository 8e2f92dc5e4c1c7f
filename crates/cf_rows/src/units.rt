ghost use Rattle.std.specs.Prelude.{◌≡◌, ℕ, ◌<◌, [], ◌∷◌, ◌++◌, length, flat_map, nat_eq, Some, All, IfOk, IsTrue, OnOk};
ghost use Rattle.std.specs.List.{filter_map};
ghost use Rattle.std.specs.HashMap.{get};
ghost use Rattle.config_rules.specs.Meaning.{own_unit, first_unit, in_order};
ghost use Rattle.cf_rows.specs.Rows.{seen, UnitFits, AreGroups, Joins, units_of, of_unit, fixed, starred};

use crate::group::Group;
use cf_types::{Instance, Memory, UnitMark};
use std::alloc::Global;
use std::collections::HashMap;

/// The unit of an instance that is not starred.
pub fn own_unit(instance: &Instance) -> Option<u32>
    ensures { result ≡ own_unit instance.now }
{
    match instance.mark {
        UnitMark::Fixed(unit) => Some(unit),
        UnitMark::Star => None,
    }
}

/// One more than the greatest unit, or 0 if each instance is starred.
pub fn first_unit(own: &[&Instance]) -> u32
    requires { All UnitFits (seen own.now) }
    ensures { result ≡ first_unit (filter_map own_unit (seen own.now)) }
{
    let mut first = 0;
    for instance in own {
        if let Some(unit) = own_unit(instance) {
            first = first.max(unit + 1);
        }
    }
    first
}

/// Adds an instance to the group of its unit, or as a new group after the others.
fn add<'a>(
    alloc: Global,
    groups: &mut Vec<Group<'a>>,
    places: &mut HashMap<u32, usize>,
    unit: u32,
    instance: &'a Instance,
) -> Result<(), Memory>
    requires within { (u p : ℕ) → get nat_eq places.old u ≡ Some p → p < length groups.old.items }
    requires unit { own_unit instance.now ≡ Some unit }
    ensures { OnOk result (Joins instance.now groups.old.items (get nat_eq places.old) groups.new.items (get nat_eq places.new)) }
{
    if let Some(place) = places.get(&unit).copied() {
        let group = &mut groups[place];
        group.push(instance)?;
        return Ok(());
    }
    places.insert(unit, groups.len())?;
    groups.push(Group::make(alloc, instance))?;
    Ok(())
}

/// The instances that are not starred, one group for each unit.
fn by_unit<'a>(alloc: Global, own: &[&'a Instance]) -> Result<Vec<Group<'a>>, Memory>
    ensures { IfOk result (λ groups. flat_map seen groups.items ≡ flat_map (of_unit (seen own.now)) (units_of (seen own.now))) }
{
    let mut groups = Vec::new(alloc);
    let mut places = HashMap::new(alloc);
    for instance in own {
        if let Some(unit) = own_unit(instance) {
            add(alloc, &mut groups, &mut places, unit, instance)?;
        }
    }
    Ok(groups)
}

/// Appends the instances that are not starred.
fn push_fixed<'a>(ordered: &mut Vec<&'a Instance>, own: &[&'a Instance]) -> Result<(), Memory>
    ensures { OnOk result (seen ordered.new.items ≡ seen ordered.old.items ++ fixed (seen own.now)) }
{
    for instance in own {
        if own_unit(instance).is_some() {
            ordered.push(*instance)?;
        }
    }
    Ok(())
}

/// Appends the starred instances.
fn push_starred<'a>(ordered: &mut Vec<&'a Instance>, own: &[&'a Instance]) -> Result<(), Memory>
    ensures { OnOk result (seen ordered.new.items ≡ seen ordered.old.items ++ starred (seen own.now)) }
{
    for instance in own {
        if own_unit(instance).is_none() {
            ordered.push(*instance)?;
        }
    }
    Ok(())
}

/// Whether the units of these instances of a device ascend; starred ones between them do not matter.
fn units_ascend(own: &[&Instance]) -> bool
    requires { All UnitFits (seen own.now) }
    ensures { IsTrue result → flat_map (of_unit (seen own.now)) (units_of (seen own.now)) ≡ fixed (seen own.now) }
{
    let mut least = 0;
    for instance in own {
        if let Some(unit) = own_unit(instance) {
            if unit < least {
                return false;
            }
            least = unit + 1;
        }
    }
    true
}

/// Replaces the list by the instances of a device in the order of their rows.
pub fn put_in_order<'a>(
    alloc: Global,
    ordered: &mut Vec<&'a Instance>,
    own: &[&'a Instance],
) -> Result<(), Memory>
    requires { All UnitFits (seen own.now) }
    ensures { OnOk result (seen ordered.new.items ≡ in_order (seen own.now)) }
{
    ordered.clear();
    if units_ascend(own) {
        push_fixed(ordered, own)?;
        push_starred(ordered, own)?;
        return Ok(());
    }
    let groups = by_unit(alloc, own)?;
    for group in &groups {
        group.append_to(ordered)?;
    }
    push_starred(ordered, own)?;
    Ok(())
}
