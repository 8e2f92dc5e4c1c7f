ghost use Rattle.std.specs.Prelude.{◌≡◌, ℕ, ◌&&◌, ◌||◌, ◌==◌, true, false, [], ◌∷◌, length, map, IfOk, OnOk};
ghost use Rattle.std.specs.List.{slice_index_or};
ghost use Rattle.config_rules.specs.Meaning.{inst_of};
ghost use Rattle.cf_select.specs.Wanted.{carriers_of, waits, wants, wants_at};
ghost use Rattle.cf_select.specs.declared.want.Carrier.TheVariants.{Any, Of};
ghost use Rattle.cf_select.specs.declared.want.Want.{Want as Wanted};

use crate::lists::push_place;
use crate::places::Places;
use crate::waiting::Waiting;
use crate::want::{Carrier, Want};
use cf_types::{Instance, Memory, ParentSpec, Place, UnitMark};
use std::alloc::Global;
use std::collections::HashMap;

/// The carrier that an instance is, for those that name a parent with a unit.
pub fn own_carrier(instance: &Instance) -> Carrier
    ensures { carriers_of (inst_of instance.now) ≡ Any ∷ Of instance.now.joined.device ∷ result ∷ [] }
{
    let device = instance.joined.device;
    match instance.mark {
        UnitMark::Fixed(unit) => Carrier::Unit(device, unit),
        UnitMark::Star => Carrier::Starred(device),
    }
}

/// Adds an instance to those that wait for the carriers that it asks for.
fn put(
    alloc: Global,
    waiting: &mut HashMap<Want, Places>,
    instance: &Instance,
    place: usize,
) -> Result<(), Memory>
    ensures { OnOk result ((q : Want) (x : ℕ) → waits waiting.new q x ≡ (waits waiting.old q x || (wants (inst_of instance.now) q && place == x))) }
{
    let Place::At(attr) = instance.joined.place else {
        return Ok(());
    };
    let carrier = match instance.joined.parent {
        None => Carrier::Any,
        Some(ParentSpec { device, unit: None }) => Carrier::Of(device),
        Some(
            ParentSpec {
                device,
                unit: Some(unit),
            },
        ) => {
            let starred = Want {
                attr,
                carrier: Carrier::Starred(device),
            };
            push_place(alloc, waiting, starred, place)?;
            Carrier::Unit(device, unit)
        }
    };
    push_place(alloc, waiting, Want { attr, carrier }, place)
}

/// The places of the instances by what they wait for.
fn lists_of(alloc: Global, instances: &[Instance]) -> Result<HashMap<Want, Places>, Memory>
    ensures { IfOk result (λ lists. (q : Want) (x : ℕ) → waits lists q x ≡ wants_at (map inst_of instances.now) q x) }
{
    let mut lists = HashMap::new(alloc);
    for (place, instance) in instances.iter().enumerate() {
        put(alloc, &mut lists, instance, place)?;
    }
    Ok(lists)
}

/// Notes an attribute.
fn note(noted: &mut Vec<bool>, attr: u32) -> Result<(), Memory>
    ensures attr { OnOk result (slice_index_or noted.new.items attr false ≡ true) }
    ensures kept { OnOk result ((a : ℕ) → slice_index_or noted.old.items a false ≡ true → slice_index_or noted.new.items a false ≡ true) }
{
    if attr as usize >= noted.len() {
        noted.resize(attr as usize + 1, false)?;
    }
    noted[attr as usize] = true;
    Ok(())
}

/// Notes the attribute at whose place an instance is.
fn note_place(noted: &mut Vec<bool>, instance: &Instance) -> Result<(), Memory>
    ensures wanted { OnOk result ((q : Want) → wants (inst_of instance.now) q ≡ true → slice_index_or noted.new.items q.attr false ≡ true) }
    ensures kept { OnOk result ((a : ℕ) → slice_index_or noted.old.items a false ≡ true → slice_index_or noted.new.items a false ≡ true) }
{
    match instance.joined.place {
        Place::At(attr) => note(noted, attr),
        Place::Root => Ok(()),
    }
}

/// For each attribute whether an instance waits for a carrier that offers it.
fn noted_attrs(alloc: Global, instances: &[Instance]) -> Result<Vec<bool>, Memory>
    ensures { IfOk result (λ noted. (q : Want) (x : ℕ) → wants_at (map inst_of instances.now) q x ≡ true → slice_index_or noted.items q.attr false ≡ true) }
{
    let mut noted = Vec::new(alloc);
    for instance in instances {
        note_place(&mut noted, instance)?;
    }
    Ok(noted)
}

/// The places of the instances by what they wait for.
pub fn waiting_lists(alloc: Global, instances: &[Instance]) -> Result<Waiting, Memory>
    ensures { IfOk result (λ waiting. (q : Want) (x : ℕ) → waits waiting.lists q x ≡ wants_at (map inst_of instances.now) q x) }
{
    let lists = lists_of(alloc, instances)?;
    let noted = noted_attrs(alloc, instances)?;
    Ok(Waiting { lists, noted })
}
