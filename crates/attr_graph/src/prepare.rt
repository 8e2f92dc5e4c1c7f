ghost use Rattle.std.specs.Prelude.{◌≡◌, ◌<◌, ◌≤◌, [], ◌∷◌, ◌++◌, length, All, OnOk, IfOk, if◌then◌else◌};
ghost use Rattle.std.specs.List.{list_any, slice_index_or};
ghost use Rattle.std.specs.Option.{option_to_list};
ghost use Rattle.cf_types.specs.Offers.{interfaces_of};
ghost use Rattle.attr_graph.specs.Reach.{AreMarks, CountsReach, KeptAttrs, MakesAttr, MakesDevice, nodes_of};

use crate::entry::{AttrEntry, DeviceEntry, Numbers};
use crate::gather::{GraphStop, gather};
use std::alloc::{AllocError, Global};

/// Makes room for the mark of a number.
fn make_room(marks: &mut Vec<bool>, number: usize) -> Result<(), AllocError>
    requires room { number ≤ length marks.old.items }
    requires marked { AreMarks [] marks.old.items }
    ensures ok { OnOk result (number < length marks.new.items) }
    ensures grows { length marks.old.items ≤ length marks.new.items }
    ensures marked { AreMarks [] marks.new.items }
{
    if marks.len() == number {
        marks.push(false)?;
    }
    Ok(())
}

/// An attribute's own number, if it is an interface attribute.
fn own_number(iface: bool, number: u32) -> Option<u32>
    ensures { option_to_list result ≡ (if iface then number ∷ [] else []) }
{
    if iface { Some(number) } else { None }
}

/// The entry of a new attribute, which is to get the next number.
pub fn attr_entry(
    alloc: Global,
    attrs: &[AttrEntry],
    marks: &mut Vec<bool>,
    iface: bool,
    needs: &[u32],
) -> Result<AttrEntry, GraphStop>
    requires known { All (λ a. a < length attrs.now) needs.now }
    requires few { length attrs.now < 65536 }
    requires kept { KeptAttrs attrs.now marks.old.items }
    ensures entry { MakesAttr attrs.now (record { iface = iface; needs = needs.now }) marks.new.items result }
    ensures kept { KeptAttrs attrs.now marks.new.items }
{
    make_room(marks, attrs.len())?;
    let own = own_number(iface, attrs.len() as u32);
    let reach = match gather(alloc, marks, attrs, own, needs) {
        Ok(reach) => reach,
        Err(stop) => return Err(stop),
    };
    let needs = Numbers::behind(alloc, None, needs)?;
    Ok(AttrEntry {
        iface,
        needs,
        reach: Numbers::from_vec(reach),
    })
}

/// The entry of a new device, which names these attributes.
pub fn device_entry(
    alloc: Global,
    attrs: &[AttrEntry],
    marks: &mut Vec<bool>,
    names: Numbers,
) -> Result<DeviceEntry, GraphStop>
    requires known { All (λ a. a < length attrs.now) names }
    requires kept { KeptAttrs attrs.now marks.old.items }
    ensures entry { MakesDevice attrs.now names result }
    ensures kept { KeptAttrs attrs.now marks.new.items }
{
    match gather(alloc, marks, attrs, None, names.items()) {
        Ok(reach) => Ok(DeviceEntry {
            names,
            reach: Numbers::from_vec(reach),
        }),
        Err(stop) => Err(stop),
    }
}

/// How many interface attributes these attributes offer, or `None` if they are more than `MAX_INTERFACES`.
pub fn reach_count(
    alloc: Global,
    attrs: &[AttrEntry],
    marks: &mut Vec<bool>,
    names: &[u32],
) -> Result<Option<usize>, AllocError>
    requires known { All (λ a. a < length attrs.now) names.now }
    requires kept { KeptAttrs attrs.now marks.old.items }
    ensures counted { IfOk result (CountsReach (interfaces_of (nodes_of attrs.now) names.now)) }
    ensures kept { KeptAttrs attrs.now marks.new.items }
{
    match gather(alloc, marks, attrs, None, names) {
        Ok(reach) => {
            let list = Numbers::from_vec(reach);
            let count = list.len();
            Ok(Some(count))
        }
        Err(GraphStop::TooMany) => Ok(None),
        Err(GraphStop::Memory) => Err(AllocError),
    }
}
