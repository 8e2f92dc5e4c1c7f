ghost use Rattle.std.specs.Prelude.{◌≡◌, ◌<◌, length, All, OnOk};
ghost use Rattle.cf_types.specs.Offers.{named_by};
ghost use Rattle.cf_names.specs.Indexed.{with_attr, with_device};
ghost use Rattle.attr_graph.specs.Graphs.{IsGraphOf};

use attr_graph::Graph;
use cf_names::Catalog;
use cf_types::{Attr, Device, Memory};
use std::alloc::Global;

/// Adds an attribute. No accepted one offers too many interface attributes.
pub fn add_attr(
    alloc: Global,
    declared: &mut Catalog,
    graph: &mut Graph,
    attr: Attr,
) -> Result<(), Memory>
    requires graph { IsGraphOf declared.old graph.old }
    requires known { All (λ b. b < length declared.old.attrs) attr.needs }
    requires few { length declared.old.attrs < 65536 }
    ensures added { OnOk result (declared.new ≡ with_attr declared.old attr) }
    ensures graph { OnOk result (IsGraphOf declared.new graph.new) }
{
    match graph.add_attr(attr.iface, attr.needs.items()) {
        Ok(_) => declared.add_attr(alloc, attr),
        Err(_) => Err(Memory),
    }
}

/// Adds a device. No accepted one offers too many interface attributes.
pub fn add_device(
    alloc: Global,
    declared: &mut Catalog,
    graph: &mut Graph,
    device: Device,
) -> Result<(), Memory>
    requires graph { IsGraphOf declared.old graph.old }
    requires known { All (λ b. b < length declared.old.attrs) (named_by device) }
    requires few { length declared.old.devices < 65536 }
    ensures added { OnOk result (declared.new ≡ with_device declared.old device) }
    ensures graph { OnOk result (IsGraphOf declared.new graph.new) }
{
    match graph.add_device(device.own, device.needs.items()) {
        Ok(_) => declared.add_device(alloc, device),
        Err(_) => Err(Memory),
    }
}
