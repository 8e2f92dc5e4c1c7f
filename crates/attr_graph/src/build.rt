ghost use Rattle.std.specs.Prelude.{◌≡◌, ℕ, ◌<◌, ◌≤◌, [], ◌∷◌, ◌++◌, length, map, All, IfOk, OnOk};
ghost use Rattle.cf_types.specs.Offers.{AreEarlier, interfaces_of, named_by, node_of, nodes_of};
ghost use Rattle.attr_graph.specs.Graphs.{FitGraph, IsGraphOf, declared_by};

use crate::gather::GraphStop;
use crate::graph::Graph;
use cf_types::{Attr, Device, Memory, Tables};
use std::alloc::Global;

/// Adds an attribute that offers no more than `MAX_INTERFACES`.
fn push_attr(graph: &mut Graph, attr: &Attr) -> Result<(), Memory>
    requires known { All (λ a. a < length graph.old.attrs) attr.now.needs }
    requires few { length graph.old.attrs < 65536 }
    requires offered { length (interfaces_of (graph.old.attrs ++ node_of attr.now ∷ []) (length graph.old.attrs ∷ [])) ≤ 64 }
    ensures { OnOk result (graph.new ≡ record graph.old { attrs = graph.old.attrs ++ node_of attr.now ∷ [] }) }
{
    match graph.add_attr(attr.iface, attr.needs.items()) {
        Ok(_) => Ok(()),
        Err(GraphStop::TooMany) => unreachable!(),
        Err(GraphStop::Memory) => Err(Memory),
    }
}

/// Adds a device that offers no more than `MAX_INTERFACES`.
fn push_device(graph: &mut Graph, device: &Device) -> Result<(), Memory>
    requires known { All (λ a. a < length graph.old.attrs) (named_by device.now) }
    requires few { length graph.old.devices < 65536 }
    requires offered { length (interfaces_of graph.old.attrs (named_by device.now)) ≤ 64 }
    ensures { OnOk result (graph.new ≡ record graph.old { devices = graph.old.devices ++ named_by device.now ∷ [] }) }
{
    match graph.add_device(device.own, device.needs.items()) {
        Ok(_) => Ok(()),
        Err(GraphStop::TooMany) => unreachable!(),
        Err(GraphStop::Memory) => Err(Memory),
    }
}

/// The graph of attributes alone, with room for this many devices.
fn graph_of_attrs(alloc: Global, attrs: &[Attr], devices: usize) -> Result<Graph, Memory>
    requires few { length attrs.now ≤ 65536 }
    requires earlier { AreEarlier (nodes_of attrs.now) }
    requires offered { (a : ℕ) → length (interfaces_of (nodes_of attrs.now) (a ∷ [])) ≤ 64 }
    ensures { IfOk result (λ graph. graph ≡ record { attrs = nodes_of attrs.now; devices = [] }) }
{
    let mut graph = Graph::make(alloc);
    graph.reserve(attrs.len(), devices)?;
    for attr in attrs {
        push_attr(&mut graph, attr)?;
    }
    Ok(graph)
}

/// Adds the devices.
fn push_devices(graph: &mut Graph, devices: &[Device]) -> Result<(), Memory>
    requires empty { graph.old.devices ≡ [] }
    requires few { length devices.now ≤ 65536 }
    requires known { All (λ d. All (λ a. a < length graph.old.attrs) (named_by d)) devices.now }
    requires offered { All (λ d. length (interfaces_of graph.old.attrs (named_by d)) ≤ 64) devices.now }
    ensures { OnOk result (graph.new ≡ record graph.old { devices = map named_by devices.now }) }
{
    for device in devices {
        push_device(graph, device)?;
    }
    Ok(())
}

/// The graph of the attributes and devices of formed tables. The only error is `Memory`. See config(5).
pub fn graph_of(alloc: Global, tables: &Tables) -> Result<Graph, Memory>
    requires { FitGraph tables.now }
    ensures { IfOk result (λ graph. IsGraphOf (declared_by tables.now) graph) }
{
    let mut graph = graph_of_attrs(alloc, tables.attrs.items(), tables.devices.len())?;
    push_devices(&mut graph, tables.devices.items())?;
    Ok(graph)
}
