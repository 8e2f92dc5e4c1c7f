ghost use Rattle.std.specs.Prelude.{◌≡◌, ◌<◌, ◌+◌, ◌≤◌, nat_le, false, if◌then◌else◌, [], ◌++◌, length, All, IfOk};
ghost use Rattle.std.specs.List.{slice_index_or};
ghost use Rattle.std.specs.Option.{option_to_list, option_map_or, ForSome};
ghost use Rattle.cf_types.specs.Gather.{is_in};
ghost use Rattle.cf_types.specs.Offers.{interfaces_of};
ghost use Rattle.attr_graph.specs.Reach.{AddsAttr, AddsDevice};

use crate::entry::{AttrEntry, DeviceEntry, Numbers};
use crate::gather::{GraphStop, MAX_INTERFACES, list_count};
use crate::prepare::{attr_entry, device_entry, reach_count};
use std::alloc::{AllocError, Global};
use std::marker::Model;

/// The interface attributes that each attribute and each device offers: its own, and those that it names, directly or
/// through other attributes, each once, in the order in which a walk along the names meets them. See config(5).
#[derive(Drop)]
pub struct Graph {
    attrs: Vec<AttrEntry>,
    devices: Vec<DeviceEntry>,
    marks: Vec<bool>,
}

impl Model for Graph {
    ghost use Rattle.attr_graph.specs.Reach.{KeptAttrs, KeptDevices, Shape, shape_of};

    ghost Value = { Shape };

    ghost view = { λ it. shape_of it.attrs.items it.devices.items };

    ghost invariant = { λ it. KeptAttrs it.attrs.items it.marks.items × KeptDevices it.attrs.items it.devices.items };
}

/// Whether a count, with one more for itself, is within the limit.
fn is_few(own: bool, count: Option<usize>) -> bool
    requires { ForSome count (λ n. n ≤ MAX_INTERFACES) }
    ensures { result ≡ option_map_or (λ n. nat_le ((if own then 1 else 0) + n) MAX_INTERFACES) count false }
{
    match count {
        Some(count) => count + usize::from(own) <= MAX_INTERFACES,
        None => false,
    }
}

impl Graph {
    /// A graph without attributes and devices. It takes no memory.
    pub fn make(alloc: Global) -> Graph
        ensures { result ≡ record { attrs = []; devices = [] } }
    {
        Graph {
            attrs: Vec::new(alloc),
            devices: Vec::new(alloc),
            marks: Vec::new(alloc),
        }
    }

    /// Makes room for this many more attributes and devices.
    pub fn reserve(&mut self, attrs: usize, devices: usize) -> Result<(), AllocError>
        ensures { self.new ≡ self.old }
    {
        self.attrs.reserve(attrs)?;
        self.marks.reserve(attrs)?;
        self.devices.reserve(devices)
    }

    /// Adds an attribute that names earlier ones, and returns its number. There have to be fewer than 65,536
    /// attributes. At `TooMany` and `Memory` the graph is as before.
    pub fn add_attr(&mut self, iface: bool, needs: &[u32]) -> Result<u32, GraphStop>
        requires known { All (λ a. a < length self.old.attrs) needs.now }
        requires few { length self.old.attrs < 65536 }
        ensures { AddsAttr self.old self.new (record { iface = iface; needs = needs.now }) result }
    {
        let alloc = *self.attrs.allocator();
        let entry = match attr_entry(alloc, &self.attrs, &mut self.marks, iface, needs) {
            Ok(entry) => entry,
            Err(stop) => return Err(stop),
        };
        let number = self.attrs.len() as u32;
        self.attrs.push(entry)?;
        Ok(number)
    }

    /// Adds a device with its own interface attribute, if it has one, and the attributes that it names, and returns its
    /// number. There have to be fewer than 65,536 devices. At `TooMany` and `Memory` the graph is as before.
    pub fn add_device(&mut self, own: Option<u32>, needs: &[u32]) -> Result<u32, GraphStop>
        requires known { All (λ a. a < length self.old.attrs) (option_to_list own ++ needs.now) }
        requires few { length self.old.devices < 65536 }
        ensures { AddsDevice self.old self.new (option_to_list own ++ needs.now) result }
    {
        let alloc = *self.attrs.allocator();
        let names = Numbers::behind(alloc, own, needs)?;
        let entry = match device_entry(alloc, &self.attrs, &mut self.marks, names) {
            Ok(entry) => entry,
            Err(stop) => return Err(stop),
        };
        let number = self.devices.len() as u32;
        self.devices.push(entry)?;
        Ok(number)
    }

    /// Whether an attribute or device with these needs would offer no more than `MAX_INTERFACES`, itself included if
    /// `own` is true.
    pub fn fits(&mut self, own: bool, names: &[u32]) -> Result<bool, AllocError>
        requires { All (λ a. a < length self.old.attrs) names.now }
        ensures fits { IfOk result (λ fits. fits ≡ nat_le ((if own then 1 else 0) + length (interfaces_of self.old.attrs names.now)) MAX_INTERFACES) }
        ensures same { self.new ≡ self.old }
    {
        if list_count(&self.attrs, own, names).is_some() {
            return Ok(true);
        }
        let alloc = *self.attrs.allocator();
        let count = reach_count(alloc, &self.attrs, &mut self.marks, names)?;
        Ok(is_few(own, count))
    }

    /// The interface list of a device. It takes no memory.
    pub fn interfaces(&self, device: u32) -> &[u32]
        requires { device < length self.now.devices }
        ensures { result.now ≡ interfaces_of self.now.attrs (slice_index_or self.now.devices device []) }
    {
        self.devices[device as usize].reach.items()
    }

    /// Whether a device offers an attribute. It takes no memory.
    pub fn offers(&self, device: u32, attr: u32) -> bool
        requires { device < length self.now.devices }
        ensures { result ≡ is_in attr (interfaces_of self.now.attrs (slice_index_or self.now.devices device [])) }
    {
        self.interfaces(device).contains(&attr)
    }
}
