//! The live devices as a plain list.

use cf_types::{Memory, Row, Tables, put_decimal};
use run_rules::ParentRef;
use std::alloc::Global;

/// A live device: its serial, the number of its row, its driver and unit, the serial of its parent, 0 for the root, and
/// its spot; whether it sleeps, and which caller is about to free it.
#[derive(Clone, Copy)]
pub struct Device {
    pub serial: u64,
    pub row: u32,
    pub driver: u32,
    pub unit: u32,
    pub parent: u64,
    pub spot: u16,
    pub asleep: bool,
    pub condemned: Option<u8>,
}

/// The name under which a device is known.
pub fn name_of(alloc: Global, tables: &Tables, device: Device) -> Result<Vec<u8>, Memory> {
    let mut name = Vec::new(alloc);
    if let Some(driver) = tables.devices.items().get(device.driver as usize) {
        name.extend_from_slice(driver.name.bytes())?;
    }
    put_decimal(&mut name, i64::from(device.unit))?;
    Ok(name)
}

/// The device of this name, by comparing the name of each.
pub fn device_named(
    alloc: Global,
    tables: &Tables,
    devices: &[Device],
    name: &[u8],
) -> Result<Option<Device>, Memory> {
    for device in devices {
        if name_of(alloc, tables, *device)?.as_slice() == name {
            return Ok(Some(*device));
        }
    }
    Ok(None)
}

/// The device of a serial.
pub fn device_at(devices: &[Device], serial: u64) -> Option<Device> {
    devices
        .iter()
        .find(|device| device.serial == serial)
        .copied()
}

/// The device on a spot.
pub fn device_on(devices: &[Device], spot: u16) -> Option<Device> {
    devices.iter().find(|device| device.spot == spot).copied()
}

/// Whether a device is another one, or below it.
pub fn is_under(devices: &[Device], serial: u64, above: u64) -> bool {
    let mut current = serial;
    for _device in devices {
        if current == above {
            return true;
        }
        match device_at(devices, current) {
            Some(device) => current = device.parent,
            None => return false,
        }
    }
    false
}

/// Whether a device is on a spot.
pub fn is_occupied(devices: &[Device], spot: u16) -> bool {
    devices.iter().any(|device| device.spot == spot)
}

/// Whether a device has this driver and unit.
fn is_taken(devices: &[Device], driver: u32, unit: u32) -> bool {
    devices
        .iter()
        .any(|device| device.driver == driver && device.unit == unit)
}

/// Whether a row may attach: it is starred, or no device has its driver and unit.
pub fn is_live_row(devices: &[Device], row: &Row) -> bool {
    row.star || !is_taken(devices, row.device, row.unit)
}

/// The first unit from this one on that no device has.
fn first_free(devices: &[Device], driver: u32, first: u32) -> u32 {
    let mut unit = first;
    for _device in devices {
        if !is_taken(devices, driver, unit) {
            return unit;
        }
        unit = unit.saturating_add(1);
    }
    unit
}

/// The unit that a row gives: its own, or for a starred row the first from it on that no device has.
pub fn unit_by(devices: &[Device], row: &Row) -> u32 {
    if row.star {
        first_free(devices, row.device, row.unit)
    } else {
        row.unit
    }
}

/// The device, or the root, as a row names its parent.
pub fn parent_ref(parent: Option<Device>) -> ParentRef {
    match parent {
        Some(device) => ParentRef::Dev {
            device: device.driver,
            unit: device.unit,
        },
        None => ParentRef::Root,
    }
}

/// A device with its depth, counted from 0 below the root.
#[derive(Clone, Copy)]
pub struct Deep {
    pub depth: u32,
    pub device: Device,
}

/// Where the devices below the one at a place end, in a list that goes depth first.
fn end_below(list: &[Deep], place: usize) -> usize {
    match list.get(place..) {
        Some([top, rest @ ..]) => {
            match rest.iter().position(|deep| deep.depth <= top.depth) {
                Some(more) => place.saturating_add(more).saturating_add(1),
                None => list.len(),
            }
        }
        _ => list.len(),
    }
}

/// The depth of the device at a place.
fn depth_at(list: &[Deep], place: usize) -> u32 {
    match list.get(place) {
        Some(deep) => deep.depth,
        None => 0,
    }
}

/// Puts a device after all that is below its parent.
fn put_deep(list: &mut Vec<Deep>, device: Device) -> Result<(), Memory> {
    let parent = list
        .iter()
        .position(|other| other.device.serial == device.parent);
    let (place, depth) = match parent {
        Some(parent) => (
            end_below(list, parent),
            depth_at(list, parent).saturating_add(1),
        ),
        None => (list.len(), 0),
    };
    list.insert(place.min(list.len()), Deep { depth, device })?;
    Ok(())
}

/// The tree of all devices, depth first, children by serial.
pub fn tree_of(alloc: Global, devices: &[Device]) -> Result<Vec<Deep>, Memory> {
    let mut list = Vec::new(alloc);
    for device in devices {
        put_deep(&mut list, *device)?;
    }
    Ok(list)
}

/// The part of a tree that begins with a device.
pub fn part_of(list: &[Deep], device: Device) -> &[Deep] {
    let place = list
        .iter()
        .position(|deep| deep.device.serial == device.serial);
    match place {
        Some(place) => list.get(place..end_below(list, place)).unwrap_or(&[]),
        None => &[],
    }
}
