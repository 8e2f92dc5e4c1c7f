//! What linear search keeps of a run, and what it looks up there.

use crate::devices::{Device, device_named, is_under, name_of};
use crate::refs::{Held, count_of};
use crate::search::offers;
use cf_types::{Machine, Memory, Name, Policy, Spot, Tables};
use dev_event::PowerKind;
use std::alloc::Global;

/// A power command that goes on: its caller and the serial of its device.
#[derive(Clone, Copy)]
pub struct Power {
    pub caller: u8,
    pub kind: PowerKind,
    pub target: u64,
}

/// The tables and the machine, and all that events have changed so far, as plain lists.
#[derive(Drop)]
pub struct World<'a> {
    pub alloc: Global,
    pub tables: &'a Tables,
    pub machine: &'a Machine,
    pub devices: Vec<Device>,
    pub refs: Vec<Held>,
    /// The devices to which a caller has the only reference.
    pub sole: Vec<u64>,
    /// The devices whose search is not over, and those whose finalizer is to be called again.
    pub searched: Vec<u64>,
    pub finalised: Vec<u64>,
    /// Of each spot whether it has no hardware, and whether it is hidden.
    pub absent: Vec<bool>,
    pub hidden: Vec<bool>,
    pub powers: Vec<Power>,
    pub is_booted: bool,
    pub next: u64,
}

impl<'a> World<'a> {
    /// Before any event.
    pub fn make(alloc: Global, tables: &'a Tables, machine: &'a Machine) -> Result<Self, Memory> {
        let mut absent = Vec::new(alloc);
        let mut hidden = Vec::new(alloc);
        for spot in machine.spots.items() {
            absent.push(spot.absent)?;
            hidden.push(spot.late)?;
        }
        Ok(World {
            alloc,
            tables,
            machine,
            devices: Vec::new(alloc),
            refs: Vec::new(alloc),
            sole: Vec::new(alloc),
            searched: Vec::new(alloc),
            finalised: Vec::new(alloc),
            absent,
            hidden,
            powers: Vec::new(alloc),
            is_booted: false,
            next: 1,
        })
    }

    /// The device of this name.
    pub fn named(&self, name: &Name) -> Result<Option<Device>, Memory> {
        device_named(self.alloc, self.tables, &self.devices, name.bytes())
    }

    /// Whether a device has this name.
    pub fn is_name(&self, device: Device, name: &Name) -> Result<bool, Memory> {
        Ok(name_of(self.alloc, self.tables, device)?.as_slice() == name.bytes())
    }

    /// The number of the spot of this name.
    pub fn spot_named(&self, name: &Name) -> Option<u16> {
        let mut number: u16 = 0;
        for spot in self.machine.spots.items() {
            if spot.name == *name {
                return Some(number);
            }
            number = number.saturating_add(1);
        }
        None
    }

    /// What the driver of a device refuses or defers.
    pub fn policy_of(&self, device: Device) -> Policy {
        let Some(row) = self.tables.rows.items().get(device.row as usize) else {
            return Policy::none();
        };
        match self.machine.policies.items().get(row.attach as usize) {
            Some(policy) => *policy,
            None => Policy::none(),
        }
    }

    /// Whether a search or a finalizer is busy with a device.
    pub fn is_pinned(&self, serial: u64) -> bool {
        let mut busy = self.searched.iter().chain(&self.finalised);
        busy.any(|pinned| *pinned == serial)
    }

    /// Whether a device keeps itself and those above it from being freed.
    fn is_kept(&self, device: Device, caller: u8, forced: bool) -> bool {
        (!forced && self.policy_of(device).nodetach)
            || self.is_pinned(device.serial)
            || device.condemned.is_some()
            || count_of(&self.refs, device.serial, caller) != 0
    }

    /// The first device of a subtree that keeps it from being freed.
    pub fn hindrance(&self, target: u64, caller: u8, forced: bool) -> Option<Device> {
        for device in &self.devices {
            if self.is_kept(*device, caller, forced)
                && is_under(&self.devices, device.serial, target)
            {
                return Some(*device);
            }
        }
        None
    }

    /// The first device that a caller holds.
    pub fn first_held(&self, caller: u8) -> Option<Device> {
        for device in &self.devices {
            if count_of(&self.refs, device.serial, caller) != 0 {
                return Some(*device);
            }
        }
        None
    }

    /// The last device that a caller is about to free.
    pub fn next_free(&self, caller: u8) -> Option<Device> {
        let mut devices = self.devices.iter().rev();
        devices
            .find(|device| device.condemned == Some(caller))
            .copied()
    }

    /// The last device awake in a subtree.
    pub fn next_sleep(&self, target: u64) -> Option<Device> {
        for device in self.devices.iter().rev() {
            if !device.asleep && is_under(&self.devices, device.serial, target) {
                return Some(*device);
            }
        }
        None
    }

    /// Whether a device is the target or above it, or below it, too.
    fn is_to_wake(&self, serial: u64, target: u64, whole: bool) -> bool {
        is_under(&self.devices, target, serial)
            || (whole && is_under(&self.devices, serial, target))
    }

    /// The first sleeping device of those above the target, or below it, too.
    pub fn next_wake(&self, target: u64, whole: bool) -> Option<Device> {
        for device in &self.devices {
            if device.asleep && self.is_to_wake(device.serial, target, whole) {
                return Some(*device);
            }
        }
        None
    }

    /// Whether a spot has hardware and is not hidden.
    pub fn is_seen(&self, spot: u16) -> bool {
        let absent = self.absent.get(spot as usize).copied();
        let hidden = self.hidden.get(spot as usize).copied();
        absent == Some(false) && hidden == Some(false)
    }

    /// Whether a spot is hidden, has hardware, and is below a device on an attribute that it offers.
    fn is_late(&self, device: Device, spot: &Spot, number: u16) -> Result<bool, Memory> {
        let absent = self.absent.get(number as usize).copied();
        let hidden = self.hidden.get(number as usize).copied();
        if absent != Some(false) || hidden != Some(true) || spot.parent != Some(device.spot) {
            return Ok(false);
        }
        offers(self.alloc, self.tables, Some(device), spot.place)
    }

    /// The spot that a finalizer of a device shows.
    pub fn late_spot(&self, device: Device) -> Result<Option<u16>, Memory> {
        let mut number: u16 = 0;
        for spot in self.machine.spots.items() {
            if self.is_late(device, spot, number)? {
                return Ok(Some(number));
            }
            number = number.saturating_add(1);
        }
        Ok(None)
    }

    /// A device falls asleep, or wakes.
    pub fn rest(&mut self, serial: u64, asleep: bool) {
        for device in &mut self.devices {
            if device.serial == serial {
                device.asleep = asleep;
            }
        }
    }

    /// A caller is about to free a subtree.
    pub fn condemn(&mut self, target: u64, caller: u8) {
        for place in 0..self.devices.len() {
            let is_below = match self.devices.get(place) {
                Some(device) => is_under(&self.devices, device.serial, target),
                None => false,
            };
            match self.devices.get_mut(place) {
                Some(device) if is_below => device.condemned = Some(caller),
                _ => {}
            }
        }
    }
}
