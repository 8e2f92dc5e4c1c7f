//! The live devices in order of attachment, found quickly by serial.
ghost use Rattle.std.specs.Prelude.{◌≡◌, ◌<◌, ◌-◌, ◌^◌, ◌==◌, [], false, not, filter, map, length, IfOk, MatchOption, OnOk};
ghost use Rattle.std.specs.List.{slice_index_or};
ghost use Rattle.run_rules.specs.After.{with_condemner, with_sleep};
ghost use Rattle.run_rules.specs.Search.{is_occupied};
ghost use Rattle.run_rules.specs.Sound.{EachLater};
ghost use Rattle.run_rules.specs.World as world;
ghost use Rattle.run_rules.specs.declared.world.Dev.{Dev};
ghost use Rattle.plain_world.specs.LiveDevices.{AreInOrder, IsLeft, IsPlaceOf, with_device};

use crate::look::is_under;
use crate::tally::Tally;
use cf_types::Memory;
use run_rules::{Arrival, Dev};
use std::alloc::Global;
use std::marker::Model;

/// The live devices in the order in which they were attached, and the serial that the next one gets. Every value keeps that
/// serials are above 0 and below that one, and increase.
#[derive(Drop)]
pub struct Live {
    devices: Vec<Dev>,
    next: u64,
    /// How many devices are on each spot.
    on_spots: Tally,
}

impl Model for Live {
    ghost use Rattle.plain_world.specs.LiveDevices.{AreCounted, AreInOrder, LiveDevices};

    ghost Value = { LiveDevices };

    ghost view = { λ live. record { devices = live.devices.items; next = live.next } };

    ghost invariant = { λ live. AreInOrder live.devices.items live.next × AreCounted live.devices.items live.on_spots };
}

/// The place of the device of a serial, found by binary search.
fn place_by_halves(devices: &[Dev], serial: u64) -> Option<usize>
    requires { EachLater (λ d e. d.serial < e.serial) devices.now }
    ensures { MatchOption result (world.is_live devices.now serial ≡ false) (IsPlaceOf devices.now serial) }
{
    devices
        .binary_search_by_key(&serial, |device| device.serial)
        .ok()
}

/// The place of the device of a serial. While none has gone it is one below the serial.
#[inline(always)]
fn place_of(devices: &[Dev], serial: u64) -> Option<usize>
    requires { EachLater (λ d e. d.serial < e.serial) devices.now }
    ensures { MatchOption result (world.is_live devices.now serial ≡ false) (IsPlaceOf devices.now serial) }
{
    let place = serial.saturating_sub(1) as usize;
    if place < devices.len() && devices[place].serial == serial {
        return Some(place);
    }
    place_by_halves(devices, serial)
}

/// The device of a serial.
#[inline(always)]
fn find_at(devices: &[Dev], serial: u64) -> Option<Dev>
    requires { EachLater (λ d e. d.serial < e.serial) devices.now }
    ensures { result ≡ world.device_at devices.now serial }
{
    match place_of(devices, serial) {
        Some(place) => Some(devices[place]),
        None => None,
    }
}

/// Whether there is a device of a serial.
fn has_at(devices: &[Dev], serial: u64) -> bool
    requires { EachLater (λ d e. d.serial < e.serial) devices.now }
    ensures { result ≡ world.is_live devices.now serial }
{
    match place_of(devices, serial) {
        Some(_) => true,
        None => false,
    }
}

/// Removes the device of a serial, and returns the spot on which it was.
fn remove_at(devices: &mut Vec<Dev>, serial: u64) -> Option<u16>
    requires { EachLater (λ d e. d.serial < e.serial) devices.old.items }
    ensures gone { devices.new.items ≡ filter (λ d. not (d.serial == serial)) devices.old.items }
    ensures left { MatchOption result (devices.new.items ≡ devices.old.items) (λ spot. IsLeft devices.old.items devices.new.items spot) }
{
    match place_of(devices, serial) {
        Some(place) => {
            let device = devices.remove(place);
            Some(device.spot)
        }
        None => None,
    }
}

/// Puts the device of a serial to sleep, or wakes it.
fn rest_at(devices: &mut Vec<Dev>, serial: u64, asleep: bool)
    requires { EachLater (λ d e. d.serial < e.serial) devices.old.items }
    ensures { devices.new.items ≡ map (with_sleep serial asleep) devices.old.items }
{
    match place_of(devices, serial) {
        Some(place) => devices[place].asleep = asleep,
        None => {}
    }
}

/// A device, condemned if it is the one named or below it.
fn condemned(live: &Live, caller: u8, above: u64, device: Dev) -> Dev
    ensures { result ≡ with_condemner live.now.devices caller above device }
{
    if is_under(live, above, device.serial) {
        Dev {
            condemned: Some(caller),
            ..device
        }
    } else {
        device
    }
}

/// These devices with a subtree condemned.
fn all_condemned(
    alloc: Global,
    live: &Live,
    listed: &[Dev],
    caller: u8,
    above: u64,
) -> Result<Vec<Dev>, Memory>
    ensures { IfOk result (λ devices. devices.items ≡ map (with_condemner live.now.devices caller above) listed.now) }
{
    let mut devices = Vec::new(alloc);
    for device in listed {
        devices.push(condemned(live, caller, above, *device))?;
    }
    Ok(devices)
}

impl Live {
    /// No devices; the first serial is 1.
    pub fn make(alloc: Global) -> Live
        ensures { result ≡ record { devices = []; next = 1 } }
    {
        Live {
            devices: Vec::new(alloc),
            next: 1,
            on_spots: Tally::make(alloc),
        }
    }

    /// A copy.
    pub fn copied(&self, alloc: Global) -> Result<Live, Memory>
        ensures { IfOk result (λ copy. copy ≡ self.now) }
    {
        let devices = Vec::from_slice(alloc, &self.devices)?;
        let on_spots = self.on_spots.copied(alloc)?;
        Ok(Live {
            devices,
            next: self.next,
            on_spots,
        })
    }

    /// The devices in order of attachment.
    pub fn devices(&self) -> &[Dev]
        ensures { result.now ≡ self.now.devices }
    {
        &self.devices
    }

    /// How many devices there are.
    pub fn count(&self) -> usize
        ensures { result ≡ length self.now.devices }
    {
        self.devices.len()
    }

    /// The facts that every value keeps. It does nothing.
    pub fn stands(&self)
        ensures { AreInOrder self.now.devices self.now.next }
    {
        let _ = &self.devices;
    }

    /// The serial that the next device gets.
    pub fn next(&self) -> u64
        ensures { result ≡ self.now.next }
    {
        self.next
    }

    /// The device of a serial.
    #[inline(always)]
    pub fn get(&self, serial: u64) -> Option<Dev>
        ensures { result ≡ world.device_at self.now.devices serial }
    {
        find_at(&self.devices, serial)
    }

    /// Whether there is a device of a serial.
    pub fn has(&self, serial: u64) -> bool
        ensures { result ≡ world.is_live self.now.devices serial }
    {
        has_at(&self.devices, serial)
    }

    /// Whether a device is on a spot.
    pub fn is_on(&self, spot: u16) -> bool
        ensures { result ≡ is_occupied self.now.devices spot }
    {
        self.on_spots.has(spot as u64)
    }

    /// A device is attached, with the next serial.
    pub fn push(&mut self, arrival: Arrival) -> Result<(), Memory>
        requires { self.old.next < 2 ^ 64 - 1 }
        ensures { OnOk result (self.new ≡ with_device self.old arrival) }
    {
        self.on_spots.reach(arrival.spot as u64)?;
        self.devices.push(Dev {
            serial: self.next,
            row: arrival.row,
            unit: arrival.unit,
            parent: arrival.parent,
            spot: arrival.spot,
            asleep: false,
            condemned: None,
        })?;
        self.on_spots.enter(arrival.spot as u64);
        self.next += 1;
        Ok(())
    }

    /// The device of a serial is removed.
    pub fn remove(&mut self, serial: u64)
        ensures { self.new ≡ record self.old { devices = filter (λ d. not (d.serial == serial)) self.old.devices } }
    {
        match remove_at(&mut self.devices, serial) {
            Some(spot) => self.on_spots.leave(spot as u64),
            None => {}
        }
    }

    /// The device of a serial falls asleep, or wakes.
    pub fn rest(&mut self, serial: u64, asleep: bool)
        ensures { self.new ≡ record self.old { devices = map (with_sleep serial asleep) self.old.devices } }
    {
        rest_at(&mut self.devices, serial, asleep);
    }

    /// A device and all that is below it are condemned.
    pub fn condemn(&mut self, alloc: Global, caller: u8, above: u64) -> Result<(), Memory>
        ensures { OnOk result (self.new ≡ record self.old { devices = map (with_condemner self.old.devices caller above) self.old.devices }) }
    {
        let devices = all_condemned(alloc, self, self.devices(), caller, above)?;
        self.devices = devices;
        Ok(())
    }
}
