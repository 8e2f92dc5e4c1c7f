ghost use Rattle.std.specs.Prelude.{◌≡◌, ◌==◌, ◌<◌, ℕ, [], ◌∷◌, ◌++◌, IfSome, OnOk, length, if◌then◌else◌};
ghost use Rattle.cf_types.specs.declared.declared.Declared.{Declared};
ghost use Rattle.cf_names.specs.Attaches.{numbers_at};
ghost use Rattle.cf_names.specs.Indexed.{IsIndexOf};
ghost use Rattle.cf_names.specs.NameNumbers.{AreNumbers};
ghost use Rattle.cf_names.specs.Spots.{AreSpots};

use crate::attached::Attached;
use crate::hash::NameHash;
use crate::numbers::{NameNumbers, no_numbers, reserve_names};
use crate::spots::{MAX_SCANNED, Spots};
use cf_types::{Attach, Memory};
use std::alloc::Global;

/// Of each device the numbers of its attachments, in order, up to the last device that has one.
pub type OfDevices = Vec<Attached>;

/// The numbers of attributes, devices and attachments by name, and those of the attachments by device; and of each device
/// the first spot at each place, if these are noted.
#[derive(Drop)]
pub struct Index {
    pub attrs: NameNumbers,
    pub devices: NameNumbers,
    pub attaches: NameNumbers,
    pub of_devices: OfDevices,
    pub spots: Option<Spots>,
}

/// For how many attributes, devices and attachments to make room.
#[derive(Clone, Copy)]
pub struct Room {
    pub attrs: usize,
    pub devices: usize,
    pub attaches: usize,
}

impl Index {
    /// Makes room for the names of this many more.
    pub fn reserve(&mut self, more: Room) -> Result<(), Memory>
        ensures { (d : Declared) → IsIndexOf d self.old → IsIndexOf d self.new }
    {
        reserve_names(&mut self.attrs, more.attrs)?;
        reserve_names(&mut self.devices, more.devices)?;
        reserve_names(&mut self.attaches, more.attaches)?;
        self.of_devices.reserve(more.devices)?;
        Ok(())
    }

    /// No number.
    pub fn make(alloc: Global, hash: NameHash) -> Index
        ensures attrs { AreNumbers result.attrs [] }
        ensures devices { AreNumbers result.devices [] }
        ensures attaches { AreNumbers result.attaches [] }
        ensures of_devices { result.of_devices.items ≡ [] }
        ensures spots { IfSome result.spots (λ spots. AreSpots spots []) }
    {
        Index {
            attrs: no_numbers(alloc, hash),
            devices: no_numbers(alloc, hash),
            attaches: no_numbers(alloc, hash),
            of_devices: Vec::new(alloc),
            spots: None,
        }
    }
}

/// Adds empty lists, so that there is one for a device.
fn make_room(alloc: Global, of_devices: &mut OfDevices, device: usize) -> Result<(), Memory>
    ensures room { OnOk result (device < length of_devices.new.items) }
    ensures same { OnOk result ((q : ℕ) → numbers_at of_devices.new.items q ≡ numbers_at of_devices.old.items q) }
{
    while of_devices.len() <= device {
        of_devices.push(Attached::make(alloc))?;
    }
    Ok(())
}

/// Appends a number to those of a device.
pub fn add_number(
    alloc: Global,
    of_devices: &mut OfDevices,
    device: u32,
    number: usize,
) -> Result<(), Memory>
    ensures { OnOk result ((q : ℕ) → numbers_at of_devices.new.items q ≡ numbers_at of_devices.old.items q ++ (if device == q then number ∷ [] else [])) }
{
    make_room(alloc, of_devices, device as usize)?;
    let numbers = &mut of_devices[device as usize];
    numbers.push(number)
}

/// Whether the device of an attachment has many, or the attachment many places.
pub fn are_many(of_devices: &OfDevices, attach: &Attach) -> bool {
    if attach.places.len() > MAX_SCANNED {
        return true;
    }
    match of_devices.get(attach.device as usize) {
        Some(attached) => attached.items().len() > MAX_SCANNED,
        None => false,
    }
}
