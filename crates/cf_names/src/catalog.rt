ghost use Rattle.std.specs.Prelude.{◌≡◌, [], ◌∷◌, ◌++◌, ◌<◌, length, IfSome, OnOk, All, Ok};
ghost use Rattle.cf_types.specs.Lookups.{attr_number, device_number, has_attach};
ghost use Rattle.cf_names.specs.Attaches.{attaches_of};
ghost use Rattle.cf_names.specs.Indexed.{IsIndexOf, with_attach, with_attr, with_device};
ghost use Rattle.cf_names.specs.Spots.{AreSpots, all_spots};

use crate::hash::{HashKey, NameHash};
use crate::index::{Index, Room, add_number, are_many};
use crate::numbers::{add_name, number_in};
use crate::spots::{Spots, note_spots};
use cf_types::{Attach, Attr, Declared, Device, List, Memory, Name};
use std::alloc::Global;
use std::marker::Model;

/// Attributes, devices and attachments, each in the order in which they are declared. Contracts see the lists; besides,
/// numbers are kept by name and by device, so that no look-up needs a scan. See config(5).
#[derive(Drop)]
pub struct Catalog {
    lists: Declared,
    index: Index,
}

impl Model for Catalog {
    ghost use Rattle.cf_types.specs.declared.declared.Declared.{Declared as Lists};
    ghost use Rattle.cf_names.specs.Indexed.{IsIndexOf};

    ghost Value = { Lists };

    ghost view = { λ it. it.lists };

    ghost invariant = { λ it. IsIndexOf it.lists it.index };
}

/// Makes room for this many more attributes, devices and attachments.
fn reserve_lists(lists: &mut Declared, more: Room) -> Result<(), Memory>
    ensures { lists.new ≡ lists.old }
{
    lists.attrs.reserve(more.attrs)?;
    lists.devices.reserve(more.devices)?;
    lists.attaches.reserve(more.attaches)
}

/// Notes the name of an attribute after the others.
fn note_attr(alloc: Global, index: &mut Index, lists: &Declared, attr: &Attr) -> Result<(), Memory>
    requires { IsIndexOf lists.now index.old }
    ensures { OnOk result (IsIndexOf (with_attr lists.now attr.now) index.new) }
{
    let number = lists.attrs.len();
    add_name(&mut index.attrs, &attr.name, number)?;
    Ok(())
}

/// Notes the name of a device after the others.
fn note_device(
    alloc: Global,
    index: &mut Index,
    lists: &Declared,
    device: &Device,
) -> Result<(), Memory>
    requires { IsIndexOf lists.now index.old }
    ensures { OnOk result (IsIndexOf (with_device lists.now device.now) index.new) }
{
    let number = lists.devices.len();
    add_name(&mut index.devices, &device.name, number)?;
    Ok(())
}

/// Notes the name, the device and the spots of an attachment after the others.
fn note_attach(
    alloc: Global,
    index: &mut Index,
    lists: &Declared,
    attach: &Attach,
) -> Result<(), Memory>
    requires { IsIndexOf lists.now index.old }
    ensures { OnOk result (IsIndexOf (with_attach lists.now attach.now) index.new) }
{
    let number = lists.attaches.len();
    add_name(&mut index.attaches, &attach.name, number)?;
    add_number(alloc, &mut index.of_devices, attach.device, number)?;
    let many = are_many(&index.of_devices, attach);
    let attaches = lists.attaches.items();
    note_spots(alloc, &mut index.spots, attaches, attach, many)?;
    Ok(())
}

/// Appends what is noted already.
fn push_noted<T: Drop>(
    list: &mut List<T>,
    noted: Result<(), Memory>,
    value: T,
) -> Result<(), Memory>
    ensures noted { OnOk result (noted ≡ Ok tt) }
    ensures pushed { OnOk result (list.new ≡ list.old ++ value ∷ []) }
{
    match noted {
        Ok(()) => list.push(value),
        Err(stop) => {
            drop(value);
            Err(stop)
        }
    }
}

/// Nothing is declared.
fn no_lists(alloc: Global) -> Declared
    ensures { result ≡ record { attrs = []; devices = []; attaches = [] } }
{
    Declared {
        attrs: List::make(alloc),
        devices: List::make(alloc),
        attaches: List::make(alloc),
    }
}

/// Drops what is declared, if memory ran out while it grew.
fn settle(
    alloc: Global,
    lists: &mut Declared,
    index: &mut Index,
    added: Result<(), Memory>,
) -> Result<(), Memory>
    requires { OnOk added (IsIndexOf lists.old index.old) }
    ensures result { result ≡ added }
    ensures same { OnOk result (lists.new ≡ lists.old) }
    ensures index { IsIndexOf lists.new index.new }
{
    if added.is_err() {
        *lists = no_lists(alloc);
        *index = Index::make(alloc, HashKey::make().hash());
    }
    added
}

impl Catalog {
    /// Nothing is declared yet; names will be found by this hash. It takes no memory.
    pub fn make(alloc: Global, hash: NameHash) -> Catalog
        ensures { result ≡ record { attrs = []; devices = []; attaches = [] } }
    {
        Catalog {
            lists: no_lists(alloc),
            index: Index::make(alloc, hash),
        }
    }

    /// Makes room for so many more attributes, devices and attachments. If memory runs out, what is declared is as
    /// before.
    pub fn reserve(&mut self, more: Room) -> Result<(), Memory>
        ensures { self.new ≡ self.old }
    {
        reserve_lists(&mut self.lists, more)?;
        self.index.reserve(more)
    }

    /// The attributes.
    pub fn attrs(&self) -> &[Attr]
        ensures { result.now ≡ self.now.attrs }
    {
        self.lists.attrs.items()
    }

    /// The devices.
    pub fn devices(&self) -> &[Device]
        ensures { result.now ≡ self.now.devices }
    {
        self.lists.devices.items()
    }

    /// The attachments.
    pub fn attaches(&self) -> &[Attach]
        ensures { result.now ≡ self.now.attaches }
    {
        self.lists.attaches.items()
    }

    /// The number of the first attribute of this name.
    pub fn attr_number(&self, name: &Name) -> Option<usize>
        ensures found { result ≡ attr_number self.now.attrs name.now }
        ensures within { IfSome result (λ n. n < length self.now.attrs) }
    {
        number_in(&self.index.attrs, name)
    }

    /// The number of the first device of this name.
    pub fn device_number(&self, name: &Name) -> Option<usize>
        ensures found { result ≡ device_number self.now.devices name.now }
        ensures within { IfSome result (λ n. n < length self.now.devices) }
    {
        number_in(&self.index.devices, name)
    }

    /// Whether an attachment has this name.
    pub fn has_attach(&self, name: &Name) -> bool
        ensures { result ≡ has_attach self.now.attaches name.now }
    {
        number_in(&self.index.attaches, name).is_some()
    }

    /// The numbers of the attachments of a device, in order.
    pub fn attaches_of(&self, device: u32) -> &[usize]
        ensures numbers { result.now ≡ attaches_of self.now.attaches device }
        ensures within { All (λ n. n < length self.now.attaches) result.now }
    {
        match self.index.of_devices.get(device as usize) {
            Some(numbers) => numbers.items(),
            None => &[],
        }
    }

    /// The first spots of devices at places, if they are noted. Whether they are noted affects only speed.
    pub fn noted_spots(&self) -> Option<&Spots>
        ensures { IfSome result (λ spots. AreSpots spots.now (all_spots self.now.attaches)) }
    {
        self.index.spots.as_ref()
    }

    /// Adds an attribute. If memory runs out, nothing remains declared.
    pub fn add_attr(&mut self, alloc: Global, attr: Attr) -> Result<(), Memory>
        ensures { OnOk result (self.new ≡ record self.old { attrs = self.old.attrs ++ attr ∷ [] }) }
    {
        let noted = note_attr(alloc, &mut self.index, &self.lists, &attr);
        let added = push_noted(&mut self.lists.attrs, noted, attr);
        settle(alloc, &mut self.lists, &mut self.index, added)
    }

    /// Adds a device. If memory runs out, nothing remains declared.
    pub fn add_device(&mut self, alloc: Global, device: Device) -> Result<(), Memory>
        ensures { OnOk result (self.new ≡ record self.old { devices = self.old.devices ++ device ∷ [] }) }
    {
        let noted = note_device(alloc, &mut self.index, &self.lists, &device);
        let added = push_noted(&mut self.lists.devices, noted, device);
        settle(alloc, &mut self.lists, &mut self.index, added)
    }

    /// Adds an attachment. If memory runs out, nothing remains declared.
    pub fn add_attach(&mut self, alloc: Global, attach: Attach) -> Result<(), Memory>
        ensures { OnOk result (self.new ≡ record self.old { attaches = self.old.attaches ++ attach ∷ [] }) }
    {
        let noted = note_attach(alloc, &mut self.index, &self.lists, &attach);
        let added = push_noted(&mut self.lists.attaches, noted, attach);
        settle(alloc, &mut self.lists, &mut self.index, added)
    }

    /// Only the lists.
    pub fn into_lists(self) -> Declared
        ensures { result ≡ self }
    {
        let Catalog { lists, .. } = self;
        lists
    }
}
