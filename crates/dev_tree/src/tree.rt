ghost use Rattle.std.specs.Prelude.{◌≡◌, ◌<◌, ◌+◌, ◌-◌, ◌^◌, ◌||◌, ◌==◌, false, true, IsTrue, [], ◌∷◌, ◌++◌, vec_len, vec_capacity, find, map, length, IfOk, OnOk, OnErr};
ghost use Rattle.run_rules.specs.After.{with_sleep, with_condemner};
ghost use Rattle.run_rules.specs.Search.{is_occupied};
ghost use Rattle.run_rules.specs.World as world;
ghost use Rattle.dev_tree.specs.Tree.{AreSound, is_named, serial_named, with_device, without_device};
ghost use Rattle.dev_tree.specs.Rest.{HasFirstAsleep, HasLastAwake};
ghost use Rattle.run_rules.specs.declared.world.Dev.{Dev};

use crate::bare::{is_marked, unmark};
use crate::lookup;
use crate::mark::{mark_condemned, mark_sleep};
use crate::resting::Resting;
use crate::spots::{put_on, reach, take_off};
use cf_types::{List, Memory};
use run_rules::Dev;
use std::alloc::Global;
use std::marker::Model;

/// The live devices in order of attachment, with the driver of each. Every value keeps that serials increase, that a parent
/// is the root or an earlier live device, and that no two devices have a spot or a name in common. See autoconf(9).
#[derive(Drop)]
pub struct DevTree {
    alloc: Global,
    live: Vec<Dev>,
    /// The number of the device definition of each device, in the same order.
    drivers: Vec<u32>,
    /// The serial of the device on each spot.
    spots: Vec<Option<u64>>,
    /// Where the devices awake end and those asleep begin.
    rest: Resting,
    /// Of each device whether it is known to have no children. No mark is set again when the last child goes.
    bare: Vec<bool>,
    next: u64,
}

impl Model for DevTree {
    ghost use Rattle.dev_tree.specs.Keeping.{Keeps};
    ghost use Rattle.dev_tree.specs.Tree.{Devices};

    ghost Value = { Devices };

    ghost view = { λ tree. record { live = tree.live.items; drivers = tree.drivers.items; next = tree.next } };

    ghost invariant = { λ tree. Keeps (record { live = tree.live.items; drivers = tree.drivers.items; next = tree.next })
        tree.spots.items tree.rest tree.bare.items };
}

/// Appends a device to a list that has room.
#[inline(always)]
fn append(live: &mut Vec<Dev>, device: Dev)
    requires { vec_len live.old < vec_capacity live.old }
    ensures { live.new.items ≡ live.old.items ++ device ∷ [] }
{
    let _ = live.push(device);
}

/// Marks a device more, in a list that has room.
#[inline(always)]
fn append_mark(bare: &mut Vec<bool>)
    requires { vec_len bare.old < vec_capacity bare.old }
    ensures { bare.new.items ≡ bare.old.items ++ true ∷ [] }
{
    let _ = bare.push(true);
}

impl DevTree {
    /// No devices; the first serial is 1. It takes no memory.
    pub fn make(alloc: Global) -> DevTree
        ensures { result ≡ record { live = []; drivers = []; next = 1 } }
    {
        DevTree {
            alloc,
            live: Vec::new(alloc),
            drivers: Vec::new(alloc),
            spots: Vec::new(alloc),
            rest: Resting::none(),
            bare: Vec::new(alloc),
            next: 1,
        }
    }

    /// The facts that every tree keeps. It does nothing.
    pub fn stands(&self)
        ensures { AreSound self.now }
    {
        let _ = &self.live;
    }

    /// Attaches a device below a parent, 0 for the root, on a spot, and returns its serial. At `Memory` all is as
    /// before. See config_attach(9).
    pub fn attach(
        &mut self,
        row: u32,
        device: u32,
        unit: u32,
        parent: u64,
        spot: u16,
    ) -> Result<u64, Memory>
        requires name { is_named self.old device unit ≡ false }
        requires spot { is_occupied self.old.live spot ≡ false }
        requires parent { IsTrue (parent == 0 || world.is_live self.old.live parent) }
        requires serials { self.old.next < 2 ^ 64 - 1 }
        ensures serial { IfOk result (λ serial. serial ≡ self.old.next) }
        ensures ok { OnOk result (self.new ≡ with_device self.old device (record { row = row; unit = unit; parent = parent; spot = spot })) }
        ensures err { OnErr result (self.new ≡ self.old) }
    {
        reach(&mut self.spots, spot)?;
        self.live.reserve(1)?;
        self.bare.reserve(1)?;
        self.drivers.push(device)?;
        unmark(&self.live, &mut self.bare, parent);
        append_mark(&mut self.bare);
        let serial = self.next;
        append(
            &mut self.live,
            Dev {
                serial,
                row,
                unit,
                parent,
                spot,
                asleep: false,
                condemned: None,
            },
        );
        put_on(&mut self.spots, spot, serial);
        self.rest = self.rest.with_one(self.live.len());
        self.next += 1;
        Ok(serial)
    }

    /// Removes a device without children. Its serial is not given again. See config_detach(9).
    pub fn free(&mut self, serial: u64)
        requires live { IsTrue (world.is_live self.old.live serial) }
        requires children { world.children self.old.live serial ≡ [] }
        ensures { self.new ≡ without_device self.old serial }
    {
        if let Some(place) = lookup::place_of(&self.live, serial) {
            let gone = self.live.remove(place);
            self.drivers.remove(place);
            self.bare.remove(place);
            take_off(&mut self.spots, gone.spot);
            self.rest = self.rest.without_one();
        }
    }

    /// The device of a driver and a unit.
    pub fn find(&self, device: u32, unit: u32) -> Option<u64>
        ensures { result ≡ serial_named self.now device unit }
    {
        lookup::serial_named(&self.live, &self.drivers, device, unit)
    }

    /// The device on a spot.
    #[inline(always)]
    pub fn on_spot(&self, spot: u16) -> Option<u64>
        ensures { result ≡ world.serial_of (world.device_on self.now.live spot) }
    {
        match self.spots.get(spot as usize) {
            Some(serial) => *serial,
            None => None,
        }
    }

    /// The device of a serial.
    #[inline(always)]
    pub fn get(&self, serial: u64) -> Option<Dev>
        ensures { result ≡ world.device_at self.now.live serial }
    {
        lookup::device_at(&self.live, serial)
    }

    /// The devices in order of attachment, which is that of their serials.
    #[inline(always)]
    pub fn devices(&self) -> &[Dev]
        ensures { result.now ≡ self.now.live }
    {
        &self.live
    }

    /// The devices up to the last one that may be awake, in order. A search from the end for a test that sleeping
    /// devices fail finds the same among them as among all.
    #[inline(always)]
    pub fn front(&self) -> &[Dev]
        ensures { HasLastAwake self.now.live result.now }
    {
        self.rest.front(&self.live)
    }

    /// The devices from the first one on that may sleep, in order. A test that devices awake fail finds the same among them
    /// as among all.
    #[inline(always)]
    pub fn back(&self) -> &[Dev]
        ensures { HasFirstAsleep self.now.live result.now }
    {
        self.rest.back(&self.live)
    }

    /// How many devices there are.
    #[inline(always)]
    pub fn count(&self) -> usize
        ensures { result ≡ length self.now.live }
    {
        self.live.len()
    }

    /// The serial that the next device gets.
    #[inline(always)]
    pub fn next(&self) -> u64
        ensures { result ≡ self.now.next }
    {
        self.next
    }

    /// Whether a device is known to have no children. The answer may be false for one that has none.
    pub fn is_bare(&self, serial: u64) -> bool
        ensures there { result ≡ true → IsTrue (world.is_live self.now.live serial) }
        ensures children { result ≡ true → world.children self.now.live serial ≡ [] }
    {
        is_marked(&self.live, &self.bare, serial)
    }

    /// Whether a chain of parents leads from a device to the one above; each device is under itself.
    pub fn is_under(&self, serial: u64, above: u64) -> bool
        ensures { result ≡ world.is_under self.now.live above serial }
    {
        lookup::is_under(&self.live, serial, above)
    }

    /// The children of a device, or of the root for 0, by serial. See drvctl(8).
    pub fn children(&self, serial: u64) -> Result<List<u64>, Memory>
        ensures { IfOk result (λ list. list ≡ map (λ d. d.serial) (world.children self.now.live serial)) }
    {
        lookup::children(self.alloc, &self.live, serial)
    }

    /// A device and all that is below it, by serial.
    pub fn subtree(&self, serial: u64) -> Result<List<u64>, Memory>
        ensures { IfOk result (λ list. list ≡ map (λ d. d.serial) (world.subtree self.now.live serial)) }
    {
        lookup::subtree(self.alloc, &self.live, serial)
    }

    /// Puts a device to sleep, or wakes it. See pmf(9).
    pub fn set_asleep(&mut self, serial: u64, asleep: bool)
        requires { IsTrue (world.is_live self.old.live serial) }
        ensures { self.new ≡ record self.old { live = map (with_sleep serial asleep) self.old.live } }
    {
        self.rest = self.rest.marked(&self.live, serial, asleep);
        mark_sleep(&mut self.live, serial, asleep);
    }

    /// Condemns a device and all that is below it: the caller is about to free them. It takes no memory.
    pub fn condemn(&mut self, serial: u64, caller: u8)
        requires { IsTrue (world.is_live self.old.live serial) }
        ensures { self.new ≡ record self.old { live = map (with_condemner self.old.live caller serial) self.old.live } }
    {
        let bare = is_marked(&self.live, &self.bare, serial);
        mark_condemned(&mut self.live, bare, serial, caller);
    }
}
