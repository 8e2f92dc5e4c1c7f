ghost use Rattle.std.specs.Prelude.{◌≡◌, ◌<◌, ◌≤◌, false, true, length, IfOk, OnOk, OnErr};
ghost use Rattle.unit_alloc.specs.Taken.{GivenBack, IsLeastFree, NoneTaken, PassesFew, TakenToo, is_taken};

use crate::map::UnitMap;
use cf_types::Memory;
use std::alloc::Global;
use std::marker::Model;

/// For each device the units that are taken. Contracts see a list of units for each device, whose order no clause
/// fixes.
#[derive(Drop)]
pub struct Units {
    maps: Vec<UnitMap>,
}

impl Model for Units {
    ghost use Rattle.std.specs.Prelude.{ℕ, List};

    ghost Value = { List (List ℕ) };

    ghost view = { λ units. units.maps.items };
}

impl Units {
    /// This many devices, with no unit taken.
    pub fn make(alloc: Global, devices: u32) -> Result<Units, Memory>
        ensures { IfOk result (NoneTaken devices) }
    {
        let mut maps = Vec::with_capacity(alloc, devices as usize)?;
        for _device in 0..devices {
            maps.push(UnitMap::make(alloc))?;
        }
        Ok(Units { maps })
    }

    /// The least unit of a device that is at least the first one and not taken, as a starred row gives it. It takes no
    /// memory. See config(5).
    pub fn pick(&self, device: u32, first: u32) -> u32
        requires device { device < length self.now }
        requires first { first ≤ 65536 }
        requires few { PassesFew (is_taken self.now device) }
        ensures { IsLeastFree (is_taken self.now device) first result }
    {
        self.maps[device as usize].pick(first)
    }

    /// Takes a unit of a device that is not taken. At `Memory` all is as before.
    pub fn take(&mut self, device: u32, unit: u32) -> Result<(), Memory>
        requires device { device < length self.old }
        requires free { is_taken self.old device unit ≡ false }
        ensures ok { OnOk result (TakenToo self.old self.new device unit) }
        ensures err { OnErr result (self.new ≡ self.old) }
    {
        self.maps[device as usize].take(unit)
    }

    /// Gives back a unit of a device that is taken. It takes no memory.
    pub fn give(&mut self, device: u32, unit: u32)
        requires device { device < length self.old }
        requires taken { is_taken self.old device unit ≡ true }
        ensures { GivenBack self.old self.new device unit }
    {
        self.maps[device as usize].give(unit);
    }
}
