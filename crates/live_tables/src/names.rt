//! The names of devices.
ghost use Rattle.std.specs.Prelude.{◌≡◌, ◌<◌, ◌++◌, length, IfOk, IsTrue, decimal};
ghost use Rattle.cf_text.specs.Shapes.{is_written};
ghost use Rattle.run_rules.specs.World as world;
ghost use Rattle.run_world.specs.Input.{Bounded};

use crate::live_tables::LiveTables;
use cf_types::{Memory, Name, put_decimal};
use run_rules::{Dev, Setup};
use run_world::{driver_name, driver_of};
use std::alloc::Global;

/// A driver's name with the digits of a unit behind it.
fn joined(alloc: Global, driver: &[u8], unit: u32) -> Result<Name, Memory>
    requires { IsTrue (is_written driver.now) }
    ensures { IfOk result (λ n. n ≡ driver.now ++ decimal unit) }
{
    let mut bytes = Vec::from_slice(alloc, driver)?;
    put_decimal(&mut bytes, i64::from(unit))?;
    Name::make(alloc, &bytes)
}

/// The name of a device of a row and a unit.
#[tactic(auto, unfolding(run_rules::specs::World::unit_name))]
pub fn unit_name(alloc: Global, setup: &Setup, row: u32, unit: u32) -> Result<Name, Memory>
    requires bounded { Bounded setup.now }
    requires row { row < length setup.now.tables.rows }
    ensures { IfOk result (λ n. n ≡ world.unit_name setup.now row unit) }
{
    joined(alloc, driver_name(setup, driver_of(setup, row)), unit)
}

impl LiveTables {
    /// The name of a device.
    pub(crate) fn name_of(&self, device: &Dev) -> Result<Name, Memory>
        requires row { device.now.row < length self.now.site.setup.tables.rows }
        ensures { IfOk result (λ name. name ≡ world.name_of self.now.site.setup device.now) }
    {
        unit_name(self.alloc, &self.site.setup, device.row, device.unit)
    }

    /// The name of the parent of a serial, which may be the root.
    #[tactic(auto, unfolding(run_rules::specs::World::parent_name, run_rules::specs::World::root_name))]
    pub(crate) fn parent_name(&self, serial: u64) -> Result<Name, Memory>
        ensures { IfOk result (λ name. name ≡ world.parent_name self.now.site.setup self.now.world.live serial) }
    {
        match self.tree.get(serial) {
            Some(device) => self.name_of(&device),
            None => Name::make(self.alloc, b"root"),
        }
    }
}
