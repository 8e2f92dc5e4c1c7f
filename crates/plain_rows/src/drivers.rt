//! The rows of each driver.
ghost use Rattle.std.specs.Prelude.{◌≡◌, ◌≤◌, [], length, IfOk};
ghost use Rattle.std.specs.List.{slice_index_or};
ghost use Rattle.plain_rows.specs.Drivers.{AreByDriver};

use crate::lists::{add, list_of};
use cf_types::{Memory, Row};
use std::alloc::Global;
use std::marker::Model;

/// The rows of each driver, in their order. Contracts see a list of rows for each driver.
#[derive(Drop)]
pub struct DriverRows {
    lists: Vec<Vec<u32>>,
}

impl Model for DriverRows {
    ghost use Rattle.std.specs.Prelude.{ℕ, List};
    ghost use Rattle.plain_rows.specs.Lists.{lists_of};

    ghost Value = { List (List ℕ) };

    ghost view = { λ drivers. lists_of drivers.lists.items };
}

impl DriverRows {
    /// These rows by their drivers.
    pub fn make(alloc: Global, rows: &[Row]) -> Result<DriverRows, Memory>
        requires { length rows.now ≤ 8192 }
        ensures { IfOk result (AreByDriver rows.now) }
    {
        let mut lists = Vec::new(alloc);
        for (number, row) in rows.iter().enumerate() {
            add(alloc, &mut lists, row.device, number as u32)?;
        }
        Ok(DriverRows { lists })
    }

    /// The rows of a driver, in their order.
    #[inline(always)]
    pub fn rows(&self, driver: u32) -> &[u32]
        ensures { result.now ≡ slice_index_or self.now driver [] }
    {
        list_of(&self.lists, driver)
    }
}
