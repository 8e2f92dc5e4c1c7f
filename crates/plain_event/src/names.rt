//! Names of devices, kept for the next event that has them.
ghost use Rattle.std.specs.Prelude.{◌≡◌, ◌++◌, IfSome, decimal};

use cf_types::{Memory, Name};
use std::alloc::Global;

/// The name of a driver and a unit.
#[derive(Drop)]
struct Spelled {
    driver: Name,
    unit: u32,
    name: Name,
    ghost spelled: { name ≡ driver ++ decimal unit },
}

/// How many names are kept.
const KEPT: u64 = 1024;

/// Names of devices from earlier events, each at a place that is computed from its device's serial, so that it need not
/// be made again. No clause speaks of them: whoever takes one compares its driver and its unit first.
#[derive(Drop)]
pub struct Names {
    kept: Vec<Option<Spelled>>,
}

fn place_of(serial: u64) -> usize {
    (serial % KEPT) as usize
}

impl Names {
    /// No names.
    pub fn make(alloc: Global) -> Result<Names, Memory> {
        let mut kept = Vec::with_capacity(alloc, KEPT as usize)?;
        for _place in 0..KEPT {
            kept.push(None)?;
        }
        Ok(Names { kept })
    }

    /// The name of this driver and unit, if it is at the place of a serial.
    pub fn get(&self, serial: u64, driver: &Name, unit: u32) -> Option<&Name>
        ensures { IfSome result (λ n. n.now ≡ driver.now ++ decimal unit) }
    {
        match self.kept.get(place_of(serial)) {
            Some(Some(found)) => {
                if found.unit == unit && found.driver == *driver {
                    Some(&found.name)
                } else {
                    None
                }
            }
            _ => None,
        }
    }

    /// Puts the name of a driver and a unit at the place of a serial.
    pub fn keep(&mut self, serial: u64, driver: &Name, unit: u32, name: &Name) -> Result<(), Memory>
        requires { name.now ≡ driver.now ++ decimal unit }
    {
        let spelled = Spelled {
            driver: driver.clone()?,
            unit,
            name: name.clone()?,
        };
        let place = place_of(serial);
        if place < self.kept.len() {
            self.kept[place] = Some(spelled);
        }
        Ok(())
    }
}
