//! A seeker counts the live devices: how many have the driver and the unit of each row.
ghost use Rattle.std.specs.Prelude.{◌≡◌, ◌≤◌, ◌<◌, ◌+◌, ◌-◌, ◌^◌, ℕ, [], IfOk, OnOk, length};
ghost use Rattle.std.specs.List.{slice_index_or};
ghost use Rattle.run_rules.specs.After.{after};
ghost use Rattle.run_rules.specs.World.{World};
ghost use Rattle.plain_rows.specs.Drivers.{AreByDriver};
ghost use Rattle.plain_rows.specs.Taken.{AreTakers, is_row_of, one_if};
ghost use Rattle.plain_search.specs.Open.{Follows};
ghost use Rattle.plain_search.specs.Deeds.{coming, going};

use crate::seeker::Seeker;
use cf_types::Memory;
use plain_rows::{DriverRows, Styles, Suited, Taken};
use plain_world::{Live, Rules, device_at, driver_of};
use run_rules::{Arrival, Deed, Dev};
use std::alloc::Global;

/// The device that comes by a deed.
fn coming(deed: &Deed) -> Option<Arrival>
    ensures { coming deed.now ≡ result }
{
    match *deed {
        Deed::Search { got, .. } => got,
        Deed::Finalise { got, .. } => got,
        _ => None,
    }
}

/// The device that goes by a deed.
fn going(deed: &Deed) -> Option<u64>
    ensures { going deed.now ≡ result }
{
    match *deed {
        Deed::Free { of } => Some(of),
        _ => None,
    }
}

/// One more device has the driver of a row and a unit.
fn enter(taken: &mut Taken, rules: &Rules, drivers: &DriverRows, row: u32, unit: u32)
    requires rows { length taken.old ≡ length rules.now.tables.rows }
    requires driven { AreByDriver rules.now.tables.rows drivers.now }
    requires low { (r : ℕ) → slice_index_or taken.old r 0 < 2 ^ 32 - 1 }
    ensures numbers { (r : ℕ) → slice_index_or taken.new r 0 ≡ slice_index_or taken.old r 0 + one_if (is_row_of rules.now row unit r) }
    ensures rows { length taken.new ≡ length taken.old }
{
    let driver = driver_of(rules, row);
    taken.enter(rules.tables.rows.items(), drivers.rows(driver), unit);
}

/// One device fewer has the driver of a row and a unit.
fn leave(taken: &mut Taken, rules: &Rules, drivers: &DriverRows, row: u32, unit: u32)
    requires rows { length taken.old ≡ length rules.now.tables.rows }
    requires driven { AreByDriver rules.now.tables.rows drivers.now }
    ensures numbers { (r : ℕ) → slice_index_or taken.new r 0 ≡ slice_index_or taken.old r 0 - one_if (is_row_of rules.now row unit r) }
    ensures rows { length taken.new ≡ length taken.old }
{
    let driver = driver_of(rules, row);
    taken.leave(rules.tables.rows.items(), drivers.rows(driver), unit);
}

/// Counts the live devices as they are after a deed, from those that are live before it.
fn count_deed(taken: &mut Taken, rules: &Rules, drivers: &DriverRows, live: &Live, deed: &Deed)
    requires rows { length taken.old ≡ length rules.now.tables.rows }
    requires driven { AreByDriver rules.now.tables.rows drivers.now }
    requires few { length live.now.devices ≤ 1024 }
    requires counted { AreTakers rules.now live.now.devices taken.old }
    ensures rows { length taken.new ≡ length taken.old }
    ensures counted { (w : World) (k : ℕ) → w.live ≡ live.now.devices → AreTakers rules.now (after w k deed.now).live taken.new }
{
    live.stands();
    match coming(deed) {
        Some(arrival) => enter(taken, rules, drivers, arrival.row, arrival.unit),
        None => match going(deed) {
            Some(serial) => match device_at(live, serial) {
                Some(device) => leave(taken, rules, drivers, device.row, device.unit),
                None => {}
            },
            None => {}
        },
    }
}

/// Counts devices anew.
fn count_all(
    alloc: Global,
    rules: &Rules,
    drivers: &DriverRows,
    devices: &[Dev],
) -> Result<Taken, Memory>
    requires driven { AreByDriver rules.now.tables.rows drivers.now }
    requires few { length devices.now ≤ 1024 }
    ensures rows { IfOk result (λ taken. length taken ≡ length rules.now.tables.rows) }
    ensures counted { IfOk result (AreTakers rules.now devices.now) }
{
    let mut taken = Taken::make(alloc, rules.tables.rows.items())?;
    for device in devices {
        enter(&mut taken, rules, drivers, device.row, device.unit);
    }
    Ok(taken)
}

impl<'a> Seeker<'a> {
    /// By these rules, before any device.
    pub fn make(alloc: Global, rules: &'a Rules<'a>) -> Result<Seeker<'a>, Memory>
        ensures rules { IfOk result (λ seeker. seeker.rules.now ≡ rules.now) }
        ensures follows { IfOk result (λ seeker. Follows seeker []) }
    {
        let suited = Suited::make(alloc, rules.tables, rules.machine)?;
        let taken = Taken::make(alloc, rules.tables.rows.items())?;
        let styles = Styles::make(alloc, rules.machine.styles.items())?;
        let drivers = DriverRows::make(alloc, rules.tables.rows.items())?;
        Ok(Seeker {
            rules,
            suited,
            taken,
            styles,
            drivers,
        })
    }

    /// Counts the devices as they are after a deed, from those that are live before it.
    pub fn heed(&mut self, live: &Live, deed: &Deed)
        requires few { length live.now.devices ≤ 1024 }
        requires follows { Follows self.old live.now.devices }
        ensures rules { self.new.rules.now ≡ self.old.rules.now }
        ensures follows { (w : World) (k : ℕ) → w.live ≡ live.now.devices → Follows self.new (after w k deed.now).live }
    {
        count_deed(&mut self.taken, self.rules, &self.drivers, live, deed);
    }

    /// Goes by other numbers from now on, as those of a world that is gone back to.
    pub fn put(&mut self, taken: Taken)
        requires { length taken ≡ length self.old.rules.now.tables.rows }
        ensures rules { self.new.rules.now ≡ self.old.rules.now }
        ensures taken { self.new.taken ≡ taken }
    {
        self.taken = taken;
    }

    /// Counts these devices anew.
    pub fn recount(&mut self, alloc: Global, live: &Live) -> Result<(), Memory>
        requires { length live.now.devices ≤ 1024 }
        ensures rules { self.new.rules.now ≡ self.old.rules.now }
        ensures follows { OnOk result (Follows self.new live.now.devices) }
    {
        self.taken = count_all(alloc, self.rules, &self.drivers, live.devices())?;
        Ok(())
    }
}
