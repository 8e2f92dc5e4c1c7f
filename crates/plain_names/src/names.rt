//! The external names of devices, and which device has a name.
ghost use Rattle.std.specs.Prelude.{◌≡◌, ◌<◌, ◌++◌, ℕ, List, false, IfOk, IfSome, OnOk, length, bytes_eq, decimal};
ghost use Rattle.run_rules.specs.Run as run;
ghost use Rattle.run_rules.specs.World as world;

use cf_types::{Memory, Name, put_bytes, put_decimal};
use plain_world::{Live, Rules, device_at, driver_of};
use run_rules::{Arrival, Dev, Got, Shown};
use std::alloc::Global;

/// How many bytes are enough for most names.
const USUAL: usize = 24;

/// The name of a driver.
fn driver_name<'a>(rules: &'a Rules, driver: u32) -> &'a [u8]
    ensures { result.now ≡ world.driver_name rules.now driver }
{
    match rules.tables.devices.items().get(driver as usize) {
        Some(device) => device.name.bytes(),
        None => &[],
    }
}

/// Appends the name of a row's driver and a unit.
#[tactic(auto, unfolding(run_rules::specs::World::unit_name))]
fn put_unit_name(out: &mut Vec<u8>, rules: &Rules, row: u32, unit: u32) -> Result<(), Memory>
    ensures { OnOk result (out.new.items ≡ out.old.items ++ world.unit_name rules.now row unit) }
{
    put_bytes(out, driver_name(rules, driver_of(rules, row)))?;
    put_decimal(out, i64::from(unit))
}

/// The name of a row's driver and a unit.
pub fn unit_name(alloc: Global, rules: &Rules, row: u32, unit: u32) -> Result<Name, Memory>
    ensures { IfOk result (λ n. n ≡ world.unit_name rules.now row unit) }
{
    rules.stands();
    let mut text = Vec::with_capacity(alloc, USUAL)?;
    put_unit_name(&mut text, rules, row, unit)?;
    Name::make(alloc, &text)
}

/// The name of a parent, which may be the root.
#[tactic(auto, unfolding(run_rules::specs::World::parent_name, run_rules::specs::World::root_name))]
pub fn parent_name(alloc: Global, rules: &Rules, live: &Live, serial: u64) -> Result<Name, Memory>
    ensures { IfOk result (λ n. n ≡ world.parent_name rules.now live.now.devices serial) }
{
    match device_at(live, serial) {
        Some(device) => unit_name(alloc, rules, device.row, device.unit),
        None => Name::make(alloc, b"root"),
    }
}

/// The name of a spot.
pub fn spot_name(rules: &Rules, spot: u16) -> Result<Name, Memory>
    requires { spot < length rules.now.machine.spots }
    ensures { IfOk result (λ n. n ≡ run.spot_name rules.now spot) }
{
    match rules.machine.spots.items().get(spot as usize) {
        Some(spot) => Ok(spot.name.clone()?),
        None => unreachable!(),
    }
}

/// The name and the row of what came, if anything did.
pub fn got_of(alloc: Global, rules: &Rules, got: Option<Arrival>) -> Result<Option<Got>, Memory>
    ensures { IfOk result (λ named. named ≡ run.got_of rules.now got) }
{
    match got {
        Some(arrival) => {
            let name = unit_name(alloc, rules, arrival.row, arrival.unit)?;
            Ok(Some(Got {
                name,
                row: arrival.row,
            }))
        }
        None => Ok(None),
    }
}

/// The spot that a finalizer showed, and what came there.
pub fn shown_of(
    alloc: Global,
    rules: &Rules,
    shown: Option<u16>,
    got: Option<Arrival>,
) -> Result<Option<Shown>, Memory>
    requires spot { IfSome shown (λ x. x < length rules.now.machine.spots) }
    ensures { IfOk result (λ told. told ≡ run.shown_of rules.now shown got) }
{
    match shown {
        Some(spot) => {
            let spot = spot_name(rules, spot)?;
            let got = got_of(alloc, rules, got)?;
            Ok(Some(Shown { spot, got }))
        }
        None => Ok(None),
    }
}

/// Whether a name ends with the last digit of a unit, as that of a device with the unit does.
fn ends_with(name: &[u8], unit: u32) -> bool
    ensures { result ≡ false → (front : List ℕ) → bytes_eq (front ++ decimal unit) name.now ≡ false }
{
    match name.last() {
        Some(last) => *last == b'0' + (unit % 10) as u8,
        None => false,
    }
}

/// Whether a device has a name.
#[tactic(auto, unfolding(run_rules::specs::World::unit_name))]
fn is_called(text: &mut Vec<u8>, rules: &Rules, device: &Dev, name: &[u8]) -> Result<bool, Memory>
    ensures { IfOk result (λ is. is ≡ bytes_eq (world.name_of rules.now device.now) name.now) }
{
    if !ends_with(name, device.unit) {
        return Ok(false);
    }
    text.clear();
    put_unit_name(text, rules, device.row, device.unit)?;
    Ok(text.as_slice() == name)
}

/// The first device of a name among these.
fn first_called(
    alloc: Global,
    rules: &Rules,
    devices: &[Dev],
    name: &[u8],
) -> Result<Option<Dev>, Memory>
    ensures { IfOk result (λ found. world.device_named rules.now devices.now name.now ≡ found) }
{
    let mut text = Vec::new(alloc);
    for device in devices {
        if is_called(&mut text, rules, device, name)? {
            return Ok(Some(*device));
        }
    }
    Ok(None)
}

/// The live device of a name.
pub fn device_named(
    alloc: Global,
    rules: &Rules,
    live: &Live,
    name: &[u8],
) -> Result<Option<Dev>, Memory>
    ensures { IfOk result (λ found. world.device_named rules.now live.now.devices name.now ≡ found) }
{
    first_called(alloc, rules, live.devices(), name)
}
