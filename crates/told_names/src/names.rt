//! The external names of devices.
ghost use Rattle.std.specs.Prelude.{◌≡◌, ◌<◌, ◌++◌, length, IfOk, IfSome, IsTrue, decimal};
ghost use Rattle.cf_text.specs.Shapes.{is_written};
ghost use Rattle.run_rules.specs.Run as run;
ghost use Rattle.run_rules.specs.World as world;
ghost use Rattle.run_world.specs.Input.{Bounded};
ghost use Rattle.told_names.specs.Naming.{HasRow};

use cf_types::{Memory, Name, put_decimal};
use run_rules::{Arrival, Dev, Got, Setup, Shown};
use run_world::{Called, Going, driver_name, driver_of};
use std::alloc::Global;

/// How many bytes a name may have.
const LONGEST: usize = 80;

fn joined(alloc: Global, name: &[u8], unit: u32) -> Result<Name, Memory>
    requires { IsTrue (is_written name.now) }
    ensures { IfOk result (λ n. n ≡ name.now ++ decimal unit) }
{
    let mut bytes = Vec::with_capacity(alloc, LONGEST)?;
    bytes.extend_from_slice(name)?;
    put_decimal(&mut bytes, i64::from(unit))?;
    Name::make(alloc, &bytes)
}

/// The name of a row's driver and a unit.
#[tactic(auto, unfolding(run_rules::specs::World::unit_name))]
fn unit_name(alloc: Global, setup: &Setup, row: u32, unit: u32) -> Result<Name, Memory>
    requires bounded { Bounded setup.now }
    requires row { row < length setup.now.tables.rows }
    ensures { IfOk result (λ n. n ≡ world.unit_name setup.now row unit) }
{
    joined(alloc, driver_name(setup, driver_of(setup, row)), unit)
}

/// The name of a row's driver and a unit, made anew.
#[inline(always)]
fn new_name(going: &Going, called: Called) -> Result<Name, Memory>
    requires { called.row < length going.now.setup.tables.rows }
    ensures { IfOk result (λ n. n ≡ world.unit_name going.now.setup called.row called.unit) }
{
    going.stands();
    unit_name(going.alloc(), going.setup(), called.row, called.unit)
}

/// The name of a device. It is shared with the event in which the device came; if that is not kept, the name is made
/// again.
#[inline(always)]
pub fn device_name(going: &Going, device: &Dev) -> Result<Name, Memory>
    requires { device.now.row < length going.now.setup.tables.rows }
    ensures { IfOk result (λ n. n ≡ world.name_of going.now.setup device.now) }
{
    let called = Called::of(device);
    match going.kept_name(called, device.spot) {
        Some(name) => Ok(name.clone()?),
        None => new_name(going, called),
    }
}

/// The name of a parent, which may be the root.
#[tactic(auto, unfolding(run_rules::specs::World::parent_name, run_rules::specs::World::root_name))]
#[inline(always)]
pub fn parent_name(going: &Going, serial: u64) -> Result<Name, Memory>
    ensures { IfOk result (λ n. n ≡ world.parent_name going.now.setup going.now.live serial) }
{
    match going.device(serial) {
        Some(device) => device_name(going, &device),
        None => Name::make(going.alloc(), b"root"),
    }
}

/// The name of a spot.
#[inline(always)]
pub fn spot_name(setup: &Setup, spot: u16) -> Result<Name, Memory>
    requires { spot < length setup.now.machine.spots }
    ensures { IfOk result (λ n. n ≡ run.spot_name setup.now spot) }
{
    match setup.machine.spots.items().get(spot as usize) {
        Some(s) => Ok(s.name.clone()?),
        None => unreachable!(),
    }
}

/// The name and the row of what came. The name is kept for later events.
pub fn arrival_got(going: &mut Going, arrival: Arrival) -> Result<Got, Memory>
    requires { arrival.row < length going.old.setup.tables.rows }
    ensures got { IfOk result (λ got. got
        ≡ record { name = world.unit_name going.old.setup arrival.row arrival.unit; row = arrival.row }) }
    ensures same { going.new ≡ going.old }
{
    let of = Called {
        row: arrival.row,
        unit: arrival.unit,
    };
    let name = new_name(going, of)?;
    going.keep_name(of, arrival.spot, name.clone()?);
    Ok(Got {
        name,
        row: arrival.row,
    })
}

/// The name and the row of what came, if anything did.
#[inline(always)]
fn got_of(going: &mut Going, got: Option<Arrival>) -> Result<Option<Got>, Memory>
    requires { HasRow going.old.setup got }
    ensures got { IfOk result (λ named. named ≡ run.got_of going.old.setup got) }
    ensures same { going.new ≡ going.old }
{
    match got {
        Some(arrival) => Ok(Some(arrival_got(going, arrival)?)),
        None => Ok(None),
    }
}

/// The spot that a finalizer showed, and what came there.
pub fn shown_of(
    going: &mut Going,
    shown: Option<u16>,
    got: Option<Arrival>,
) -> Result<Option<Shown>, Memory>
    requires spot { IfSome shown (λ x. x < length going.old.setup.machine.spots) }
    requires row { HasRow going.old.setup got }
    ensures shown { IfOk result (λ told. told ≡ run.shown_of going.old.setup shown got) }
    ensures same { going.new ≡ going.old }
{
    match shown {
        Some(spot) => {
            let spot = spot_name(going.setup(), spot)?;
            let got = got_of(going, got)?;
            Ok(Some(Shown { spot, got }))
        }
        None => Ok(None),
    }
}
