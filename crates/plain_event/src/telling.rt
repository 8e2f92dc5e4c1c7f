//! How devices are named, and which acts are kept.
ghost use Rattle.std.specs.Prelude.{◌≡◌, ℕ, true, IfOk, IfSome};
ghost use Rattle.run_rules.specs.Run as run;
ghost use Rattle.run_rules.specs.World as world;
ghost use Rattle.plain_event.specs.Tellers.{KeepsRules, setup_in, world_in};
ghost use Rattle.plain_names.specs.Names.{name_live};

use crate::act::KnownAct;
use crate::kept::{key_of, with_text};
use crate::teller::Teller;
use cf_types::{Memory, Name};
use plain_names::unit_name;
use plain_world::{Live, Plain, Rules, device_at, driver_of};
use run_rules::{Deed, Dev, SharedAct};

/// The name of a row's driver, if there is one.
fn driver_at<'a>(rules: &'a Rules, row: u32) -> Option<&'a Name>
    ensures { IfSome result (λ n. n.now ≡ world.driver_name rules.now (world.driver_of rules.now row)) }
{
    match rules
        .tables
        .devices
        .items()
        .get(driver_of(rules, row) as usize)
    {
        Some(driver) => Some(&driver.name),
        None => None,
    }
}

/// The earlier act of such a deed, if it is kept.
#[inline(always)]
pub fn told_before<'a>(teller: &'a Teller, plain: &Plain, deed: &Deed) -> Option<&'a KnownAct>
    ensures { (k : ℕ) → IfSome result (λ kept. kept.now.act ≡ run.printed (world_in teller.now plain.now) k deed.now) }
{
    match key_of(plain, deed) {
        Some(key) => teller.kept_by(key),
        None => None,
    }
}

/// Keeps the act of a deed, if it comes again and again.
pub fn keep(
    teller: &mut Teller,
    plain: &Plain,
    caller: u8,
    deed: &Deed,
    act: &SharedAct,
) -> Result<(), Memory>
    requires { act.now ≡ run.printed (world_in teller.old plain.now) caller deed.now }
    ensures { KeepsRules teller.old teller.new }
{
    if let Some(key) = key_of(plain, deed) {
        let kept = with_text(teller.alloc, key, act)?;
        teller.put(kept);
    }
    Ok(())
}

/// The name of a device.
#[tactic(auto, unfolding(run_rules::specs::World::unit_name))]
fn device_name(teller: &mut Teller, device: &Dev) -> Result<Name, Memory>
    ensures name { IfOk result (λ n. n ≡ world.name_of (setup_in teller.old) device.now) }
    ensures rules { KeepsRules teller.old teller.new }
{
    let rules = teller.rules;
    let Some(driver) = driver_at(rules, device.row) else {
        return unit_name(teller.alloc, rules, device.row, device.unit);
    };
    if let Some(name) = teller.names.get(device.serial, driver, device.unit) {
        return Ok(name.clone()?);
    }
    let name = unit_name(teller.alloc, rules, device.row, device.unit)?;
    teller
        .names
        .keep(device.serial, driver, device.unit, &name)?;
    Ok(name)
}

/// The name of a parent, which may be the root.
#[tactic(auto, unfolding(run_rules::specs::World::parent_name, run_rules::specs::World::root_name))]
pub fn parent_name(teller: &mut Teller, live: &Live, serial: u64) -> Result<Name, Memory>
    ensures name { IfOk result (λ n. n ≡ world.parent_name (setup_in teller.old) live.now.devices serial) }
    ensures rules { KeepsRules teller.old teller.new }
{
    match device_at(live, serial) {
        Some(device) => device_name(teller, &device),
        None => Name::make(teller.alloc, b"root"),
    }
}

/// The name of a live device.
pub fn live_name(teller: &mut Teller, live: &Live, serial: u64) -> Result<Name, Memory>
    requires live { world.is_live live.now.devices serial ≡ true }
    ensures name { IfOk result (λ n. n ≡ name_live (setup_in teller.old) live.now.devices serial) }
    ensures rules { KeepsRules teller.old teller.new }
{
    match device_at(live, serial) {
        Some(device) => device_name(teller, &device),
        None => unreachable!(),
    }
}
