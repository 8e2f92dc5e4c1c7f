//! What a command does, or why it does nothing. See drvctl(8) and pmf(9).
ghost use Rattle.std.specs.Prelude.{◌≡◌, IfOk};
ghost use Rattle.std.specs.Option.{option_map_or};
ghost use Rattle.cf_types.specs.Lookups.{spot_number};
ghost use Rattle.run_rules.specs.Next as next;
ghost use Rattle.run_rules.specs.World as world;
ghost use Rattle.run_rules.specs.declared.deed.Deed.TheVariants as deeds;
ghost use Rattle.run_rules.specs.declared.deed.CommandRefusal.TheVariants as refusal;
ghost use Rattle.plain_choice.specs.Commands.{begun, closed, detached, granted, granted_alone, if_held, started};
ghost use Rattle.plain_world.specs.Plain.{world_of};

use crate::rescan::{Limits, rescanning};
use cf_types::{Command, Memory, Name, Ticket};
use plain_names::device_named;
use plain_world::{
    Plain, Rules, device_on, is_bad, is_pinned, is_sole, is_under, policy_of, spot_named,
};
use run_rules::{CommandRefusal, Deed, Dev, PowerKind};
use std::alloc::Global;

/// A command of a caller: who gives it, and its number.
#[derive(Clone, Copy)]
pub struct Asker {
    pub caller: u8,
    pub number: u32,
}

/// A device that a caller wants to go, with all that is below it; its driver is not asked if that is forced.
#[derive(Clone, Copy)]
struct Detachment {
    target: u64,
    caller: u8,
    forced: bool,
}

/// The live device that a command names.
fn named(alloc: Global, rules: &Rules, plain: &Plain, name: &Name) -> Result<Option<Dev>, Memory>
    ensures { IfOk result (λ found. world.device_named rules.now plain.now.live.devices name.now ≡ found) }
{
    device_named(alloc, rules, &plain.live, name.bytes())
}

/// A reference is asked for.
fn open(
    alloc: Global,
    rules: &Rules,
    plain: &Plain,
    caller: u8,
    name: &Name,
) -> Result<Deed, Memory>
    ensures { let w = world_of rules.now plain.now in IfOk result (λ does. next.on_device w name.now (granted w caller) ≡ does) }
{
    let Some(device) = named(alloc, rules, plain, name)? else {
        return Ok(Deed::Refuse(CommandRefusal::NoDevice));
    };
    if device.condemned.is_some() {
        Ok(Deed::Refuse(CommandRefusal::Gone))
    } else if is_sole(&plain.sole, device.serial) {
        Ok(Deed::Refuse(CommandRefusal::Exclusive))
    } else if plain.refs.count(caller, device.serial) < 15 {
        Ok(Deed::Open {
            of: device.serial,
            sole: false,
        })
    } else {
        Ok(Deed::Refuse(CommandRefusal::TooMany))
    }
}

/// The only reference is asked for.
fn open_sole(alloc: Global, rules: &Rules, plain: &Plain, name: &Name) -> Result<Deed, Memory>
    ensures { let w = world_of rules.now plain.now in IfOk result (λ does. next.on_device w name.now (granted_alone w) ≡ does) }
{
    let Some(device) = named(alloc, rules, plain, name)? else {
        return Ok(Deed::Refuse(CommandRefusal::NoDevice));
    };
    if device.condemned.is_some() {
        Ok(Deed::Refuse(CommandRefusal::Gone))
    } else if plain.refs.refers(device.serial) {
        Ok(Deed::Refuse(CommandRefusal::Shared))
    } else {
        Ok(Deed::Open {
            of: device.serial,
            sole: true,
        })
    }
}

/// A reference is given back.
fn close(
    alloc: Global,
    rules: &Rules,
    plain: &Plain,
    caller: u8,
    name: &Name,
) -> Result<Deed, Memory>
    ensures { IfOk result (λ does. next.on_held (world_of rules.now plain.now) caller name.now closed ≡ does) }
{
    let Some(device) = named(alloc, rules, plain, name)? else {
        return Ok(Deed::Refuse(CommandRefusal::NotHeld));
    };
    if plain.refs.holds(caller, device.serial) {
        Ok(Deed::Close { of: device.serial })
    } else {
        Ok(Deed::Refuse(CommandRefusal::NotHeld))
    }
}

/// The transfer of a command of this number.
fn ticket_of(rules: &Rules, plain: &Plain, asker: Asker, device: Dev, value: u32) -> Ticket
    ensures { result ≡ next.ticket_of (world_of rules.now plain.now) asker.caller asker.number device value }
{
    Ticket {
        caller: asker.caller,
        number: asker.number,
        serial: device.serial,
        slot: device.spot,
        bad: is_bad(rules, device.spot),
        value,
    }
}

/// A transfer is asked for, by the command of this number.
fn io(rules: &Rules, plain: &Plain, asker: Asker, found: Option<Dev>, value: u32) -> Deed
    ensures { let w = world_of rules.now plain.now in
        if_held w asker.caller found (started w asker.caller asker.number value) ≡ result }
{
    let Some(device) = found else {
        return Deed::Refuse(CommandRefusal::NotHeld);
    };
    if !plain.refs.holds(asker.caller, device.serial) {
        Deed::Refuse(CommandRefusal::NotHeld)
    } else if device.asleep {
        Deed::Refuse(CommandRefusal::Asleep)
    } else {
        Deed::Start(ticket_of(rules, plain, asker, device, value))
    }
}

/// Whether a device keeps the target's subtree from going.
fn is_hindrance(rules: &Rules, plain: &Plain, going: Detachment, device: Dev) -> bool
    ensures { result ≡ next.is_hindrance (world_of rules.now plain.now) going.target going.caller going.forced device }
{
    is_under(&plain.live, going.target, device.serial)
        && ((!going.forced && policy_of(rules, device.row).nodetach)
            || is_pinned(plain, device.serial)
            || device.condemned.is_some()
            || plain.refs.holds(going.caller, device.serial))
}

/// The first device that keeps the target's subtree from being freed. See config_detach(9).
#[tactic(auto, unfolding(run_rules::specs::Next::hindered))]
fn hindered(rules: &Rules, plain: &Plain, going: Detachment) -> Option<Dev>
    ensures { result ≡ next.hindered (world_of rules.now plain.now) going.target going.caller going.forced }
{
    plain
        .live
        .devices()
        .iter()
        .copied()
        .find(|device| is_hindrance(rules, plain, going, *device))
}

/// The deed, unless a device keeps the target's subtree from going.
fn unless_hindered(rules: &Rules, plain: &Plain, going: Detachment, deed: Deed) -> Deed
    ensures { next.unless_hindered (world_of rules.now plain.now) going.caller going.target going.forced deed ≡ result }
{
    match hindered(rules, plain, going) {
        Some(device) => Deed::Refuse(CommandRefusal::Busy(device.serial)),
        None => deed,
    }
}

/// A device is to go with all that is below it.
fn detach(
    alloc: Global,
    rules: &Rules,
    plain: &Plain,
    caller: u8,
    name: &Name,
) -> Result<Deed, Memory>
    ensures { let w = world_of rules.now plain.now in IfOk result (λ does. next.on_device w name.now (detached w caller) ≡ does) }
{
    let Some(device) = named(alloc, rules, plain, name)? else {
        return Ok(Deed::Refuse(CommandRefusal::NoDevice));
    };
    if device.condemned.is_some() {
        return Ok(Deed::Refuse(CommandRefusal::Gone));
    }
    let deed = Deed::Detach { of: device.serial };
    let going = Detachment {
        target: device.serial,
        caller,
        forced: false,
    };
    Ok(unless_hindered(rules, plain, going, deed))
}

/// A command to search a device again.
fn rescan(
    alloc: Global,
    rules: &Rules,
    plain: &Plain,
    name: &Name,
    limits: &Limits<'_>,
) -> Result<Deed, Memory>
    ensures { let w = world_of rules.now plain.now in
        IfOk result (λ does. next.on_device w name.now (λ d. next.rescanning w d limits.now.attr.now limits.now.given.now) ≡ does) }
{
    let Some(device) = named(alloc, rules, plain, name)? else {
        return Ok(Deed::Refuse(CommandRefusal::NoDevice));
    };
    if device.condemned.is_some() {
        return Ok(Deed::Refuse(CommandRefusal::Gone));
    }
    rescanning(alloc, rules, plain, device, limits)
}

/// A list or a tree is asked for, of a device or of the root.
fn tell(alloc: Global, rules: &Rules, plain: &Plain, of: &Option<Name>) -> Result<Deed, Memory>
    ensures { IfOk result (λ does. next.telling (world_of rules.now plain.now) of.now ≡ does) }
{
    let Some(name) = of else {
        return Ok(Deed::Tell);
    };
    match named(alloc, rules, plain, name)? {
        Some(_) => Ok(Deed::Tell),
        None => Ok(Deed::Refuse(CommandRefusal::NoDevice)),
    }
}

/// A power command is asked for.
fn begin_power(
    alloc: Global,
    rules: &Rules,
    plain: &Plain,
    kind: PowerKind,
    name: &Name,
) -> Result<Deed, Memory>
    ensures { IfOk result (λ does. next.on_device (world_of rules.now plain.now) name.now (begun kind) ≡ does) }
{
    let Some(device) = named(alloc, rules, plain, name)? else {
        return Ok(Deed::Refuse(CommandRefusal::NoDevice));
    };
    if device.condemned.is_some() {
        Ok(Deed::Refuse(CommandRefusal::Gone))
    } else {
        Ok(Deed::BeginPower {
            kind,
            of: device.serial,
        })
    }
}

/// Hardware comes to the spot of a name.
fn plug(rules: &Rules, plain: &Plain, name: &Name) -> Deed
    ensures { option_map_or (λ x. deeds.Plug x) (spot_number (world_of rules.now plain.now).setup.machine.spots name.now)
        (deeds.Refuse refusal.NoSpot) ≡ result }
{
    match spot_named(rules, name.bytes()) {
        Some(spot) => Deed::Plug { spot },
        None => Deed::Refuse(CommandRefusal::NoSpot),
    }
}

/// Hardware goes from a spot, with the device on it.
fn unplugging(rules: &Rules, plain: &Plain, caller: u8, spot: u16) -> Deed
    ensures { next.unplugging (world_of rules.now plain.now) caller spot ≡ result }
{
    let Some(device) = device_on(&plain.live, spot) else {
        return Deed::Unplug { spot, of: None };
    };
    let deed = Deed::Unplug {
        spot,
        of: Some(device.serial),
    };
    let going = Detachment {
        target: device.serial,
        caller,
        forced: true,
    };
    unless_hindered(rules, plain, going, deed)
}

/// Hardware goes from the spot of a name.
fn unplug(rules: &Rules, plain: &Plain, caller: u8, name: &Name) -> Deed
    ensures { let w = world_of rules.now plain.now in
        option_map_or (next.unplugging w caller) (spot_number w.setup.machine.spots name.now) (deeds.Refuse refusal.NoSpot) ≡ result }
{
    match spot_named(rules, name.bytes()) {
        Some(spot) => unplugging(rules, plain, caller, spot),
        None => Deed::Refuse(CommandRefusal::NoSpot),
    }
}

/// What the command of this number does.
#[tactic(auto, unfolding(run_rules::specs::Next::command_deed))]
pub fn command_deed(
    alloc: Global,
    rules: &Rules,
    plain: &Plain,
    asker: Asker,
    said: &Command,
) -> Result<Deed, Memory>
    ensures { IfOk result (λ does. next.command_deed (world_of rules.now plain.now) asker.caller asker.number said.now ≡ does) }
{
    let caller = asker.caller;
    match said {
        Command::OpenDev(name) => open(alloc, rules, plain, caller, name),
        Command::OpenSole(name) => open_sole(alloc, rules, plain, name),
        Command::CloseDev(name) => close(alloc, rules, plain, caller, name),
        Command::Io(name, value) => {
            let found = named(alloc, rules, plain, name)?;
            Ok(io(rules, plain, asker, found, *value))
        }
        Command::Detach(name) => detach(alloc, rules, plain, caller, name),
        Command::Rescan {
            device,
            attr,
            given,
        } => {
            let limits = Limits {
                attr,
                given: given.items(),
            };
            rescan(alloc, rules, plain, device, &limits)
        }
        Command::ListDev(of) => tell(alloc, rules, plain, of),
        Command::TreeDev(of) => tell(alloc, rules, plain, of),
        Command::Suspend(name) => begin_power(alloc, rules, plain, PowerKind::Suspend, name),
        Command::Resume(name) => begin_power(alloc, rules, plain, PowerKind::Resume, name),
        Command::ResumeTree(name) => begin_power(alloc, rules, plain, PowerKind::ResumeTree, name),
        Command::Plug(name) => Ok(plug(rules, plain, name)),
        Command::Unplug(name) => Ok(unplug(rules, plain, caller, name)),
    }
}
