//! What a command does, or why it does nothing. See drvctl(8) and pmf(9).
ghost use Rattle.std.specs.Prelude.{◌≡◌, ℕ, false, Some, IsTrue, IfOk, slice_get};
ghost use Rattle.std.specs.Option.{option_map_or};
ghost use Rattle.cf_types.specs.declared.machine.Command.TheVariants as command;
ghost use Rattle.run_rules.specs.declared.deed.Deed.{Deed};
ghost use Rattle.run_rules.specs.declared.deed.Deed.TheVariants.{BeginPower};
ghost use Rattle.run_rules.specs.declared.world.Dev.{Dev};
ghost use Rattle.run_rules.specs.Next.{command_deed, on_device, on_held, rescanning, telling, unless_hindered, unplugging};
ghost use Rattle.run_rules.specs.World.{is_live};
ghost use Rattle.run_rules.specs.World as world;
ghost use Rattle.next_deed.specs.Choices.{or_refused};

use crate::hindered::in_the_way;
use crate::rescan::plan_search;
use cf_types::{Command, Given, Memory, Name, Ticket};
use detach_engine::Detachment;
use run_rules::{CommandRefusal, Deed, Dev, PowerKind, Setup};
use run_world::{Going, spot_named};

/// The device of a name, unless it is condemned.
fn device_not_condemned(going: &Going, name: &[u8]) -> Result<Dev, CommandRefusal>
    ensures deed { (body : Dev → Deed) → on_device going.now name.now body ≡ or_refused body result }
    ensures live { IfOk result (λ d. IsTrue (is_live going.now.live d.serial)) }
    ensures found { IfOk result (λ d. world.device_named going.now.setup going.now.live name.now ≡ Some d) }
{
    match going.named(name) {
        None => Err(CommandRefusal::NoDevice),
        Some(device) => {
            if device.condemned.is_some() {
                Err(CommandRefusal::Gone)
            } else {
                Ok(device)
            }
        }
    }
}

/// The device of a name, if the caller holds it.
fn held_device(going: &Going, caller: u8, name: &[u8]) -> Result<Dev, CommandRefusal>
    ensures { (body : Dev → Deed) → on_held going.now caller name.now body ≡ or_refused body result }
{
    match going.named(name) {
        None => Err(CommandRefusal::NotHeld),
        Some(device) => {
            if going.refs().holds(device.serial, caller) {
                Ok(device)
            } else {
                Err(CommandRefusal::NotHeld)
            }
        }
    }
}

/// A reference is asked for.
#[tactic(auto, unfolding(run_rules::specs::Next::command_deed))]
fn plan_open(going: &Going, caller: u8, name: &[u8]) -> Result<Deed, CommandRefusal>
    ensures { (number : ℕ) → command_deed going.now caller number (command.OpenDev name.now) ≡ or_refused (λ deed. deed) result }
{
    let device = device_not_condemned(going, name)?;
    if going.refs().is_sole(device.serial) {
        return Err(CommandRefusal::Exclusive);
    }
    if going.refs().count(device.serial, caller) < 15 {
        Ok(Deed::Open {
            of: device.serial,
            sole: false,
        })
    } else {
        Err(CommandRefusal::TooMany)
    }
}

/// The only reference is asked for.
#[tactic(auto, unfolding(run_rules::specs::Next::command_deed))]
fn plan_open_sole(going: &Going, caller: u8, name: &[u8]) -> Result<Deed, CommandRefusal>
    ensures { (number : ℕ) → command_deed going.now caller number (command.OpenSole name.now) ≡ or_refused (λ deed. deed) result }
{
    let device = device_not_condemned(going, name)?;
    if going.refs().refers(device.serial) {
        return Err(CommandRefusal::Shared);
    }
    Ok(Deed::Open {
        of: device.serial,
        sole: true,
    })
}

/// A reference is given back.
#[tactic(auto, unfolding(run_rules::specs::Next::command_deed))]
fn plan_close(going: &Going, caller: u8, name: &[u8]) -> Result<Deed, CommandRefusal>
    ensures { (number : ℕ) → command_deed going.now caller number (command.CloseDev name.now) ≡ or_refused (λ deed. deed) result }
{
    let device = held_device(going, caller, name)?;
    Ok(Deed::Close { of: device.serial })
}

/// Whether a spot answers with a device error.
#[inline(always)]
fn is_bad(setup: &Setup, spot: u16) -> bool
    ensures { result ≡ option_map_or (λ spot. spot.bad) (slice_get setup.now.machine.spots spot) false }
{
    match setup.machine.spots.items().get(spot as usize) {
        Some(s) => s.bad,
        None => false,
    }
}

/// A command of a caller: who gives it, and its number.
#[derive(Clone, Copy)]
struct Asker {
    caller: u8,
    number: u32,
}

/// A transfer is asked for.
#[tactic(auto, unfolding(run_rules::specs::Next::command_deed))]
fn plan_io(going: &Going, asker: Asker, name: &[u8], value: u32) -> Result<Deed, CommandRefusal>
    ensures { command_deed going.now asker.caller asker.number (command.Io name.now value) ≡ or_refused (λ deed. deed) result }
{
    let device = held_device(going, asker.caller, name)?;
    if device.asleep {
        return Err(CommandRefusal::Asleep);
    }
    Ok(Deed::Start(Ticket {
        caller: asker.caller,
        number: asker.number,
        serial: device.serial,
        slot: device.spot,
        bad: is_bad(going.setup(), device.spot),
        value,
    }))
}

/// A list or a tree is asked for, of a device or of the root.
fn plan_tell(going: &Going, of: &Option<Name>) -> Result<Deed, CommandRefusal>
    ensures { telling going.now of.now ≡ or_refused (λ deed. deed) result }
{
    match of {
        None => Ok(Deed::Tell),
        Some(name) => match going.named(name.bytes()) {
            None => Err(CommandRefusal::NoDevice),
            Some(_) => Ok(Deed::Tell),
        },
    }
}

/// A power command is asked for.
fn plan_begin(going: &Going, kind: PowerKind, name: &[u8]) -> Result<Deed, CommandRefusal>
    ensures { on_device going.now name.now (λ d. BeginPower kind d.serial) ≡ or_refused (λ deed. deed) result }
{
    let device = device_not_condemned(going, name)?;
    Ok(Deed::BeginPower {
        kind,
        of: device.serial,
    })
}

/// Hardware comes to a spot.
#[tactic(auto, unfolding(run_rules::specs::Next::command_deed))]
fn plan_plug(going: &Going, name: &[u8]) -> Result<Deed, CommandRefusal>
    ensures { (k number : ℕ) → command_deed going.now k number (command.Plug name.now) ≡ or_refused (λ deed. deed) result }
{
    going.stands();
    match spot_named(going.setup(), name) {
        None => Err(CommandRefusal::NoSpot),
        Some(spot) => Ok(Deed::Plug { spot }),
    }
}

/// The deed, unless a device keeps the target's subtree from going.
fn if_free(going: &Going, leaving: Detachment, deed: Deed) -> Result<Deed, Memory>
    requires live { IsTrue (is_live going.now.live leaving.target) }
    ensures { IfOk result (λ does. unless_hindered going.now leaving.caller leaving.target leaving.forced deed ≡ does) }
{
    match in_the_way(going, leaving)? {
        Some(other) => Ok(Deed::Refuse(CommandRefusal::Busy(other))),
        None => Ok(deed),
    }
}

/// A device is to go with all that is below it.
#[tactic(auto, unfolding(run_rules::specs::Next::command_deed))]
fn plan_detach(going: &Going, caller: u8, name: &[u8]) -> Result<Deed, Memory>
    ensures { (number : ℕ) → IfOk result (λ does. command_deed going.now caller number (command.Detach name.now) ≡ does) }
{
    match device_not_condemned(going, name) {
        Err(why) => Ok(Deed::Refuse(why)),
        Ok(device) => {
            let deed = Deed::Detach { of: device.serial };
            let leaving = Detachment {
                target: device.serial,
                caller,
                forced: false,
            };
            if_free(going, leaving, deed)
        }
    }
}

/// Hardware goes from a spot, with the device on it.
fn plan_unplug(going: &Going, caller: u8, spot: u16) -> Result<Deed, Memory>
    ensures { IfOk result (λ does. unplugging going.now caller spot ≡ does) }
{
    match going.tree().on_spot(spot) {
        None => Ok(Deed::Unplug { spot, of: None }),
        Some(serial) => {
            let deed = Deed::Unplug {
                spot,
                of: Some(serial),
            };
            let leaving = Detachment {
                target: serial,
                caller,
                forced: true,
            };
            if_free(going, leaving, deed)
        }
    }
}

/// A command to search a device again.
fn plan_rescan(
    going: &Going,
    name: &[u8],
    attr: &Option<Name>,
    given: &[Given],
) -> Result<Deed, CommandRefusal>
    ensures { on_device going.now name.now (λ d. rescanning going.now d attr.now given.now)
        ≡ or_refused (λ deed. deed) result }
{
    going.stands();
    let device = device_not_condemned(going, name)?;
    plan_search(going, device, attr, given)
}

/// Hardware goes from the spot of a name.
#[tactic(auto, unfolding(run_rules::specs::Next::command_deed))]
fn plan_pull(going: &Going, caller: u8, name: &[u8]) -> Result<Deed, Memory>
    ensures { (number : ℕ) → IfOk result (λ does. command_deed going.now caller number (command.Unplug name.now) ≡ does) }
{
    going.stands();
    match spot_named(going.setup(), name) {
        None => Ok(Deed::Refuse(CommandRefusal::NoSpot)),
        Some(spot) => plan_unplug(going, caller, spot),
    }
}

/// The deed that an answer means; an error means a refusal.
#[inline(always)]
fn answered_deed(answer: Result<Deed, CommandRefusal>) -> Deed
    ensures { or_refused (λ deed. deed) answer ≡ result }
{
    match answer {
        Ok(deed) => deed,
        Err(why) => Deed::Refuse(why),
    }
}

/// A transfer is asked for, or refused.
#[tactic(auto, unfolding(run_rules::specs::Next::command_deed))]
#[inline(always)]
fn ask_io(going: &Going, asker: Asker, name: &Name, value: u32) -> Deed
    ensures { command_deed going.now asker.caller asker.number (command.Io name.now value) ≡ result }
{
    answered_deed(plan_io(going, asker, name.bytes(), value))
}

/// A power command is asked for, or refused.
#[inline(always)]
fn ask_power(going: &Going, kind: PowerKind, name: &Name) -> Deed
    ensures { on_device going.now name.now (λ d. BeginPower kind d.serial) ≡ result }
{
    answered_deed(plan_begin(going, kind, name.bytes()))
}

/// What the command of this number does.
#[tactic(auto, unfolding(run_rules::specs::Next::command_deed))]
pub fn plan_command(going: &Going, caller: u8, number: u32, said: &Command) -> Result<Deed, Memory>
    ensures { IfOk result (λ does. command_deed going.now caller number said.now ≡ does) }
{
    match said {
        Command::OpenDev(name) => Ok(answered_deed(plan_open(going, caller, name.bytes()))),
        Command::OpenSole(name) => Ok(answered_deed(plan_open_sole(going, caller, name.bytes()))),
        Command::CloseDev(name) => Ok(answered_deed(plan_close(going, caller, name.bytes()))),
        Command::Io(name, value) => {
            let asker = Asker { caller, number };
            Ok(ask_io(going, asker, name, *value))
        }
        Command::Detach(name) => plan_detach(going, caller, name.bytes()),
        Command::Rescan {
            device,
            attr,
            given,
        } => Ok(answered_deed(plan_rescan(going, device.bytes(), attr, given.items()))),
        Command::ListDev(of) => Ok(answered_deed(plan_tell(going, of))),
        Command::TreeDev(of) => Ok(answered_deed(plan_tell(going, of))),
        Command::Suspend(name) => Ok(ask_power(going, PowerKind::Suspend, name)),
        Command::Resume(name) => Ok(ask_power(going, PowerKind::Resume, name)),
        Command::ResumeTree(name) => Ok(ask_power(going, PowerKind::ResumeTree, name)),
        Command::Plug(name) => Ok(answered_deed(plan_plug(going, name.bytes()))),
        Command::Unplug(name) => plan_pull(going, caller, name.bytes()),
    }
}
