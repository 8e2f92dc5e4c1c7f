//! The reply that each command has to get.

use crate::devices::{Device, device_on};
use crate::refs::{count_of, is_held};
use crate::search::offers_any;
use crate::world::World;
use cf_types::Memory;
use dev_event::Reply;

/// A reply, with the device that it names.
#[derive(Clone, Copy)]
pub enum Answer {
    Ok,
    NoDevice,
    Gone,
    Exclusive,
    TooMany,
    Shared,
    NotHeld,
    Asleep,
    NoRescan,
    NoSpot,
    Busy(Device),
    NotSupported(Device),
    SuspendFailed(Device),
}

/// Whether this is the reply. One that names a device has to name this one.
pub fn is_reply(world: &World, answer: Answer, reply: &Reply) -> Result<bool, Memory> {
    match (answer, reply) {
        (Answer::Ok, Reply::Ok)
        | (Answer::NoDevice, Reply::NoDevice)
        | (Answer::Gone, Reply::Gone)
        | (Answer::Exclusive, Reply::Exclusive)
        | (Answer::TooMany, Reply::TooMany)
        | (Answer::Shared, Reply::Shared)
        | (Answer::NotHeld, Reply::NotHeld)
        | (Answer::Asleep, Reply::Asleep)
        | (Answer::NoRescan, Reply::NoRescan)
        | (Answer::NoSpot, Reply::NoSpot) => Ok(true),
        (Answer::Busy(device), Reply::Busy(name))
        | (Answer::NotSupported(device), Reply::NotSupported(name))
        | (Answer::SuspendFailed(device), Reply::SuspendFailed(name)) => {
            world.is_name(device, name)
        }
        _ => Ok(false),
    }
}

/// What `open` gets, or `open -x`.
pub fn opening(world: &World, caller: u8, device: Option<Device>, sole: bool) -> Answer {
    let Some(device) = device else {
        return Answer::NoDevice;
    };
    let serial = device.serial;
    if device.condemned.is_some() {
        return Answer::Gone;
    }
    if sole {
        return match is_held(&world.refs, serial) {
            true => Answer::Shared,
            false => Answer::Ok,
        };
    }
    if world.sole.iter().any(|held| *held == serial) {
        return Answer::Exclusive;
    }
    match count_of(&world.refs, serial, caller) < 15 {
        true => Answer::Ok,
        false => Answer::TooMany,
    }
}

/// What `close` gets.
pub fn closing(world: &World, caller: u8, device: Option<Device>) -> Answer {
    match device {
        Some(device) if count_of(&world.refs, device.serial, caller) != 0 => Answer::Ok,
        _ => Answer::NotHeld,
    }
}

/// What `io` gets.
pub fn starting(world: &World, caller: u8, device: Option<Device>) -> Answer {
    match (closing(world, caller, device), device) {
        (Answer::Ok, Some(device)) if device.asleep => Answer::Asleep,
        (answer, _) => answer,
    }
}

/// What `detach` gets.
pub fn detaching(world: &World, caller: u8, device: Option<Device>) -> Answer {
    match device {
        None => Answer::NoDevice,
        Some(device) if device.condemned.is_some() => Answer::Gone,
        Some(device) => match world.hindrance(device.serial, caller, false) {
            Some(device) => Answer::Busy(device),
            None => Answer::Ok,
        },
    }
}

/// What `unplug` gets.
pub fn unplugging(world: &World, caller: u8, spot: Option<u16>) -> Answer {
    let Some(spot) = spot else {
        return Answer::NoSpot;
    };
    let Some(device) = device_on(&world.devices, spot) else {
        return Answer::Ok;
    };
    match world.hindrance(device.serial, caller, true) {
        Some(device) => Answer::Busy(device),
        None => Answer::Ok,
    }
}

/// What a power command gets at its beginning.
pub fn powering(device: Option<Device>) -> Answer {
    match device {
        None => Answer::NoDevice,
        Some(device) if device.condemned.is_some() => Answer::Gone,
        Some(_) => Answer::Ok,
    }
}

/// What `rescan` gets; if `Ok`, it may still be that its attribute or its locators are no good.
pub fn rescanning(world: &World, device: Option<Device>) -> Result<Answer, Memory> {
    let Some(device) = device else {
        return Ok(Answer::NoDevice);
    };
    if device.condemned.is_some() {
        return Ok(Answer::Gone);
    }
    if world.is_pinned(device.serial) {
        return Ok(Answer::Busy(device));
    }
    if device.asleep {
        return Ok(Answer::Asleep);
    }
    let offers = offers_any(world.alloc, world.tables, device.driver)?;
    match offers && !world.policy_of(device).norescan {
        true => Ok(Answer::Ok),
        false => Ok(Answer::NoRescan),
    }
}
