//! A history re-checked by linear search.

use crate::devices::{
    Deep, Device, device_at, device_on, is_occupied, name_of, part_of, tree_of, unit_by,
};
use crate::refs::{Held, give_back, is_held};
use crate::replies::{
    Answer, closing, detaching, is_reply, opening, powering, rescanning, starting, unplugging,
};
use crate::search::{offers_any, winner};
use crate::world::{Power, World};
use cf_types::{List, Machine, Memory, Name, Tables};
use dev_event::{Act, DepthName, Event, Got, PowerKind, Reply, Shown, read_event};
use std::alloc::Global;
use std::mem::drop;

/// How far a text was followed. Lines that spell no event are skipped.
#[derive(Clone, Copy, Debug, PartialEq, Eq)]
pub enum Followed {
    /// To its end, with so many events.
    Whole(u64),
    /// Up to the line of this number, counted from 1, which linear search would have written otherwise.
    UpTo(u64),
}

/// What follows the events of a history, with the world after those so far.
#[derive(Drop)]
struct Follower<'a> {
    world: World<'a>,
}

impl<'a> Follower<'a> {
    /// A device that came has a search before it if it offers anything, and after the boot a finalizer.
    fn pin(&mut self, device: Device) -> Result<(), Memory> {
        let policy = self.world.policy_of(device);
        if policy.finaliser && self.world.is_booted {
            self.world.finalised.push(device.serial)?;
        }
        if offers_any(self.world.alloc, self.world.tables, device.driver)? {
            self.world.searched.push(device.serial)?;
        }
        Ok(())
    }

    /// Whether the device of this row is attached to a spot under this name; it is live from now on.
    fn comes(
        &mut self,
        parent: Option<Device>,
        spot: u16,
        number: u32,
        got: &Got,
    ) -> Result<bool, Memory> {
        let Some(row) = self.world.tables.rows.items().get(number as usize) else {
            return Ok(false);
        };
        let device = Device {
            serial: self.world.next,
            row: number,
            driver: row.device,
            unit: unit_by(&self.world.devices, row),
            parent: match parent {
                Some(parent) => parent.serial,
                None => 0,
            },
            spot,
            asleep: false,
            condemned: None,
        };
        self.world.next = self.world.next.saturating_add(1);
        self.world.devices.push(device)?;
        self.pin(device)?;
        let name = name_of(self.world.alloc, self.world.tables, device)?;
        Ok(number == got.row && name.as_slice() == got.name.bytes())
    }

    /// Whether a search of a spot finds this.
    fn finds(
        &mut self,
        parent: Option<Device>,
        spot: u16,
        got: &Option<Got>,
    ) -> Result<bool, Memory> {
        if is_occupied(&self.world.devices, spot) || !self.world.is_seen(spot) {
            return Ok(false);
        }
        let row = winner(
            self.world.alloc,
            self.world.tables,
            self.world.machine,
            &self.world.devices,
            parent,
            spot,
        )?;
        match (row, got) {
            (Some(row), Some(got)) => self.comes(parent, spot, row, got),
            (None, None) => Ok(true),
            _ => Ok(false),
        }
    }

    /// Whether a search below the device of this name, or below the root, finds this on a spot that is there.
    fn finds_below(
        &mut self,
        parent: &Name,
        spot: &Name,
        got: &Option<Got>,
    ) -> Result<bool, Memory> {
        let Some(spot) = self.world.spot_named(spot) else {
            return Ok(false);
        };
        if parent.bytes() == b"root".as_slice() {
            return self.finds(None, spot, got);
        }
        match self.world.named(parent)? {
            Some(parent) => self.finds(Some(parent), spot, got),
            None => Ok(false),
        }
    }

    /// Whether the search below a device, or below the root, may end now.
    fn ends_search(&mut self, name: &Name) -> Result<bool, Memory> {
        if name.bytes() == b"root".as_slice() {
            return Ok(true);
        }
        let Some(device) = self.world.named(name)? else {
            return Ok(false);
        };
        let is_searched = self
            .world
            .searched
            .iter()
            .any(|serial| *serial == device.serial);
        self.world
            .searched
            .retain(|serial| *serial != device.serial);
        Ok(is_searched)
    }

    /// Whether the finalizer of a device shows this: the first late spot below it, or nothing if none is left.
    fn finalises(
        &mut self,
        caller: u8,
        name: &Name,
        shown: &Option<Shown>,
    ) -> Result<bool, Memory> {
        let Some(device) = self.world.named(name)? else {
            return Ok(false);
        };
        let late = self.world.late_spot(device)?;
        match (late, shown) {
            (Some(spot), Some(shown)) => {
                if self.world.spot_named(&shown.spot) != Some(spot) {
                    return Ok(false);
                }
                if let Some(hidden) = self.world.hidden.get_mut(spot as usize) {
                    *hidden = false;
                }
                self.finds(Some(device), spot, &shown.got)
            }
            (None, None) => {
                if caller != 0 {
                    self.world
                        .finalised
                        .retain(|serial| *serial != device.serial);
                }
                Ok(true)
            }
            _ => Ok(false),
        }
    }

    /// Whether a caller that frees comes to the device of this name: of those that it condemned the last, with nothing
    /// below it, and held by nobody.
    fn goes(&mut self, caller: u8, name: &Name) -> Result<bool, Memory> {
        let Some(device) = self.world.next_free(caller) else {
            return Ok(false);
        };
        let is_parent = self
            .world
            .devices
            .iter()
            .any(|other| other.parent == device.serial);
        let is_it = self.world.is_name(device, name)?;
        self.world
            .devices
            .retain(|other| other.serial != device.serial);
        Ok(is_it && !is_parent && !is_held(&self.world.refs, device.serial))
    }

    /// Whether a caller that asks for a reference, a sole one or any, gets this reply.
    fn opens(
        &mut self,
        caller: u8,
        name: &Name,
        sole: bool,
        reply: &Reply,
    ) -> Result<bool, Memory> {
        let device = self.world.named(name)?;
        let answer = opening(&self.world, caller, device, sole);
        if let (Answer::Ok, Some(device)) = (answer, device) {
            let serial = device.serial;
            self.world.refs.push(Held { serial, caller })?;
            if sole {
                self.world.sole.push(serial)?;
            }
        }
        is_reply(&self.world, answer, reply)
    }

    /// A caller returns a reference.
    fn returns(&mut self, caller: u8, device: Device) -> bool {
        self.world.sole.retain(|serial| *serial != device.serial);
        give_back(&mut self.world.refs, device.serial, caller)
    }

    /// Whether a caller that gives a reference back gets this reply.
    fn closes(&mut self, caller: u8, name: &Name, reply: &Reply) -> Result<bool, Memory> {
        let device = self.world.named(name)?;
        let answer = closing(&self.world, caller, device);
        if let (Answer::Ok, Some(device)) = (answer, device) {
            let _ = self.returns(caller, device);
        }
        is_reply(&self.world, answer, reply)
    }

    /// Whether a caller that has no command left returns the first device that it holds, and this is its name.
    fn drops(&mut self, caller: u8, name: &Name) -> Result<bool, Memory> {
        let Some(device) = self.world.first_held(caller) else {
            return Ok(false);
        };
        let is_returned = self.returns(caller, device);
        Ok(is_returned && self.world.is_name(device, name)?)
    }

    /// Whether a caller that starts a transfer gets this reply.
    fn starts(&self, caller: u8, name: &Name, reply: &Reply) -> Result<bool, Memory> {
        let device = self.world.named(name)?;
        is_reply(&self.world, starting(&self.world, caller, device), reply)
    }

    /// Whether a caller that detaches a device gets this reply.
    fn detaches(&mut self, caller: u8, name: &Name, reply: &Reply) -> Result<bool, Memory> {
        let device = self.world.named(name)?;
        let answer = detaching(&self.world, caller, device);
        if let (Answer::Ok, Some(device)) = (answer, device) {
            self.world.condemn(device.serial, caller);
        }
        is_reply(&self.world, answer, reply)
    }

    /// Whether a caller that rescans a device gets this reply. Which attributes and locators are bad is not judged.
    fn rescans(&mut self, name: &Name, reply: &Reply) -> Result<bool, Memory> {
        let device = self.world.named(name)?;
        match (rescanning(&self.world, device)?, device, reply) {
            (Answer::Ok, _, Reply::BadAttribute | Reply::BadLocator) => Ok(true),
            (Answer::Ok, Some(device), Reply::Ok) => {
                self.world.searched.push(device.serial)?;
                Ok(true)
            }
            (Answer::Ok, _, _) => Ok(false),
            (answer, _, reply) => is_reply(&self.world, answer, reply),
        }
    }

    /// Whether a caller that begins a power command gets this reply, while no other one goes on.
    fn begins(
        &mut self,
        caller: u8,
        kind: PowerKind,
        name: &Name,
        reply: &Reply,
    ) -> Result<bool, Memory> {
        let device = self.world.named(name)?;
        let answer = powering(device);
        let is_free = self.world.powers.is_empty();
        if let (Answer::Ok, Some(device)) = (answer, device) {
            self.world.powers.push(Power {
                caller,
                kind,
                target: device.serial,
            })?;
        }
        Ok(is_free && is_reply(&self.world, answer, reply)?)
    }

    /// The device that the power command of a caller comes to; none if it comes to its end.
    fn next_rest(&self, power: Power) -> Option<Device> {
        match power.kind {
            PowerKind::Suspend => self.world.next_sleep(power.target),
            PowerKind::Resume => self.world.next_wake(power.target, false),
            PowerKind::ResumeTree => self.world.next_wake(power.target, true),
        }
    }

    /// Whether the power command of a caller puts the device of this name to sleep, or wakes it.
    fn rests(&mut self, caller: u8, name: &Name, asleep: bool) -> Result<bool, Memory> {
        let mut powers = self.world.powers.iter();
        let Some(power) = powers.find(|power| power.caller == caller).copied() else {
            return Ok(false);
        };
        let Some(device) = self.next_rest(power) else {
            return Ok(false);
        };
        let policy = self.world.policy_of(device);
        let refuses = policy.nopower || policy.failsuspend || self.world.is_pinned(device.serial);
        let is_it = self.world.is_name(device, name)?;
        self.world.rest(device.serial, asleep);
        Ok(is_it && asleep == (power.kind == PowerKind::Suspend) && !(asleep && refuses))
    }

    /// What the power command of a caller gets at its end; nothing while it has a device to come to.
    fn end_of(&self, power: Power) -> Option<Answer> {
        if device_at(&self.world.devices, power.target).is_none() {
            return Some(Answer::Gone);
        }
        let Some(device) = self.next_rest(power) else {
            return Some(Answer::Ok);
        };
        let policy = self.world.policy_of(device);
        if power.kind != PowerKind::Suspend || self.world.is_pinned(device.serial) {
            None
        } else if policy.nopower {
            Some(Answer::NotSupported(device))
        } else if policy.failsuspend {
            Some(Answer::SuspendFailed(device))
        } else {
            None
        }
    }

    /// Whether the power command of a caller ends with this reply.
    fn ends_power(&mut self, caller: u8, reply: &Reply) -> Result<bool, Memory> {
        let mut powers = self.world.powers.iter();
        let Some(power) = powers.find(|power| power.caller == caller).copied() else {
            return Ok(false);
        };
        self.world.powers.retain(|power| power.caller != caller);
        match self.end_of(power) {
            Some(answer) => is_reply(&self.world, answer, reply),
            None => Ok(false),
        }
    }

    /// Whether hardware that comes to a spot gets this reply.
    fn plugs(&mut self, name: &Name, reply: &Reply) -> Result<bool, Memory> {
        let spot = self.world.spot_named(name);
        let place = spot.map_or(usize::MAX, |spot| spot as usize);
        if let Some(absent) = self.world.absent.get_mut(place) {
            *absent = false;
        }
        let answer = match spot {
            Some(_) => Answer::Ok,
            None => Answer::NoSpot,
        };
        is_reply(&self.world, answer, reply)
    }

    /// Whether a caller that pulls hardware out of a spot gets this reply.
    fn unplugs(&mut self, caller: u8, name: &Name, reply: &Reply) -> Result<bool, Memory> {
        let spot = self.world.spot_named(name);
        let answer = unplugging(&self.world, caller, spot);
        let is_told = is_reply(&self.world, answer, reply)?;
        if let (Answer::Ok, Some(spot)) = (answer, spot) {
            let device = device_on(&self.world.devices, spot);
            if let Some(absent) = self.world.absent.get_mut(spot as usize) {
                *absent = true;
            }
            if let Some(device) = device {
                self.world.condemn(device.serial, caller);
            }
        }
        Ok(is_told)
    }

    /// Whether these are the children of a device, or of the root, by serial.
    fn lists(&self, device: &Option<Name>, names: &Option<List<Name>>) -> Result<bool, Memory> {
        let parent = match device {
            Some(name) => match self.world.named(name)? {
                Some(device) => device.serial,
                None => return Ok(names.is_none()),
            },
            None => 0,
        };
        let Some(names) = names else {
            return Ok(false);
        };
        let mut left = names.items();
        for child in &self.world.devices {
            if child.parent == parent {
                match left {
                    [name, rest @ ..] if self.world.is_name(*child, name)? => left = rest,
                    _ => return Ok(false),
                }
            }
        }
        Ok(left.is_empty())
    }

    /// Whether these are devices of a tree, with their depths below the first one's level.
    fn are_told(&self, part: &[Deep], names: &[DepthName], level: u32) -> Result<bool, Memory> {
        if part.len() != names.len() {
            return Ok(false);
        }
        for (deep, told) in part.iter().zip(names) {
            let is_alike = deep.depth.saturating_sub(level) == told.depth;
            if !is_alike || !self.world.is_name(deep.device, &told.name)? {
                return Ok(false);
            }
        }
        Ok(true)
    }

    /// Whether this is the tree from a device on, or below the root.
    fn tells_tree(
        &self,
        device: &Option<Name>,
        names: &Option<List<DepthName>>,
    ) -> Result<bool, Memory> {
        let tree = tree_of(self.world.alloc, &self.world.devices)?;
        let part = match device {
            Some(name) => match self.world.named(name)? {
                Some(device) => part_of(&tree, device),
                None => return Ok(names.is_none()),
            },
            None => tree.as_slice(),
        };
        let level = match part {
            [first, ..] => first.depth,
            [] => 0,
        };
        match names {
            Some(names) => self.are_told(part, names.items(), level),
            None => Ok(false),
        }
    }

    /// Whether linear search gives this event of a search, a finalizer or a caller here; it takes effect.
    fn would_have(&mut self, event: &Event) -> Result<bool, Memory> {
        let caller = event.caller;
        match event.act.get() {
            Act::Found { parent, spot, got } => self.finds_below(parent, spot, got),
            Act::ScanEnd { device } => self.ends_search(device),
            Act::Final { device, shown } => self.finalises(caller, device, shown),
            Act::Free { device } => self.goes(caller, device),
            Act::Sleep { device } => self.rests(caller, device, true),
            Act::Wake { device } => self.rests(caller, device, false),
            Act::PowerEnd { device: _, reply } => self.ends_power(caller, reply),
            Act::DropRef { device } => self.drops(caller, device),
            Act::End => {
                self.world.is_booted = true;
                Ok(true)
            }
            Act::Interrupts | Act::IoDone { .. } => Ok(true),
            act => self.answers(caller, act),
        }
    }

    /// Whether linear search gives this reply to a command here; it takes effect.
    fn answers(&mut self, caller: u8, act: &Act) -> Result<bool, Memory> {
        match act {
            Act::OpenDev { device, reply } => self.opens(caller, device, false, reply),
            Act::OpenSole { device, reply } => self.opens(caller, device, true, reply),
            Act::CloseDev { device, reply } => self.closes(caller, device, reply),
            Act::IoStart { device, reply, .. } => self.starts(caller, device, reply),
            Act::Detach { device, reply } => self.detaches(caller, device, reply),
            Act::Rescan { device, reply } => self.rescans(device, reply),
            Act::ListDev { device, names } => self.lists(device, names),
            Act::TreeDev { device, names } => self.tells_tree(device, names),
            Act::Power {
                kind,
                device,
                reply,
            } => self.begins(caller, *kind, device, reply),
            Act::Plug { spot, reply } => self.plugs(spot, reply),
            Act::Unplug { spot, reply } => self.unplugs(caller, spot, reply),
            _ => Ok(true),
        }
    }

    /// The same, and the event is dropped.
    fn would_have_all(&mut self, event: Event) -> Result<Option<bool>, Memory> {
        let answer = self.would_have(&event);
        drop(event);
        Ok(Some(answer?))
    }

    /// Whether linear search gives this line here; nothing if it spells no event.
    fn would_have_line(&mut self, line: &[u8]) -> Result<Option<bool>, Memory> {
        match read_event(self.world.alloc, line)? {
            Some(event) => self.would_have_all(event),
            None => Ok(None),
        }
    }

    fn follow_lines(&mut self, text: &[u8]) -> Result<Followed, Memory> {
        let mut line_number: u64 = 0;
        let mut events: u64 = 0;
        for line in text.split(|byte| *byte == b'\n') {
            line_number = line_number.saturating_add(1);
            match self.would_have_line(line)? {
                Some(true) => events = events.saturating_add(1),
                Some(false) => return Ok(Followed::UpTo(line_number)),
                None => {}
            }
        }
        Ok(Followed::Whole(events))
    }
}

/// Follows the events that the lines of a text spell, by linear search in these tables and this machine.
pub fn follow(
    alloc: Global,
    tables: &Tables,
    machine: &Machine,
    text: &[u8],
) -> Result<Followed, Memory> {
    let mut follower = Follower {
        world: World::make(alloc, tables, machine)?,
    };
    follower.follow_lines(text)
}
