//! The references, and how often each device is held.
ghost use Rattle.std.specs.Prelude.{◌≡◌, ◌<◌, ◌+◌, ◌-◌, ◌==◌, ◌&&◌, ◌++◌, ◌∷◌, ◌^◌, [], ℕ, if◌then◌else◌, length, position, IfOk, OnOk};
ghost use Rattle.run_rules.specs.References as rule;
ghost use Rattle.run_rules.specs.World as world;
ghost use Rattle.plain_world.specs.Tallies.{HasRoom, tally_at};

use crate::tally::Tally;
use cf_types::Memory;
use run_rules::Ref;
use std::alloc::Global;
use std::marker::Model;

/// The references in the order in which they were granted. Contracts see this list. One look tells how often a device is held, by a
/// caller or by all of them.
#[derive(Drop)]
pub struct Refs {
    refs: Vec<Ref>,
    devices: Tally,
    /// For each caller how often it holds each device.
    callers: Vec<Tally>,
}

impl Model for Refs {
    ghost use Rattle.std.specs.Prelude.{List};
    ghost use Rattle.run_rules.specs.declared.world.Ref.{Ref};
    ghost use Rattle.plain_world.specs.Tallies.{AreTallied};

    ghost Value = { List Ref };

    ghost view = { λ all. all.refs.items };

    ghost invariant = { λ all. AreTallied all.refs.items all.devices all.callers.items };
}

/// How often a caller holds a device.
#[inline(always)]
fn count_at(callers: &[Tally], caller: u8, serial: u64) -> usize
    ensures { result ≡ tally_at callers.now caller serial }
{
    match callers.get(caller as usize) {
        Some(tally) => tally.of(serial),
        None => 0,
    }
}

/// Makes room for what a caller holds.
fn reach_caller(alloc: Global, callers: &mut Vec<Tally>, caller: u8) -> Result<(), Memory>
    ensures same { (k s : ℕ) → tally_at callers.new.items k s ≡ tally_at callers.old.items k s }
    ensures ok { OnOk result (caller < length callers.new.items) }
{
    for _number in callers.len()..caller as usize + 1 {
        callers.push(Tally::make(alloc))?;
    }
    Ok(())
}

/// Makes room to count a device that a caller holds.
fn reach_for(alloc: Global, callers: &mut Vec<Tally>, caller: u8, serial: u64) -> Result<(), Memory>
    ensures same { (k s : ℕ) → tally_at callers.new.items k s ≡ tally_at callers.old.items k s }
    ensures ok { OnOk result (HasRoom callers.new.items caller serial) }
{
    reach_caller(alloc, callers, caller)?;
    callers[caller as usize].reach(serial)?;
    Ok(())
}

/// A caller holds a device once more.
fn enter_for(callers: &mut Vec<Tally>, caller: u8, serial: u64)
    requires room { HasRoom callers.old.items caller serial }
    requires low { tally_at callers.old.items caller serial < 2 ^ 64 - 1 }
    ensures { (k s : ℕ) → tally_at callers.new.items k s ≡ tally_at callers.old.items k s + (if serial == s && caller == k then 1 else 0) }
{
    callers[caller as usize].enter(serial);
}

/// A caller holds a device once less.
fn leave_for(callers: &mut Vec<Tally>, caller: u8, serial: u64)
    ensures { (k s : ℕ) → tally_at callers.new.items k s ≡ tally_at callers.old.items k s - (if serial == s && caller == k then 1 else 0) }
{
    if (caller as usize) < callers.len() {
        callers[caller as usize].leave(serial);
    }
}

/// Copies of tallies.
fn copied_tallies(alloc: Global, tallies: &[Tally]) -> Result<Vec<Tally>, Memory>
    ensures { IfOk result (λ copy. copy.items ≡ tallies.now) }
{
    let mut copy = Vec::new(alloc);
    for tally in tallies {
        copy.push(tally.copied(alloc)?)?;
    }
    Ok(copy)
}

/// The place of the first reference of a caller to a device.
fn place_of(refs: &[Ref], caller: u8, of: u64) -> Option<usize>
    ensures { result ≡ position (rule.is_of caller of) refs.now }
{
    refs.iter()
        .position(|held| held.serial == of && held.caller == caller)
}

/// Removes one reference of a caller to a device, if it has any.
fn take_first(refs: &mut Vec<Ref>, caller: u8, of: u64)
    ensures { refs.new.items ≡ rule.given_back refs.old.items caller of }
{
    if let Some(place) = place_of(refs, caller, of) {
        refs.remove(place);
    }
}

impl Refs {
    /// No references.
    pub fn make(alloc: Global) -> Refs
        ensures { result ≡ [] }
    {
        Refs {
            refs: Vec::new(alloc),
            devices: Tally::make(alloc),
            callers: Vec::new(alloc),
        }
    }

    /// A copy.
    pub fn copied(&self, alloc: Global) -> Result<Refs, Memory>
        ensures { IfOk result (λ copy. copy ≡ self.now) }
    {
        let refs = Vec::from_slice(alloc, &self.refs)?;
        let devices = self.devices.copied(alloc)?;
        let callers = copied_tallies(alloc, &self.callers)?;
        Ok(Refs {
            refs,
            devices,
            callers,
        })
    }

    /// The references in order.
    pub fn list(&self) -> &[Ref]
        ensures { result.now ≡ self.now }
    {
        &self.refs
    }

    /// How often a caller holds a device.
    pub fn count(&self, caller: u8, serial: u64) -> usize
        ensures { result ≡ rule.count_in self.now caller serial }
    {
        count_at(&self.callers, caller, serial)
    }

    /// Whether a caller holds a device.
    #[inline(always)]
    pub fn holds(&self, caller: u8, serial: u64) -> bool
        ensures { result ≡ world.holds_in self.now caller serial }
    {
        count_at(&self.callers, caller, serial) > 0
    }

    /// Whether anybody holds a device.
    pub fn refers(&self, serial: u64) -> bool
        ensures { result ≡ world.refers_to self.now serial }
    {
        self.devices.has(serial)
    }

    /// A reference is granted.
    pub fn push(&mut self, alloc: Global, held: Ref) -> Result<(), Memory>
        ensures { OnOk result (self.new ≡ self.old ++ held ∷ []) }
    {
        self.devices.reach(held.serial)?;
        reach_for(alloc, &mut self.callers, held.caller, held.serial)?;
        self.refs.push(held)?;
        self.devices.enter(held.serial);
        enter_for(&mut self.callers, held.caller, held.serial);
        Ok(())
    }

    /// One reference of a caller to a device is returned, if it has any.
    pub fn take_out(&mut self, caller: u8, of: u64)
        ensures { self.new ≡ rule.given_back self.old caller of }
    {
        if count_at(&self.callers, caller, of) > 0 {
            take_first(&mut self.refs, caller, of);
            self.devices.leave(of);
            leave_for(&mut self.callers, caller, of);
        }
    }
}
