ghost use Rattle.std.specs.Prelude.{◌≡◌, ◌==◌, ◌+◌, ℕ, ◌≤◌, if◌then◌else◌, false, true, find, option_map, position, length, vec_len, vec_capacity, IfOk, MatchOption, OnOk, OnErr};
ghost use Rattle.run_rules.specs.World.{has, holds_in, refers_to};
ghost use Rattle.run_rules.specs.References.{count_in, given_back, holder_mask, holds_on, is_of, shared_again, sole_with};
ghost use Rattle.ref_ledger.specs.Refs.{IsHolder, IsLeastHeld, IsSoleHolder, MayGrant, granted, no_references, returned};

use crate::masks::{Mask, add_caller, first_with, has_bit, mask_of, remove_caller};
use cf_types::{Hold, List, Memory};
use run_rules::Ref;
use std::alloc::Global;
use std::marker::Model;

/// The references to devices: each is held by a caller from 1 to 16, who may have up to 15 to one device, or the only
/// one that there may be. Contracts see the list of them in the order in which they were granted, and the devices held
/// solely. The masks of the callers tell at once who holds a device; the list is gone over where references are counted
/// and given back.
#[derive(Drop)]
pub struct Refs {
    refs: Vec<Ref>,
    sole: Vec<u64>,
    /// The callers of each device that is held.
    masks: Vec<Mask>,
}

impl Model for Refs {
    ghost use Rattle.ref_ledger.specs.Refs.{Ledger};
    ghost use Rattle.ref_ledger.specs.Masks.{IsIndexed};

    ghost Value = { Ledger };

    ghost view = { λ ledger. record { refs = ledger.refs.items; sole = ledger.sole.items } };

    ghost invariant = { λ ledger. IsIndexed ledger.refs.items ledger.sole.items ledger.masks.items };
}

/// The place of the first reference of a caller to a device.
fn place_of(refs: &[Ref], serial: u64, caller: u8) -> Option<usize>
    ensures { result ≡ position (is_of caller serial) refs.now }
{
    refs.iter()
        .position(|held| held.serial == serial && held.caller == caller)
}

/// Removes one reference of a caller to a device, if it has any.
fn take_out(refs: &mut Vec<Ref>, serial: u64, caller: u8)
    ensures { refs.new.items ≡ given_back refs.old.items caller serial }
{
    if let Some(place) = place_of(refs, serial, caller) {
        refs.remove(place);
    }
}

/// Removes a device from those that are held solely.
fn share_again(sole: &mut Vec<u64>, serial: u64)
    ensures { sole.new.items ≡ shared_again sole.old.items serial }
{
    sole.retain(|&held| held != serial);
}

/// Whether a caller has a reference to a device.
fn refers_still(refs: &[Ref], serial: u64, caller: u8) -> bool
    ensures { result ≡ holds_in refs.now caller serial }
{
    refs.iter()
        .any(|held| held.serial == serial && held.caller == caller)
}

/// How many references a caller has to a device.
fn count_of(refs: &[Ref], serial: u64, caller: u8) -> usize
    ensures { result ≡ count_in refs.now caller serial }
{
    refs.iter()
        .filter(|held| held.serial == serial && held.caller == caller)
        .count()
}

/// The caller of the first reference to a device.
fn first_caller(refs: &[Ref], serial: u64) -> Option<u8>
    ensures { result ≡ option_map (λ r. r.caller) (find (λ r. r.serial == serial) refs.now) }
{
    refs.iter()
        .find(|held| held.serial == serial)
        .map(|held| held.caller)
}

/// How many places a device takes among those that are held solely.
fn room_for(sole: bool) -> usize
    ensures { result ≡ if sole then 1 else 0 }
{
    if sole { 1 } else { 0 }
}

/// Adds a device to those that are held solely, if it is, in a list that has room.
fn mark_sole(marked: &mut Vec<u64>, serial: u64, sole: bool)
    requires { vec_len marked.old + (if sole then 1 else 0) ≤ vec_capacity marked.old }
    ensures { marked.new.items ≡ sole_with marked.old.items serial sole }
{
    if sole {
        let _ = marked.push(serial);
    }
}

impl Refs {
    /// No references. It takes no memory.
    pub fn make(alloc: Global) -> Refs
        ensures { result ≡ no_references }
    {
        Refs {
            refs: Vec::new(alloc),
            sole: Vec::new(alloc),
            masks: Vec::new(alloc),
        }
    }

    /// Grants a reference to a device to a caller from 1 to 16: the only one, if nobody has any; or one more, if nobody
    /// has the only one and the caller has fewer than 15. At `Memory` all is as before.
    pub fn grant(&mut self, serial: u64, caller: u8, sole: bool) -> Result<(), Memory>
        requires caller { IsHolder caller }
        requires free { MayGrant self.old serial caller sole }
        ensures ok { OnOk result (self.new ≡ granted self.old serial caller sole) }
        ensures err { OnErr result (self.new ≡ self.old) }
    {
        self.masks.reserve(1)?;
        self.sole.reserve(room_for(sole))?;
        self.refs.push(Ref { serial, caller })?;
        mark_sole(&mut self.sole, serial, sole);
        add_caller(&mut self.masks, serial, caller);
        Ok(())
    }

    /// Gives back one reference to a device that the caller holds. It takes no memory.
    pub fn give_back(&mut self, serial: u64, caller: u8)
        requires { holds_in self.old.refs caller serial ≡ true }
        ensures { self.new ≡ returned self.old serial caller }
    {
        take_out(&mut self.refs, serial, caller);
        share_again(&mut self.sole, serial);
        if !refers_still(&self.refs, serial, caller) {
            remove_caller(&mut self.masks, serial, caller);
        }
    }

    /// Whether the caller holds the device.
    pub fn holds(&self, serial: u64, caller: u8) -> bool
        ensures { result ≡ holds_in self.now.refs caller serial }
    {
        has_bit(mask_of(&self.masks, serial), caller)
    }

    /// How many references the caller has to the device, 0 to 15.
    pub fn count(&self, serial: u64, caller: u8) -> u8
        ensures count { result ≡ count_in self.now.refs caller serial }
        ensures few { result ≤ 15 }
    {
        if self.holds(serial, caller) {
            count_of(&self.refs, serial, caller) as u8
        } else {
            0
        }
    }

    /// The caller that has the only reference to the device; none if nobody has the device solely.
    pub fn sole(&self, serial: u64) -> Option<u8>
        ensures { MatchOption result (has self.now.sole serial ≡ false) (IsSoleHolder self.now serial) }
    {
        if self.is_sole(serial) {
            first_caller(&self.refs, serial)
        } else {
            None
        }
    }

    /// Whether a caller has the device solely.
    pub fn is_sole(&self, serial: u64) -> bool
        ensures { result ≡ has self.now.sole serial }
    {
        self.sole.iter().any(|&held| held == serial)
    }

    /// Whether anybody holds the device.
    pub fn refers(&self, serial: u64) -> bool
        ensures { result ≡ refers_to self.now.refs serial }
    {
        mask_of(&self.masks, serial) != 0
    }

    /// Who holds the device: bit k-1 is caller k.
    pub fn holders(&self, serial: u64) -> u16
        ensures { result ≡ holder_mask self.now.refs serial }
    {
        mask_of(&self.masks, serial)
    }

    /// What each caller holds of the device, by caller; those that do not hold it are left out.
    pub fn holds_on(&self, alloc: Global, serial: u64) -> Result<List<Hold>, Memory>
        ensures { IfOk result (λ holds. holds ≡ holds_on self.now.refs self.now.sole serial) }
    {
        let mut holds = List::make(alloc);
        if !self.refers(serial) {
            return Ok(holds);
        }
        let sole = self.is_sole(serial);
        for index in 0..16u8 {
            let caller = index + 1;
            if self.holds(serial, caller) {
                let count = self.count(serial, caller);
                holds.push(Hold {
                    caller,
                    count,
                    sole,
                })?;
            }
        }
        Ok(holds)
    }

    /// The least serial of a device that the caller holds; none if it holds none. It takes no memory.
    pub fn first_held(&self, caller: u8) -> Option<u64>
        ensures { MatchOption result ((s : ℕ) → holds_in self.now.refs caller s ≡ false) (IsLeastHeld self.now.refs caller) }
    {
        first_with(&self.masks, caller)
    }

    /// How many references there are; each counts.
    pub fn total(&self) -> u64
        ensures { result ≡ length self.now.refs }
    {
        self.refs.len() as u64
    }
}
