//! The leases of a caller.
ghost use Rattle.std.specs.Prelude.{◌≡◌, ◌<◌, ◌+◌, IfOk, IsSome, length, map, replicate, slice_index_or};
ghost use Rattle.lease_table.specs.Shown.{SeatShown};
ghost use Rattle.lease_table.specs.Leases.{without};
ghost use Rattle.lease_table.specs.declared.view.Claim.TheVariants.{Nothing};
ghost use Rattle.lease_table.specs.Holding.{HoldsNothing, LookIs, Takes, claim_of};

use crate::lease::Lease;
use crate::table::{LeaseSeat, LeaseTable, Taken};
use crate::view::SlotWord;
use cf_types::Memory;
use std::alloc::Global;
use std::marker::Model;

/// A caller's seat at the table, with the generation of its lease on each slot where it has one. Contracts see the seat.
#[derive(Drop)]
pub struct Leases {
    seat: LeaseSeat,
    slots: u16,
    held: Vec<Option<u64>>,
}

impl Model for Leases {
    ghost Value = { SeatShown };

    ghost view = { λ l. l.seat };

    ghost invariant = { λ l. (l.seat.view.standing.claims ≡ map claim_of l.held.items) × (length l.held.items ≡ l.slots) × (l.slots + 1 ≡ l.seat.table.words) };
}

// The generation of the lease on a slot.
fn generation_at(held: &[Option<u64>], slot: u16) -> Option<u64>
    ensures value { claim_of result ≡ slice_index_or (map claim_of held.now) slot Nothing }
    ensures inside { IsSome result → slot < length held.now }
{
    match held.get(slot as usize) {
        Some(generation) => *generation,
        None => None,
    }
}

impl Leases {
    /// No lease yet, and room for one on each slot.
    pub fn make(alloc: Global, seat: LeaseSeat, slots: u16) -> Result<Leases, Memory>
        requires fresh { seat.view.standing.claims ≡ replicate slots Nothing }
        requires slots { slots + 1 ≡ seat.table.words }
        ensures { IfOk result (λ l. l ≡ seat) }
    {
        let held = vec![in alloc; None; slots as usize]?;
        Ok(Leases { seat, slots, held })
    }

    /// Takes a lease on a slot, if there is none on it.
    pub fn take(&mut self, table: &LeaseTable, slot: u16)
        requires table { self.old.table ≡ table.now }
        requires slot { slot + 1 < table.now.words }
        ensures taken { Takes slot self.old.view self.new.view }
        ensures same { (self.new.table ≡ self.old.table) × (self.new.caller ≡ self.old.caller) }
    {
        match generation_at(self.held.as_slice(), slot) {
            Some(_) => return,
            None => {}
        }
        match table.take(&mut self.seat, slot) {
            Taken::Lease(lease) => {
                let Lease {
                    slot: _,
                    generation,
                } = lease;
                self.held[slot as usize] = Some(generation);
            }
            Taken::Condemned(_) => {}
            Taken::Free(_) => {}
        }
    }

    /// Gives back the lease on a slot, if there is one.
    pub fn give(&mut self, table: &LeaseTable, slot: u16)
        requires table { self.old.table ≡ table.now }
        ensures given { self.new.view ≡ without self.old.view slot }
        ensures same { (self.new.table ≡ self.old.table) × (self.new.caller ≡ self.old.caller) }
    {
        if let Some(generation) = generation_at(self.held.as_slice(), slot) {
            table.give(&mut self.seat, Lease { slot, generation });
            self.held[slot as usize] = None;
        }
    }

    /// One load for the lease on a slot, if there is one.
    pub fn look(&mut self, table: &LeaseTable, slot: u16) -> Option<SlotWord>
        requires table { self.old.table ≡ table.now }
        ensures look { LookIs self.old.view self.old.caller slot result self.new.view }
        ensures same { (self.new.table ≡ self.old.table) × (self.new.caller ≡ self.old.caller) }
    {
        let generation = generation_at(self.held.as_slice(), slot)?;
        let lease = Lease { slot, generation };
        let word = table.look(&mut self.seat, &lease);
        let Lease {
            slot: _,
            generation: _,
        } = lease;
        Some(word)
    }

    /// Gives back all leases.
    pub fn give_all(&mut self, table: &LeaseTable)
        requires table { self.old.table ≡ table.now }
        ensures nothing { HoldsNothing self.new.view }
        ensures same { (self.new.table ≡ self.old.table) × (self.new.caller ≡ self.old.caller) }
    {
        for slot in 0..self.slots {
            self.give(table, slot);
        }
    }
}
