//! The scans that were put off, and for which devices.
ghost use Rattle.std.specs.Prelude.{◌≡◌, ◌==◌, ◌-◌, ◌&&◌, ◌++◌, ◌∷◌, [], ℕ, not, count_by, filter, IfOk, OnOk};
ghost use Rattle.std.specs.List.{list_any, slice_index_or};
ghost use Rattle.run_rules.specs.After.{same_key};

use crate::caller::same_key;
use crate::tally::Tally;
use cf_types::Memory;
use run_rules::{Deferred, Key};
use std::alloc::Global;
use std::marker::Model;

/// The deferred scans in the order in which they were put off. Contracts see this list. One look tells whether a device has one.
#[derive(Drop)]
pub struct PutOff {
    scans: Vec<Deferred>,
    /// How many of them are of each device.
    children: Tally,
}

impl Model for PutOff {
    ghost use Rattle.std.specs.Prelude.{List};
    ghost use Rattle.run_rules.specs.declared.world.Deferred.{Deferred};
    ghost use Rattle.plain_world.specs.Tallies.{ArePutOff};

    ghost Value = { List Deferred };

    ghost view = { λ all. all.scans.items };

    ghost invariant = { λ all. ArePutOff all.scans.items all.children };
}

/// What was put off to a key no longer counts.
fn uncount(children: &mut Tally, scans: &[Deferred], which: Key)
    ensures { (s : ℕ) → slice_index_or children.new s 0 ≡ slice_index_or children.old s 0 - count_by (λ e. same_key e.key which && e.child == s) scans.now }
{
    for put_off in scans {
        if same_key(put_off.key, which) {
            children.leave(put_off.child);
        }
    }
}

/// Removes what was put off to a key.
fn take_out(scans: &mut Vec<Deferred>, which: Key)
    ensures { scans.new.items ≡ filter (λ e. not (same_key e.key which)) scans.old.items }
{
    scans.retain(|put_off| !same_key(put_off.key, which));
}

impl PutOff {
    /// Nothing was put off.
    pub fn make(alloc: Global) -> PutOff
        ensures { result ≡ [] }
    {
        PutOff {
            scans: Vec::new(alloc),
            children: Tally::make(alloc),
        }
    }

    /// A copy.
    pub fn copied(&self, alloc: Global) -> Result<PutOff, Memory>
        ensures { IfOk result (λ copy. copy ≡ self.now) }
    {
        let scans = Vec::from_slice(alloc, &self.scans)?;
        let children = self.children.copied(alloc)?;
        Ok(PutOff { scans, children })
    }

    /// The deferred scans in order.
    pub fn list(&self) -> &[Deferred]
        ensures { result.now ≡ self.now }
    {
        &self.scans
    }

    /// Whether a scan of a device was put off.
    #[inline(always)]
    pub fn has(&self, serial: u64) -> bool
        ensures { result ≡ list_any (λ e. e.child == serial) self.now }
    {
        self.children.has(serial)
    }

    /// A scan is put off.
    pub fn push(&mut self, put_off: Deferred) -> Result<(), Memory>
        ensures { OnOk result (self.new ≡ self.old ++ put_off ∷ []) }
    {
        self.children.reach(put_off.child)?;
        self.scans.push(put_off)?;
        self.children.enter(put_off.child);
        Ok(())
    }

    /// What was put off to a key goes.
    pub fn forget(&mut self, which: Key)
        ensures { self.new ≡ filter (λ e. not (same_key e.key which)) self.old }
    {
        uncount(&mut self.children, &self.scans, which);
        take_out(&mut self.scans, which);
    }
}
