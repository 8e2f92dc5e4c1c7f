ghost use Rattle.std.specs.Prelude.{◌≡◌, false, ◌==◌, ◌++◌, ◌∷◌, [], length, map, MatchOption, OnOk, OnErr};
ghost use Rattle.std.specs.List.{All, list_any};
ghost use Rattle.run_rules.specs.After as after;
ghost use Rattle.defer_queue.specs.Queue.{IsLastPlace, TakesLast, entry_of, entries_of};

use cf_types::Memory;
use run_rules::{Deferred as Entry, Key};
use std::alloc::Global;
use std::marker::Model;

/// The deferred scans. Contracts see the list of them in the order in which they were deferred. See config_defer(9) and
/// config_interrupts(9).
#[derive(Drop)]
pub struct DeferQueue {
    entries: Vec<Entry>,
}

impl Model for DeferQueue {
    ghost use Rattle.std.specs.Prelude.{List};
    ghost use Rattle.run_rules.specs.declared.world.Deferred.{Deferred as Entry};

    ghost Value = { List Entry };

    ghost view = { λ queue. queue.entries.items };
}

/// Whether two keys are the same.
fn same_key(key: Key, which: Key) -> bool
    ensures { result ≡ after.same_key key which }
{
    match key {
        Key::Interrupts => match which {
            Key::Interrupts => true,
            Key::Parent(_) => false,
        },
        Key::Parent(parent) => match which {
            Key::Interrupts => false,
            Key::Parent(wanted) => parent == wanted,
        },
    }
}

/// The place of the last scan that was put off to a key.
fn last_place(entries: &[Entry], which: Key) -> Option<usize>
    ensures { MatchOption result (All (λ e. after.same_key e.key which ≡ false) entries.now) (λ place. IsLastPlace entries.now which place) }
{
    entries.iter().rposition(|entry| same_key(entry.key, which))
}

impl DeferQueue {
    /// Nothing is deferred. It takes no memory.
    pub fn make(alloc: Global) -> DeferQueue
        ensures { result ≡ [] }
    {
        DeferQueue {
            entries: Vec::new(alloc),
        }
    }

    /// Defers the scan of a device to a key. At `Memory` all is as before.
    pub fn put(&mut self, key: Key, child: u64) -> Result<(), Memory>
        ensures ok { OnOk result (self.new ≡ self.old ++ entry_of key child ∷ []) }
        ensures err { OnErr result (self.new ≡ self.old) }
    {
        self.entries.push(Entry { key, child })?;
        Ok(())
    }

    /// Removes the scan that was deferred last to a key, and returns its device; none if nothing was deferred. It takes
    /// no memory.
    pub fn take_last(&mut self, key: Key) -> Option<u64>
        ensures { MatchOption result ((entries_of self.old key ≡ []) × (self.new ≡ self.old)) (λ child. TakesLast self.old key child self.new) }
    {
        let place = last_place(&self.entries, key)?;
        let entry = self.entries.remove(place);
        Some(entry.child)
    }

    /// How many scans are deferred to a key.
    pub fn count(&self, key: Key) -> usize
        ensures { result ≡ length (entries_of self.now key) }
    {
        self.entries
            .iter()
            .filter(|entry| same_key(entry.key, key))
            .count()
    }

    /// Appends the devices whose scans are deferred.
    pub fn add_children(&self, serials: &mut Vec<u64>) -> Result<(), Memory>
        ensures { OnOk result (serials.new.items ≡ serials.old.items ++ map (λ e. e.child) self.now) }
    {
        for entry in &self.entries {
            serials.push(entry.child)?;
        }
        Ok(())
    }

    /// Whether a scan of the device is deferred.
    pub fn pinned(&self, child: u64) -> bool
        ensures { result ≡ list_any (λ e. e.child == child) self.now }
    {
        self.entries.iter().any(|entry| entry.child == child)
    }
}
