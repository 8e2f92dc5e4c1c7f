ghost use Rattle.std.specs.Prelude.{◌≡◌, ◌≤◌, ◌<◌, ◌-◌, ◌^◌, ◌⊎◌, ℕ, [], false, true, OnOk, OnErr};
ghost use Rattle.cf_types.specs.Gather.{is_in};
ghost use Rattle.unit_alloc.specs.Taken.{IsGrown, IsLeastFree, IsWith, IsWithout, PassesFew};

use crate::clear::first_clear;
use cf_types::Memory;
use std::alloc::Global;
use std::marker::Model;

/// The units of one device that are taken, as a bitmap: bit k of word w stands for unit 64 * w + k.
#[derive(Drop)]
pub struct UnitMap {
    words: Vec<u64>,
    /// All units of the words before this one are taken, so that devices that are attached one after the other get
    /// their units at once.
    full: usize,
}

impl Model for UnitMap {
    ghost use Rattle.std.specs.Prelude.{ℕ, List};
    ghost use Rattle.unit_alloc.specs.Taken.{AreFull, units_of};

    ghost Value = { List ℕ };

    ghost view = { λ map. units_of map.words.items };

    ghost invariant = { λ map. AreFull map.full map.words.items };
}

/// Appends words without units until there are this many. At `Memory` all is as before.
fn grow(words: &mut Vec<u64>, count: usize) -> Result<(), Memory>
    ensures ok { OnOk result (IsGrown words.old.items count words.new.items) }
    ensures err { OnErr result (words.new.items ≡ words.old.items) }
{
    if words.len() < count {
        words.resize(count, 0)?;
    }
    Ok(())
}

/// One more than the place if all units of its word are taken and this many words before it are full; else their number.
fn raised(full: usize, place: usize, word: u64) -> usize
    requires { place < 2 ^ 26 }
    ensures { (w : ℕ) → w < result → (w < full) ⊎ ((w ≡ place) × (word ≡ 2 ^ 64 - 1)) }
{
    if word == u64::MAX && full == place {
        place + 1
    } else {
        full
    }
}

impl UnitMap {
    /// No units. It takes no memory.
    pub fn make(alloc: Global) -> UnitMap
        ensures { result ≡ [] }
    {
        UnitMap {
            words: Vec::new(alloc),
            full: 0,
        }
    }

    /// The least unit that is at least the first one and not taken.
    pub fn pick(&self, first: u32) -> u32
        requires first { first ≤ 65536 }
        requires few { PassesFew (λ n. is_in n self.now) }
        ensures { IsLeastFree (λ n. is_in n self.now) first result }
    {
        let from = u64::from(first).max(64 * self.full as u64);
        first_clear(&self.words, from) as u32
    }

    /// Takes a unit that is not taken. The bitmap grows first, so at `Memory` all is as before.
    pub fn take(&mut self, unit: u32) -> Result<(), Memory>
        requires { is_in unit self.old ≡ false }
        ensures ok { OnOk result (IsWith unit self.old self.new) }
        ensures err { OnErr result (self.new ≡ self.old) }
    {
        let place = (unit / 64) as usize;
        grow(&mut self.words, place + 1)?;
        let word = self.words[place] | (1 << (unit % 64));
        self.words[place] = word;
        self.full = raised(self.full, place, word);
        Ok(())
    }

    /// Gives back a unit that is taken. It takes no memory.
    pub fn give(&mut self, unit: u32)
        requires { is_in unit self.old ≡ true }
        ensures { IsWithout unit self.old self.new }
    {
        let place = (unit / 64) as usize;
        let word = self.words[place] & !(1 << (unit % 64));
        self.words[place] = word;
        self.full = self.full.min(place);
    }
}
