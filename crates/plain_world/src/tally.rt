//! How often each number was counted.
ghost use Rattle.std.specs.Prelude.{◌≡◌, ◌<◌, ◌+◌, ◌-◌, ◌==◌, ◌^◌, [], ℕ, if◌then◌else◌, length, nat_lt, IfOk, OnOk};
ghost use Rattle.std.specs.List.{slice_index_or};

use cf_types::Memory;
use std::alloc::Global;
use std::marker::Model;

/// How often each number was counted, from 0 on. Contracts see the list of these counts; a number past its end was never counted.
#[derive(Drop)]
pub struct Tally {
    counts: Vec<usize>,
}

impl Model for Tally {
    ghost use Rattle.std.specs.Prelude.{ℕ, List};

    ghost Value = { List ℕ };

    ghost view = { λ tally. tally.counts.items };
}

impl Tally {
    /// Nothing was counted.
    pub fn make(alloc: Global) -> Tally
        ensures { result ≡ [] }
    {
        Tally {
            counts: Vec::new(alloc),
        }
    }

    /// A copy.
    pub fn copied(&self, alloc: Global) -> Result<Tally, Memory>
        ensures { IfOk result (λ copy. copy ≡ self.now) }
    {
        let counts = Vec::from_slice(alloc, &self.counts)?;
        Ok(Tally { counts })
    }

    /// How often a number was counted.
    #[inline(always)]
    pub fn of(&self, number: u64) -> usize
        ensures { result ≡ slice_index_or self.now number 0 }
    {
        match self.counts.get(number as usize) {
            Some(count) => *count,
            None => 0,
        }
    }

    /// Whether a number was counted.
    #[inline(always)]
    pub fn has(&self, number: u64) -> bool
        ensures { result ≡ nat_lt 0 (slice_index_or self.now number 0) }
    {
        self.of(number) > 0
    }

    /// Makes room to count a number.
    pub fn reach(&mut self, number: u64) -> Result<(), Memory>
        ensures same { (x : ℕ) → slice_index_or self.new x 0 ≡ slice_index_or self.old x 0 }
        ensures ok { OnOk result (number < length self.new) }
    {
        let wanted = (number as usize).saturating_add(1);
        if self.counts.len() < wanted {
            self.counts.resize(wanted, 0)?;
        }
        Ok(())
    }

    /// Counts a number once more.
    pub fn enter(&mut self, number: u64)
        requires reached { number < length self.old }
        requires low { slice_index_or self.old number 0 < 2 ^ 64 - 1 }
        ensures { (x : ℕ) → slice_index_or self.new x 0 ≡ slice_index_or self.old x 0 + (if number == x then 1 else 0) }
    {
        self.counts[number as usize] += 1;
    }

    /// Counts a number once less.
    pub fn leave(&mut self, number: u64)
        ensures { (x : ℕ) → slice_index_or self.new x 0 ≡ slice_index_or self.old x 0 - (if number == x then 1 else 0) }
    {
        let place = number as usize;
        if place < self.counts.len() {
            self.counts[place] = self.counts[place].saturating_sub(1);
        }
    }
}
