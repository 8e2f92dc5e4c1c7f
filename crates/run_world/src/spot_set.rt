//! Sets of spots.
ghost use Rattle.std.specs.Prelude.{◌≡◌, ◌<◌, ◌≤◌, ◌==◌, ◌++◌, ◌∷◌, [], ℕ, false, true, not, filter, length, if◌then◌else◌, vec_len, vec_capacity, OnOk, OnErr};
ghost use Rattle.std.specs.List.{slice_index_or};
ghost use Rattle.run_rules.specs.World as world;
ghost use Rattle.run_world.specs.Marked.{AreMarked};

use cf_types::Memory;
use std::alloc::Global;
use std::marker::Model;

/// A set of spots. One look tells whether a spot is in it. Contracts see the list of its spots.
#[derive(Drop)]
pub struct SpotSet {
    spots: Vec<u16>,
    /// Of each spot whether it is in the list, as far as the marks reach.
    marks: Vec<bool>,
}

impl Model for SpotSet {
    ghost use Rattle.std.specs.Prelude.{ℕ, List};
    ghost use Rattle.run_world.specs.Marked.{AreMarked};

    ghost Value = { List ℕ };

    ghost view = { λ set. set.spots.items };

    ghost invariant = { λ set. AreMarked set.spots.items set.marks.items };
}

/// Makes the marks reach a spot. At `Memory` they are as before.
fn reach(marks: &mut Vec<bool>, spot: u16) -> Result<(), Memory>
    ensures same { (x : ℕ) → slice_index_or marks.new.items x false ≡ slice_index_or marks.old.items x false }
    ensures ok { OnOk result (spot < length marks.new.items) }
{
    let wanted = spot as usize + 1;
    if marks.len() < wanted {
        marks.resize(wanted, false)?;
    }
    Ok(())
}

/// Sets the mark of a spot that the marks reach.
fn mark(marks: &mut Vec<bool>, spot: u16, value: bool)
    requires { spot < length marks.old.items }
    ensures count { length marks.new.items ≡ length marks.old.items }
    ensures marks { (x : ℕ) → slice_index_or marks.new.items x false ≡ (if spot == x then value else slice_index_or marks.old.items x false) }
{
    marks[spot as usize] = value;
}

/// Whether a spot is marked.
#[inline(always)]
fn is_marked(marks: &[bool], spot: u16) -> bool
    ensures mark { result ≡ slice_index_or marks.now spot false }
    ensures there { result ≡ true → spot < length marks.now }
{
    match marks.get(spot as usize) {
        Some(mark) => *mark,
        None => false,
    }
}

/// Takes a spot out of a list, if it is in it.
fn take_out(spots: &mut Vec<u16>, marks: &mut Vec<bool>, spot: u16)
    requires { AreMarked spots.old.items marks.old.items }
    ensures spots { spots.new.items ≡ filter (λ y. not (y == spot)) spots.old.items }
    ensures marks { AreMarked spots.new.items marks.new.items }
    ensures count { length marks.new.items ≡ length marks.old.items }
    ensures room { (vec_len spots.new ≤ vec_len spots.old) × (vec_capacity spots.new ≡ vec_capacity spots.old) }
{
    if is_marked(marks, spot) {
        spots.retain(|y| *y != spot);
        mark(marks, spot, false);
    }
}

/// Puts a spot before the others of a list that has room.
fn put_in_front(spots: &mut Vec<u16>, spot: u16)
    requires { vec_len spots.old < vec_capacity spots.old }
    ensures { spots.new.items ≡ spot ∷ spots.old.items }
{
    let _ = spots.insert(0, spot);
}

impl SpotSet {
    /// No spots. It takes no memory.
    pub fn make(alloc: Global) -> SpotSet
        ensures { result ≡ [] }
    {
        SpotSet {
            spots: Vec::new(alloc),
            marks: Vec::new(alloc),
        }
    }

    /// Whether a spot is in the set.
    #[inline(always)]
    pub fn has(&self, spot: u16) -> bool
        ensures { result ≡ world.has self.now spot }
    {
        is_marked(&self.marks, spot)
    }

    /// Adds a spot after the others. At `Memory` the set is as before.
    pub fn push(&mut self, spot: u16) -> Result<(), Memory>
        ensures ok { OnOk result (self.new ≡ self.old ++ spot ∷ []) }
        ensures err { OnErr result (self.new ≡ self.old) }
    {
        reach(&mut self.marks, spot)?;
        self.spots.push(spot)?;
        mark(&mut self.marks, spot, true);
        Ok(())
    }

    /// Removes a spot.
    pub fn remove(&mut self, spot: u16)
        ensures { self.new ≡ filter (λ y. not (y == spot)) self.old }
    {
        take_out(&mut self.spots, &mut self.marks, spot);
    }

    /// Puts a spot before the others, and only there. At `Memory` the set is as before.
    pub fn put_first(&mut self, spot: u16) -> Result<(), Memory>
        ensures ok { OnOk result (self.new ≡ spot ∷ filter (λ y. not (y == spot)) self.old) }
        ensures err { OnErr result (self.new ≡ self.old) }
    {
        reach(&mut self.marks, spot)?;
        self.spots.reserve(1)?;
        take_out(&mut self.spots, &mut self.marks, spot);
        put_in_front(&mut self.spots, spot);
        mark(&mut self.marks, spot, true);
        Ok(())
    }
}
