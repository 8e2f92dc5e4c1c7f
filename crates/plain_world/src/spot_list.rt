//! Lists of spots. One look tells whether a spot is in such a list.
ghost use Rattle.std.specs.Prelude.{◌≡◌, ◌<◌, ◌==◌, ◌++◌, ◌∷◌, [], ℕ, false, true, not, filter, length, if◌then◌else◌, IfOk, OnOk};
ghost use Rattle.std.specs.List.{slice_index_or};
ghost use Rattle.run_rules.specs.World as world;

use cf_types::Memory;
use std::alloc::Global;
use std::marker::Model;

/// A list of spots, with a mark for each spot that is in it. Contracts see the list.
#[derive(Drop)]
pub struct SpotList {
    spots: Vec<u16>,
    marks: Vec<bool>,
}

impl Model for SpotList {
    ghost use Rattle.std.specs.Prelude.{ℕ, List};
    ghost use Rattle.plain_world.specs.Marks.{AreMarked};

    ghost Value = { List ℕ };

    ghost view = { λ list. list.spots.items };

    ghost invariant = { λ list. AreMarked list.spots.items list.marks.items };
}

/// Makes the marks reach a spot. The spots that they did not reach are not in the list.
fn reach(marks: &mut Vec<bool>, spot: u16) -> Result<(), Memory>
    ensures same { (x : ℕ) → slice_index_or marks.new.items x false ≡ slice_index_or marks.old.items x false }
    ensures ok { OnOk result (spot < length marks.new.items) }
{
    let wanted = spot as usize + 1;
    if marks.len() < wanted {
        marks.resize(wanted, false)?;
    }
    Ok(())
}

/// A spot comes into the list.
fn enter(marks: &mut Vec<bool>, spot: u16)
    requires { spot < length marks.old.items }
    ensures { (x : ℕ) → slice_index_or marks.new.items x false ≡ (if spot == x then true else slice_index_or marks.old.items x false) }
{
    marks[spot as usize] = true;
}

/// A spot goes from the list.
fn leave(marks: &mut Vec<bool>, spot: u16)
    ensures { (x : ℕ) → slice_index_or marks.new.items x false ≡ (if spot == x then false else slice_index_or marks.old.items x false) }
{
    if (spot as usize) < marks.len() {
        marks[spot as usize] = false;
    }
}

/// Whether a spot is marked.
#[inline(always)]
fn is_marked(marks: &[bool], spot: u16) -> bool
    ensures { result ≡ slice_index_or marks.now spot false }
{
    match marks.get(spot as usize) {
        Some(mark) => *mark,
        None => false,
    }
}

/// Removes a spot from a list.
fn take_out(spots: &mut Vec<u16>, spot: u16)
    ensures { spots.new.items ≡ filter (λ y. not (y == spot)) spots.old.items }
{
    spots.retain(|other| *other != spot);
}

impl SpotList {
    /// No spots.
    pub fn make(alloc: Global) -> SpotList
        ensures { result ≡ [] }
    {
        SpotList {
            spots: Vec::new(alloc),
            marks: Vec::new(alloc),
        }
    }

    /// A copy.
    pub fn copied(&self, alloc: Global) -> Result<SpotList, Memory>
        ensures { IfOk result (λ copy. copy ≡ self.now) }
    {
        let spots = Vec::from_slice(alloc, &self.spots)?;
        let marks = Vec::from_slice(alloc, &self.marks)?;
        Ok(SpotList { spots, marks })
    }

    /// The spots in order.
    pub fn spots(&self) -> &[u16]
        ensures { result.now ≡ self.now }
    {
        &self.spots
    }

    /// Whether a spot is in the list.
    #[inline(always)]
    pub fn has(&self, spot: u16) -> bool
        ensures { result ≡ world.has self.now spot }
    {
        is_marked(&self.marks, spot)
    }

    /// Puts a spot after the others.
    pub fn push(&mut self, spot: u16) -> Result<(), Memory>
        ensures { OnOk result (self.new ≡ self.old ++ spot ∷ []) }
    {
        reach(&mut self.marks, spot)?;
        self.spots.push(spot)?;
        enter(&mut self.marks, spot);
        Ok(())
    }

    /// Removes a spot.
    pub fn remove(&mut self, spot: u16)
        ensures { self.new ≡ filter (λ y. not (y == spot)) self.old }
    {
        take_out(&mut self.spots, spot);
        leave(&mut self.marks, spot);
    }

    /// Puts a spot before the others, and only there.
    pub fn put_first(&mut self, spot: u16) -> Result<(), Memory>
        ensures { OnOk result (self.new ≡ spot ∷ filter (λ y. not (y == spot)) self.old) }
    {
        self.remove(spot);
        self.put_in_front(spot)
    }

    /// Puts a spot before the others.
    fn put_in_front(&mut self, spot: u16) -> Result<(), Memory>
        ensures { OnOk result (self.new ≡ spot ∷ self.old) }
    {
        reach(&mut self.marks, spot)?;
        self.spots.insert(0, spot)?;
        enter(&mut self.marks, spot);
        Ok(())
    }
}
