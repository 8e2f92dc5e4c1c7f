//! Names with their numbers, found by their hash. A name whose slot another name has is found by binary search, so no
//! choice of names makes a look-up slow.
ghost use Rattle.std.specs.Prelude.{◌≡◌, ◌≤◌, ◌<◌, ◌==◌, ℕ, List, ◌∷◌, ◌++◌, [], IfErr, IfOk, None, OnOk, Some, if◌then◌else◌, length, slice_index, slice_set};
ghost use Rattle.machine_model.specs.Names.{AreNames, HaveNames, HaveSlots, number_of, slot_of};
ghost use Rattle.machine_model.specs.NumberedNames.{AreInOrder};

use crate::numbers;
use crate::numbers::{NumberedNames, put_in_order};
use cf_types::Memory;
use std::alloc::Global;
use std::hash::{FoldHasher, Hasher};

/// What a slot holds that no name has.
pub const FREE: u32 = u32::MAX;

/// Names in the order in which they come. The number of a name is its place there, of equal names that of the first.
#[derive(Drop)]
pub struct Names<'t> {
    pub names: Vec<&'t [u8]>,
    /// By the hashes of names their numbers, one in each slot.
    pub slots: Vec<u32>,
    /// The names whose slot another name has.
    pub rest: NumberedNames<'t>,
}

/// How many slots serve about so many names: four to sixteen times as many, and a power of two.
fn slots_for(count: usize) -> usize
    ensures { 1 ≤ result }
{
    match count {
        0..=4 => 16,
        5..=16 => 64,
        17..=64 => 256,
        65..=256 => 1_024,
        257..=1_024 => 4_096,
        1_025..=4_096 => 16_384,
        _ => 65_536,
    }
}

/// No name yet, with slots for about so many.
pub fn no_names<'t>(alloc: Global, count: usize) -> Result<Names<'t>, Memory>
    ensures { IfOk result (λ names. AreNames names []) }
{
    Ok(Names {
        names: Vec::with_capacity(alloc, count)?,
        slots: vec![in alloc; FREE; slots_for(count)]?,
        rest: Vec::new(alloc),
    })
}

/// The slot of a name among so many, a power of two.
fn slot_of(count: usize, name: &[u8]) -> usize
    requires { 1 ≤ count }
    ensures value { result ≡ slot_of count name.now }
    ensures within { result < count }
{
    let mut hasher = FoldHasher::default();
    hasher.write(name);
    hasher.finish() as usize & (count - 1)
}

/// The number of a name whose slot holds this.
fn number_at(names: &Names, slot: usize, name: &[u8]) -> Option<usize>
    requires slots { HaveSlots names.now }
    requires order { AreInOrder names.now.rest.items }
    requires slot { slot ≡ slot_of (length names.now.slots.items) name.now }
    ensures { result ≡ number_of names.now name.now }
{
    let held = names.slots[slot] as usize;
    match names.names.get(held) {
        Some(other) => if *other == name {
            Some(held)
        } else {
            numbers::number_in(&names.rest, name)
        },
        None => None,
    }
}

/// The number of a name.
pub fn number_of(names: &Names, name: &[u8]) -> Option<usize>
    requires slots { HaveSlots names.now }
    requires order { AreInOrder names.now.rest.items }
    ensures { result ≡ number_of names.now name.now }
{
    number_at(names, slot_of(names.slots.len(), name), name)
}

/// The number of a name, or its slot if it is not there.
pub fn find(names: &Names, name: &[u8]) -> Result<usize, usize>
    requires slots { HaveSlots names.now }
    requires order { AreInOrder names.now.rest.items }
    ensures found { IfOk result (λ number. number_of names.now name.now ≡ Some number) }
    ensures missed { IfErr result (λ slot. number_of names.now name.now ≡ None) }
    ensures slot { IfErr result (λ slot. slot ≡ slot_of (length names.now.slots.items) name.now) }
{
    let slot = slot_of(names.slots.len(), name);
    match number_at(names, slot, name) {
        Some(number) => Ok(number),
        None => Err(slot),
    }
}

/// Puts a number into a slot, if that is free.
fn take_slot(slots: &mut Vec<u32>, slot: usize, number: u32) -> bool
    requires { slot < length slots.old.items }
    ensures taken { result ≡ (slice_index slots.old.items slot == FREE) }
    ensures slots { slots.new.items ≡ (if result then slice_set slots.old.items slot number else slots.old.items) }
{
    if slots[slot] != FREE {
        return false;
    }
    slots[slot] = number;
    true
}

/// Adds the next name with its slot. It is not there yet.
pub fn insert<'t>(names: &mut Names<'t>, slot: usize, name: &'t [u8]) -> Result<(), Memory>
    requires slots { HaveSlots names.old }
    requires order { AreInOrder names.old.rest.items }
    requires few { length names.old.names.items < 65536 }
    requires slot { slot ≡ slot_of (length names.old.slots.items) name.now }
    requires new { number_of names.old name.now ≡ None }
    ensures { OnOk result ((list : List (List ℕ)) → AreNames names.old list → AreNames names.new (list ++ name.now ∷ [])) }
{
    let number = names.names.len();
    names.names.push(name)?;
    if take_slot(&mut names.slots, slot, number as u32) {
        return Ok(());
    }
    numbers::add(&mut names.rest, name, number)?;
    Ok(())
}

/// Adds the next name at the end, as it comes; the rest is put in order later.
pub fn push<'t>(names: &mut Names<'t>, name: &'t [u8]) -> Result<(), Memory>
    requires slots { HaveSlots names.old }
    requires few { length names.old.names.items < 65536 }
    ensures slots { OnOk result (HaveSlots names.new) }
    ensures names { OnOk result ((list : List (List ℕ)) → HaveNames names.old list → HaveNames names.new (list ++ name.now ∷ [])) }
{
    let slot = slot_of(names.slots.len(), name);
    let number = names.names.len();
    names.names.push(name)?;
    if take_slot(&mut names.slots, slot, number as u32) {
        return Ok(());
    }
    numbers::push(&mut names.rest, name, number)?;
    Ok(())
}

/// Puts the rest of names in order that came as they are.
pub fn settle(names: &mut Names) -> Result<(), Memory>
    ensures { OnOk result ((list : List (List ℕ)) → HaveNames names.old list → AreNames names.new list) }
{
    put_in_order(&mut names.rest)
}
