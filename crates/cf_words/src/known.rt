//! Names that have been read, so that one that is read again shares their memory.
ghost use Rattle.std.specs.Prelude.{◌≡◌, ◌≤◌, IfOk, IfSome, length, map};
ghost use Rattle.cf_types.specs.Pieces.{AreIn, token_in};

use crate::lists::KnownLists;
use crate::word::is_same;
use cf_types::{Memory, Name, PieceList, Pieces, Token};
use std::alloc::Global;
use std::mem::replace;

/// How many names there is room for at first.
const FIRST: usize = 512;

/// The most names that there is room for.
const MOST: usize = 32_768;

/// At how many places a name may be.
const WAYS: usize = 4;

/// Some of the names that were read, each at one of four places that are computed from its bytes. A name that is read
/// again shares the memory of the earlier one, if that one is still there.
#[derive(Drop)]
pub struct Known {
    names: Vec<Option<Name>>,
    made: usize,
    lists: KnownLists,
}

/// The factor by which a number is multiplied for each part of a name: it spreads names that differ in a digit or two.
const SPREAD: u64 = 0x9E37_79B9_7F4A_7C15;

/// A number that is computed from those of two parts.
#[inline(always)]
fn joined(number: u64, part: u32) -> u64 {
    number.wrapping_mul(SPREAD).wrapping_add(u64::from(part))
}

/// A number that is computed from the bytes of a long name after its first four.
fn number_behind(first: u64, bytes: &[u8]) -> u64 {
    let mut number = first;
    for byte in bytes {
        number = joined(number, u32::from(*byte));
    }
    number
}

/// A number that is computed from the first four and the last four bytes of a name, which are all that most names have.
#[inline(always)]
fn parts_of(bytes: &[u8]) -> u64 {
    match bytes {
        [a, b, c, d, behind @ ..] => {
            let first = u64::from(u32::from_le_bytes([*a, *b, *c, *d]));
            if behind.len() > 4 {
                return number_behind(first, behind);
            }
            match bytes {
                [.., e, f, g, h] => joined(first, u32::from_le_bytes([*e, *f, *g, *h])),
                _ => first,
            }
        }
        [a, b, c] => u64::from(u32::from_le_bytes([*a, *b, *c, 0])),
        [a, b] => u64::from(u32::from_le_bytes([*a, *b, 0, 0])),
        [a] => u64::from(*a),
        [] => 0,
    }
}

/// A number that is computed from the bytes of a name.
#[inline(always)]
fn number_of(bytes: &[u8]) -> usize {
    (parts_of(bytes).wrapping_mul(SPREAD) >> 32) as usize
}

impl Known {
    /// No name is known. It takes no memory.
    pub fn make(alloc: Global) -> Known {
        Known {
            names: Vec::new(alloc),
            made: 0,
            lists: KnownLists::make(alloc),
        }
    }

    /// The allocator that gives memory to what is read.
    #[inline(always)]
    pub fn alloc(&self) -> Global {
        *self.names.allocator()
    }

    /// One of the places of a name with this number.
    #[inline(always)]
    fn place(&self, number: usize, way: usize) -> usize {
        (number ^ way) & self.names.len().saturating_sub(1)
    }

    /// The name with these bytes, if it is at this place.
    #[inline(always)]
    fn at(&self, place: usize, bytes: &[u8]) -> Option<&Name>
        ensures { IfSome result (λ name. name.now ≡ bytes.now) }
    {
        match self.names.get(place) {
            Some(Some(name)) => if is_same(name.bytes(), bytes) {
                Some(name)
            } else {
                None
            },
            _ => None,
        }
    }

    /// Swaps the names at two places.
    fn swap(&mut self, place: usize, other: usize) {
        let Some(slot) = self.names.get_mut(place) else {
            return;
        };
        let taken = slot.take();
        let Some(slot) = self.names.get_mut(other) else {
            return;
        };
        let left = replace(slot, taken);
        if let Some(slot) = self.names.get_mut(place) {
            *slot = left;
        }
    }

    /// The name with these bytes, if it is at one of the other places of its number. From then on it is at the first.
    fn find(&mut self, number: usize, bytes: &[u8]) -> Result<Option<Name>, Memory>
        ensures { IfOk result (λ found. IfSome found (λ name. name ≡ bytes.now)) }
    {
        for way in 1..WAYS {
            let place = self.place(number, way);
            if let Some(name) = self.at(place, bytes) {
                let name = name.clone()?;
                self.swap(place, self.place(number, 0));
                return Ok(Some(name));
            }
        }
        Ok(None)
    }

    /// The first place of a name with this number that is free, or the last one.
    fn free_place(&self, number: usize) -> usize {
        for way in 1..WAYS {
            let place = self.place(number, way - 1);
            if matches!(self.names.get(place), Some(None)) {
                return place;
            }
        }
        self.place(number, WAYS - 1)
    }

    /// Puts a name at one of its places, perhaps replacing another name.
    fn put(&mut self, number: usize, name: Name) {
        let place = self.free_place(number);
        if let Some(slot) = self.names.get_mut(place) {
            *slot = Some(name);
        }
    }

    /// Makes room for eight times as many names, unless there is room for the most.
    fn grow(&mut self) -> Result<(), Memory> {
        let len = self.names.len();
        if len >= MOST {
            return Ok(());
        }
        let count = if len == 0 { FIRST } else { len * 8 };
        self.names.resize_with(count, || None)?;
        for place in 0..len {
            if let Some(slot) = self.names.get_mut(place) {
                if let Some(name) = slot.take() {
                    self.put(number_of(name.bytes()), name);
                }
            }
        }
        Ok(())
    }

    /// Keeps a name that was made. Three quarters of the places stay free, so that few names replace another one.
    fn keep(&mut self, number: usize, name: &Name) -> Result<(), Memory> {
        if self.made >= self.names.len() / 4 {
            self.grow()?;
        }
        self.made = self.made.saturating_add(1);
        self.put(number, name.clone()?);
        Ok(())
    }

    /// The name with these bytes and this number, which is not at its first place.
    #[inline(never)]
    fn other_name(&mut self, number: usize, bytes: &[u8]) -> Result<Name, Memory>
        requires not_empty { 1 ≤ length bytes.now }
        requires not_long { length bytes.now ≤ 80 }
        ensures { IfOk result (λ name. name ≡ bytes.now) }
    {
        if let Some(name) = self.find(number, bytes)? {
            return Ok(name);
        }
        let name = Name::make(self.alloc(), bytes)?;
        match self.keep(number, &name) {
            Ok(()) => Ok(name),
            Err(stop) => {
                drop(name);
                Err(stop)
            }
        }
    }

    /// The name with these bytes.
    pub fn name(&mut self, bytes: &[u8]) -> Result<Name, Memory>
        requires not_empty { 1 ≤ length bytes.now }
        requires not_long { length bytes.now ≤ 80 }
        ensures { IfOk result (λ name. name ≡ bytes.now) }
    {
        let number = number_of(bytes);
        if let Some(name) = self.at(self.place(number, 0), bytes) {
            return Ok(name.clone()?);
        }
        self.other_name(number, bytes)
    }

    /// The tokens of this list, which share the memory of the same tokens that were read before, if they are many.
    #[inline(always)]
    pub fn share(&mut self, list: PieceList) -> Result<Pieces, Memory>
        ensures { IfOk result (λ pieces. pieces ≡ list) }
    {
        self.lists.share(list)
    }

    /// These tokens of a text, which share the memory of the same tokens that were read before, if they are many.
    #[inline(always)]
    pub fn share_tokens(&mut self, text: &[u8], tokens: &[Token]) -> Result<Pieces, Memory>
        requires { AreIn (length text.now) tokens.now }
        ensures { IfOk result (λ pieces. pieces ≡ map (token_in text.now) tokens.now) }
    {
        self.lists.share_tokens(text, tokens)
    }
}
