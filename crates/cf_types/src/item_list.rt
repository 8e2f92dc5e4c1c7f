//! Items of many statements, of which long parts may be shared.
ghost use Rattle.std.specs.Prelude.{◌≡◌, ◌+◌, ◌≤◌, ◌<◌, ◌^◌, [], ◌∷◌, ◌++◌, drop, length, take, IfOk, OnErr, OnOk};
ghost use Rattle.cf_types.specs.ItemParts.{AreEnds, items_in};

use crate::{Item, Items, List, Memory};
use std::alloc::Global;
use std::marker::Model;
use std::mem::replace;

/// Items, with how many there are up to their end, those of earlier parts included.
#[derive(Drop)]
struct Part {
    end: usize,
    items: Items,
}

/// A list of items that grows at its end. Parts of it may be shared with statements. Contracts see the list of the items.
#[derive(Drop)]
pub struct ItemList {
    parts: Vec<Part>,
    /// How many items the parts have.
    begun: usize,
    /// The items after all parts.
    last: Vec<Item>,
}

impl Model for ItemList {
    ghost use Rattle.std.specs.Prelude.{◌≡◌, ◌<◌, ◌^◌, ◌++◌, List as Values, length};
    ghost use Rattle.cf_types.specs.ItemParts.{AreEnds, items_in};
    ghost use Rattle.cf_types.specs.declared.stmt.Item.{Item};

    ghost Value = { Values Item };

    ghost view = { λ it. items_in it.parts.items ++ it.last.items };

    ghost invariant = { λ it. AreEnds it.parts.items × (it.begun ≡ length (items_in it.parts.items)) × (it.begun < 2 ^ 62) };
}

/// The most items that the parts have.
const MOST: usize = (1 << 62) - 1;

/// Appends a part, and returns how many items the parts have then. If memory runs out, or they would be too many to be
/// counted, the parts are as before.
fn add_part(parts: &mut Vec<Part>, begun: usize, items: Items) -> Result<usize, Memory>
    requires ends { AreEnds parts.old.items }
    requires begun { begun ≡ length (items_in parts.old.items) }
    requires few { begun < 2 ^ 62 }
    ensures err { OnErr result (parts.new.items ≡ parts.old.items) }
    ensures ends { AreEnds parts.new.items }
    ensures items { OnOk result (items_in parts.new.items ≡ items_in parts.old.items ++ items) }
    ensures end { IfOk result (λ end. end ≡ length (items_in parts.new.items)) }
    ensures few { IfOk result (λ end. end < 2 ^ 62) }
{
    let count = items.items().len();
    if count > MOST - begun {
        return Err(Memory);
    }
    parts.reserve(1)?;
    let end = begun + count;
    parts.push_reserved(Part { end, items });
    Ok(end)
}

/// Makes the items after all parts a part, and returns how many items the parts have then.
fn close(parts: &mut Vec<Part>, begun: usize, last: &mut Vec<Item>) -> Result<usize, Memory>
    requires ends { AreEnds parts.old.items }
    requires begun { begun ≡ length (items_in parts.old.items) }
    requires few { begun < 2 ^ 62 }
    ensures err { OnErr result (parts.new.items ≡ parts.old.items) }
    ensures ends { AreEnds parts.new.items }
    ensures items { OnOk result (items_in parts.new.items ≡ items_in parts.old.items ++ last.old.items) }
    ensures none { OnOk result (last.new.items ≡ []) }
    ensures end { IfOk result (λ end. end ≡ length (items_in parts.new.items)) }
    ensures few { IfOk result (λ end. end < 2 ^ 62) }
{
    if last.is_empty() {
        return Ok(begun);
    }
    let none = Vec::new(*last.allocator());
    let items = List::from_vec(replace(last, none));
    add_part(parts, begun, Items::own(items))
}

/// The place of the first of these parts that ends behind this place of their items.
fn find_part(parts: &[Part], place: usize) -> usize
    requires ends { AreEnds parts.now }
    requires within { place < length (items_in parts.now) }
    ensures within { result < length parts.now }
    ensures begun { length (items_in (take result parts.now)) ≤ place }
    ensures end { place < length (items_in (take (result + 1) parts.now)) }
{
    let mut low = 0;
    let mut high = parts.len() - 1;
    while low < high {
        let middle = low + (high - low) / 2;
        if parts[middle].end <= place {
            low = middle + 1;
        } else {
            high = middle;
        }
    }
    low
}

/// The items of the part that has this place of the items of all parts, from that place on.
fn part_from(parts: &[Part], place: usize) -> &[Item]
    requires ends { AreEnds parts.now }
    requires within { place < length (items_in parts.now) }
    ensures items { result.now ≡ take (length result.now) (drop place (items_in parts.now)) }
    ensures some { 1 ≤ length result.now }
{
    let part = &parts[find_part(parts, place)];
    let items = part.items.items();
    let start = part.end - items.len();
    &items[place - start..]
}

impl ItemList {
    /// No item. It takes no memory.
    pub fn make(alloc: Global) -> ItemList
        ensures { result ≡ [] }
    {
        ItemList {
            parts: Vec::new(alloc),
            begun: 0,
            last: Vec::new(alloc),
        }
    }

    /// How many items there are.
    pub fn len(&self) -> usize
        ensures { result ≡ length self.now }
    {
        self.begun + self.last.len()
    }

    /// Items from this place on, in order: at least one, if the list has more than that many.
    #[inline]
    pub fn from(&self, place: usize) -> &[Item]
        ensures items { result.now ≡ take (length result.now) (drop place self.now) }
        ensures some { place < length self.now → 1 ≤ length result.now }
    {
        if place < self.begun {
            return part_from(&self.parts, place);
        }
        let behind = place - self.begun;
        if behind >= self.last.len() {
            return &[];
        }
        &self.last[behind..]
    }

    /// Appends an item. If memory runs out, the item is dropped and the list is as before.
    #[inline]
    pub fn push(&mut self, item: Item) -> Result<(), Memory>
        ensures ok { OnOk result (self.new ≡ self.old ++ item ∷ []) }
        ensures err { OnErr result (self.new ≡ self.old) }
    {
        self.last.reserve(1)?;
        self.last.push_reserved(item);
        Ok(())
    }

    /// Appends items, which stay where they are.
    pub fn push_part(&mut self, items: Items) -> Result<(), Memory>
        ensures { OnOk result (self.new ≡ self.old ++ items) }
    {
        self.begun = close(&mut self.parts, self.begun, &mut self.last)?;
        self.begun = add_part(&mut self.parts, self.begun, items)?;
        Ok(())
    }
}
