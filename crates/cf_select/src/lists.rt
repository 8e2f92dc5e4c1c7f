ghost use Rattle.std.specs.Prelude.{◌≡◌, true, [], ◌∷◌, ◌++◌, if◌then◌else◌, OnOk};
ghost use Rattle.cf_select.specs.Places.{list_at};

use crate::places::Places;
use cf_types::Memory;
use std::alloc::Global;
use std::collections::HashMap;
use std::hash::Hash;

/// Removes the places of a key.
pub fn take_places<K: Eq + Hash + Drop>(
    alloc: Global,
    lists: &mut HashMap<K, Places>,
    key: &K,
) -> Places
    ensures list { result ≡ list_at K.eq lists.old key.now }
    ensures rest { (q : K) → list_at K.eq lists.new q ≡ (if K.eq key.now q then [] else list_at K.eq lists.old q) }
    ensures same { (q : K) → K.eq key.now q ≡ true → list_at K.eq lists.old q ≡ result }
{
    match lists.remove(key) {
        Some(list) => list,
        None => Places::make(alloc),
    }
}

/// Adds a place to those of a key.
pub fn push_place<K: Eq + Hash + Drop>(
    alloc: Global,
    lists: &mut HashMap<K, Places>,
    key: K,
    place: usize,
) -> Result<(), Memory>
    ensures { OnOk result ((q : K) → list_at K.eq lists.new q ≡ (if K.eq key q then list_at K.eq lists.old q ++ place ∷ [] else list_at K.eq lists.old q)) }
{
    lists.entry(key)?.or_insert(Places::make(alloc)).push(place)
}
