ghost use Rattle.std.specs.Prelude.{◌≡◌, [], ◌∷◌, ◌++◌, OnErr, OnOk};

use cf_types::Memory;
use smallvec::SmallVec;
use std::alloc::Global;
use std::marker::Model;

/// Places in order: one or two, which is enough for most keys, are kept in the list itself. Contracts see the list of
/// them.
#[derive(Drop)]
pub struct Places {
    items: SmallVec<usize, 2>,
}

impl Model for Places {
    ghost use Rattle.std.specs.Prelude.{List, ℕ};

    ghost Value = { List ℕ };

    ghost view = { λ places. places.items.items };
}

impl Places {
    /// No place. It takes no memory.
    pub fn make(alloc: Global) -> Places
        ensures { result ≡ [] }
    {
        Places {
            items: SmallVec::new(alloc),
        }
    }

    /// Appends a place. If memory runs out, the places are as before.
    pub fn push(&mut self, place: usize) -> Result<(), Memory>
        ensures ok { OnOk result (self.new ≡ self.old ++ place ∷ []) }
        ensures err { OnErr result (self.new ≡ self.old) }
    {
        self.items.push(place)?;
        Ok(())
    }

    /// The places in order.
    pub fn items(&self) -> &[usize]
        ensures { result.now ≡ self.now }
    {
        self.items.as_slice()
    }
}
