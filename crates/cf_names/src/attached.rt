ghost use Rattle.std.specs.Prelude.{◌≡◌, [], ◌∷◌, ◌++◌, OnOk};

use cf_types::Memory;
use smallvec::SmallVec;
use std::alloc::Global;
use std::marker::Model;

/// The numbers of a device's attachments in order: one or two, which is enough for most devices, are kept in the list
/// itself. Contracts see the list of them.
#[derive(Drop)]
pub struct Attached {
    numbers: SmallVec<usize, 2>,
}

impl Model for Attached {
    ghost use Rattle.std.specs.Prelude.{List, ℕ};

    ghost Value = { List ℕ };

    ghost view = { λ attached. attached.numbers.items };
}

impl Attached {
    /// No number. It takes no memory.
    pub fn make(alloc: Global) -> Attached
        ensures { result ≡ [] }
    {
        Attached {
            numbers: SmallVec::new(alloc),
        }
    }

    /// Appends a number.
    pub fn push(&mut self, number: usize) -> Result<(), Memory>
        ensures { OnOk result (self.new ≡ self.old ++ number ∷ []) }
    {
        self.numbers.push(number)?;
        Ok(())
    }

    /// The numbers in order.
    pub fn items(&self) -> &[usize]
        ensures { result.now ≡ self.now }
    {
        self.numbers.as_slice()
    }
}
