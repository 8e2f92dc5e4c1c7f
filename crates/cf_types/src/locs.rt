ghost use Rattle.std.specs.Prelude.{◌≡◌, ◌<◌, ◌≤◌, [], ◌∷◌, ◌++◌, length};

use arrayvec::ArrayVec;
use std::marker::Model;

/// The values of at most 16 locators, in the order of the attribute's locators. Contracts see the list of them.
#[derive(Debug, Drop)]
pub struct Locs {
    values: ArrayVec<i64, 16>,
}

impl Model for Locs {
    ghost use Rattle.std.specs.Prelude.{List, ℤ};

    ghost Value = { List ℤ };

    ghost view = { λ locs. locs.values.items };
}

impl Locs {
    /// No values. Like the two calls below it takes no memory.
    pub fn make() -> Locs
        ensures { result ≡ [] }
    {
        Locs {
            values: ArrayVec::new(),
        }
    }

    /// Appends a value to fewer than 16.
    pub fn push(&mut self, value: i64)
        requires { length self.old < 16 }
        ensures { self.new ≡ self.old ++ value ∷ [] }
    {
        self.values.push(value);
    }

    /// The values in order.
    pub fn items(&self) -> &[i64]
        ensures items { result.now ≡ self.now }
        ensures within { length self.now ≤ 16 }
    {
        self.values.as_slice()
    }
}
