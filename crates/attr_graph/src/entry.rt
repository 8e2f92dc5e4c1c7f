ghost use Rattle.std.specs.Prelude.{◌≡◌, ◌++◌, IfOk, length};
ghost use Rattle.std.specs.Option.{option_to_list};

use smallvec::SmallVec;
use std::alloc::{AllocError, Global};
use std::marker::Model;

/// Numbers in a vector that has room for four in itself, which is enough for most attributes and devices.
pub type NumberVec = SmallVec<u32, 4>;

/// A few numbers, which mostly take no memory of their own. Contracts see the list of them.
#[derive(Drop)]
pub struct Numbers {
    items: NumberVec,
}

impl Model for Numbers {
    ghost use Rattle.std.specs.Prelude.{List, ℕ};

    ghost Value = { List ℕ };

    ghost view = { λ numbers. numbers.items.items };
}

impl Numbers {
    /// A number, if there is one, and these after it.
    pub fn behind(alloc: Global, first: Option<u32>, numbers: &[u32]) -> Result<Numbers, AllocError>
        ensures { IfOk result (λ all. all ≡ option_to_list first ++ numbers.now) }
    {
        let mut items = SmallVec::new(alloc);
        if let Some(first) = first {
            items.push(first)?;
        }
        items.extend_from_slice(numbers)?;
        Ok(Numbers { items })
    }

    /// The numbers of a vector.
    pub fn from_vec(items: NumberVec) -> Numbers
        ensures { result ≡ items.items }
    {
        Numbers { items }
    }

    /// How many numbers there are.
    pub fn len(&self) -> usize
        ensures { result ≡ length self.now }
    {
        self.items().len()
    }

    /// The numbers in order.
    pub fn items(&self) -> &[u32]
        ensures { result.now ≡ self.now }
    {
        self.items.as_slice()
    }
}

/// An attribute: whether it is an interface attribute, the attributes that it names, and its interface list.
#[derive(Drop)]
pub struct AttrEntry {
    pub iface: bool,
    pub needs: Numbers,
    pub reach: Numbers,
}

/// A device: the attributes that it names, its own first, and its interface list.
#[derive(Drop)]
pub struct DeviceEntry {
    pub names: Numbers,
    pub reach: Numbers,
}
