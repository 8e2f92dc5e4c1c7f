//! Lists that mostly have one value.
ghost use Rattle.std.specs.Prelude.{◌≡◌, [], ◌∷◌, length};
ghost use Rattle.cf_types.specs.Few.{values_of};

use std::alloc::Global;
use std::marker::Model;

/// Where a list has its values: one stands here.
#[derive(Drop)]
enum Values<T> {
    One([T; 1]),
    Any(Vec<T>),
}

/// A list that is made at once. One value, and most such lists have no more, takes no memory of its own. Contracts see the
/// list of its values.
#[derive(Drop)]
pub struct Few<T> {
    values: Values<T>,
}

impl<T> Model for Few<T> {
    ghost use Rattle.std.specs.Prelude.{List};
    ghost use Rattle.cf_types.specs.Few.{values_of};

    ghost Value = { List T };

    ghost view = { λ it. values_of it.values };
}

impl<T> Few<T> {
    /// No value.
    #[tactic(auto, unfolding(crate::specs::Few::values_of))]
    #[inline(always)]
    pub fn none(alloc: Global) -> Few<T>
        ensures { result ≡ [] }
    {
        Few {
            values: Values::Any(Vec::new(alloc)),
        }
    }

    /// This value alone.
    #[tactic(auto, unfolding(crate::specs::Few::values_of))]
    #[inline(always)]
    pub fn one(value: T) -> Few<T>
        ensures { result ≡ value ∷ [] }
    {
        Few {
            values: Values::One([value]),
        }
    }

    /// The values of a vector.
    #[tactic(auto, unfolding(crate::specs::Few::values_of))]
    #[inline(always)]
    pub fn from_vec(values: Vec<T>) -> Few<T>
        ensures { result ≡ values.items }
    {
        Few {
            values: Values::Any(values),
        }
    }

    /// The values in order.
    #[tactic(auto, unfolding(crate::specs::Few::values_of))]
    #[inline(always)]
    pub fn items(&self) -> &[T]
        ensures { result.now ≡ self.now }
    {
        match &self.values {
            Values::One(one) => one,
            Values::Any(values) => values,
        }
    }

    /// How many values there are.
    #[inline(always)]
    pub fn len(&self) -> usize
        ensures { result ≡ length self.now }
    {
        self.items().len()
    }
}
