//! What a statement has many of, which other statements may share.
ghost use Rattle.std.specs.Prelude.{◌≡◌, IfOk, IfSome, IsTrue};
ghost use Rattle.std.specs.Arc.{arc_value};

use crate::{Item, List, Memory, PieceList, PieceView};
use std::alloc::Global;
use std::marker::Model;
use std::sync::Arc;

/// A value of one owner, or of several.
#[derive(Drop)]
enum Owner<T> {
    Own(T),
    Shared(Arc<T>),
}

/// What one statement has, or several that have the same share. Contracts see the value.
#[derive(Drop)]
pub struct Held<T> {
    owner: Owner<T>,
}

/// The tokens of a statement. Statements that have the same may share them. Contracts see the list of the tokens.
pub type Pieces = Held<PieceList>;

/// The items of a statement. Statements that have the same may share them. Contracts see the list of the items.
pub type Items = Held<List<Item>>;

impl<T> Model for Held<T> {
    ghost use Rattle.cf_types.specs.Held.{value_of};

    ghost Value = { T };

    ghost view = { λ it. value_of it.owner };
}

impl<T: Drop> Held<T> {
    /// This value, which no other statement shares.
    #[tactic(auto, unfolding(crate::specs::Held::value_of))]
    #[inline(always)]
    pub fn own(value: T) -> Held<T>
        ensures { result ≡ value }
    {
        Held {
            owner: Owner::Own(value),
        }
    }

    /// This value, shared with all who have it.
    #[tactic(auto, unfolding(crate::specs::Held::value_of))]
    pub fn shared(value: Arc<T>) -> Held<T>
        ensures { result ≡ arc_value value }
    {
        Held {
            owner: Owner::Shared(value),
        }
    }

    /// The value.
    #[tactic(auto, unfolding(crate::specs::Held::value_of))]
    #[inline(always)]
    pub fn value(&self) -> &T
        ensures { result.now ≡ self.now }
    {
        match &self.owner {
            Owner::Own(value) => value,
            Owner::Shared(value) => value,
        }
    }

    /// The same for a further owner, if it is shared.
    #[tactic(auto, unfolding(crate::specs::Held::value_of))]
    pub fn again(&self) -> Result<Option<Held<T>>, Memory>
        ensures { IfOk result (λ found. IfSome found (λ held. held ≡ self.now)) }
    {
        match &self.owner {
            Owner::Own(_) => Ok(None),
            Owner::Shared(value) => Ok(Some(Held::shared(value.clone()?))),
        }
    }
}

impl Held<PieceList> {
    /// The tokens where they stand. The only error is `Memory`.
    pub fn views(&self, alloc: Global) -> Result<Vec<PieceView<'_>>, Memory>
        ensures { IfOk result (λ views. views.items ≡ self.now) }
    {
        self.value().views(alloc)
    }

    /// Whether these are the same tokens, in texts that are the same, too.
    pub fn is_same(&self, other: &Pieces) -> bool
        ensures { IsTrue result → self.now ≡ other.now }
    {
        self.value().is_same(other.value())
    }
}

impl Held<List<Item>> {
    /// The items.
    #[inline(always)]
    pub fn items(&self) -> &[Item]
        ensures { result.now ≡ self.now }
    {
        self.value().items()
    }
}
