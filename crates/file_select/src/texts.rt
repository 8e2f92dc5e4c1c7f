ghost use Rattle.std.specs.Prelude.{◌≡◌, not, [], All, IfOk, OnErr, OnOk};
ghost use Rattle.config_rules.specs.Select.{has_name};
ghost use Rattle.file_select.specs.Texts.{IsShort, with_text};

use cf_types::{List, Memory, Name};
use std::alloc::Global;
use std::collections::BTreeSet;
use std::marker::Model;

/// Texts in the order of their bytes, each once. Contracts see the list of them.
#[derive(Drop)]
pub struct TextSet {
    texts: BTreeSet<Vec<u8>>,
}

impl Model for TextSet {
    ghost use Rattle.std.specs.Prelude.{List as Items, ℕ};
    ghost use Rattle.file_select.specs.Texts.{texts_in};

    ghost Value = { Items (Items ℕ) };

    ghost view = { λ it. texts_in it.texts };
}

impl TextSet {
    ghost use Rattle.std.specs.Cmp.Lexicographic.{slice_cmp};
    ghost use Rattle.std.specs.List.Sorted.{IsStrictlySortedBy};
    ghost use Rattle.std.specs.Ordering.{nat_cmp};

    /// No text.
    pub fn make(alloc: Global) -> TextSet
        ensures { result ≡ [] }
    {
        TextSet {
            texts: BTreeSet::new(alloc),
        }
    }

    /// Adds a text, and returns whether it is new. If memory runs out, the texts are as before.
    pub fn insert(&mut self, alloc: Global, text: &[u8]) -> Result<bool, Memory>
        ensures err { OnErr result (self.new ≡ self.old) }
        ensures texts { OnOk result (self.new ≡ with_text self.old text.now) }
        ensures short { OnOk result (IsShort text.now → All IsShort self.old → All IsShort self.new) }
        ensures added { IfOk result (λ added. added ≡ not (has_name self.old text.now)) }
    {
        let key = Vec::from_slice(alloc, text)?;
        let added = self.texts.insert(key)?;
        Ok(added)
    }

    /// Whether a text is one of them.
    pub fn contains(&self, text: &[u8]) -> bool
        ensures { result ≡ has_name self.now text.now }
    {
        self.texts.contains(text)
    }

    /// The texts as names.
    pub fn into_names(self, alloc: Global) -> Result<List<Name>, Memory>
        requires { All IsShort self }
        ensures same { IfOk result (λ names. names ≡ self) }
        ensures ordered { OnOk result (IsStrictlySortedBy (slice_cmp nat_cmp) self) }
    {
        let TextSet { mut texts } = self;
        let mut names = Vec::with_capacity(alloc, texts.len())?;
        while let Some(text) = texts.pop_first() {
            names.push(Name::make(alloc, &text)?)?;
        }
        Ok(List::from_vec(names))
    }
}
