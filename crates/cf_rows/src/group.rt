ghost use Rattle.std.specs.Prelude.{◌≡◌, [], ◌∷◌, ◌++◌, OnErr, OnOk};

use cf_types::{Instance, List, Memory};
use std::alloc::Global;
use std::marker::Model;

/// The instances of one unit in order. Most units have one, which needs no list. Contracts see the list of all.
#[derive(Drop)]
pub struct Group<'a> {
    first: &'a Instance,
    others: List<&'a Instance>,
}

impl<'a> Model for Group<'a> {
    ghost use Rattle.std.specs.Prelude.{◌∷◌, List as Items};
    ghost use Rattle.std.specs.Borrow.{Bor};
    ghost use Rattle.cf_types.specs.declared.instance.Instance.{Instance as Joined};

    ghost Value = { Items (Bor Joined) };

    ghost view = { λ group. group.first ∷ group.others };
}

impl<'a> Group<'a> {
    /// This instance alone.
    pub fn make(alloc: Global, first: &'a Instance) -> Group<'a>
        ensures { result ≡ first.entry ∷ [] }
    {
        Group {
            first,
            others: List::make(alloc),
        }
    }

    /// Appends an instance. If memory runs out, the group is as before.
    pub fn push(&mut self, instance: &'a Instance) -> Result<(), Memory>
        ensures ok { OnOk result (self.new ≡ self.old ++ instance.entry ∷ []) }
        ensures err { OnErr result (self.new ≡ self.old) }
    {
        self.others.push(instance)
    }

    /// Appends them to a list.
    pub fn append_to(&self, list: &mut Vec<&'a Instance>) -> Result<(), Memory>
        ensures { OnOk result (list.new.items ≡ list.old.items ++ self.now) }
    {
        list.push(self.first)?;
        list.extend_from_slice(self.others.items())?;
        Ok(())
    }
}
