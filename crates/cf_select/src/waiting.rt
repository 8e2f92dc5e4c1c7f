//! The places of instances by what they wait for, and which attributes nobody waits for.
ghost use Rattle.std.specs.Prelude.{◌≡◌, true, [], if◌then◌else◌};
ghost use Rattle.std.specs.List.{slice_index_or};
ghost use Rattle.cf_select.specs.Places.{list_at};
ghost use Rattle.cf_select.specs.Wanted.{AreNoted};

use crate::lists::take_places;
use crate::places::Places;
use crate::want::Want;
use std::alloc::Global;
use std::collections::HashMap;

/// Lists of places by what the instances there wait for. Nobody waits for an attribute that is not noted.
#[derive(Drop)]
pub struct Waiting {
    pub lists: HashMap<Want, Places>,
    pub noted: Vec<bool>,
    pub ghost known: { AreNoted lists noted.items },
}

impl Waiting {
    ghost use Rattle.std.specs.Prelude.{false};
    ghost use Rattle.cf_select.specs.contracts.want.WantPartialEq.TheImpl as block;

    /// Whether an attribute is noted.
    pub fn is_noted(&self, attr: u32) -> bool
        ensures { result ≡ slice_index_or self.now.noted.items attr false }
    {
        match self.noted.get(attr as usize) {
            Some(noted) => *noted,
            None => false,
        }
    }

    /// Removes the places of those that wait for this.
    pub fn take(&mut self, alloc: Global, want: &Want) -> Places
        ensures list { result ≡ list_at block.ghosts.eq self.old.lists want.now }
        ensures rest { (q : Want) → list_at block.ghosts.eq self.new.lists q
            ≡ (if block.ghosts.eq want.now q then [] else list_at block.ghosts.eq self.old.lists q) }
        ensures same { (q : Want) → block.ghosts.eq want.now q ≡ true → list_at block.ghosts.eq self.old.lists q ≡ result }
    {
        take_places(alloc, &mut self.lists, want)
    }
}
