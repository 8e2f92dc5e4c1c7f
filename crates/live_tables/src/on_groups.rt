//! Which groups of rows are on.
ghost use Rattle.std.specs.Prelude.{◌≡◌, ◌<◌, ◌∷◌, [], ◌==◌, not, filter, false, vec_capacity, IfOk};
ghost use Rattle.std.specs.List.{slice_index_or};
ghost use Rattle.run_rules.specs.World.{has};

use cf_types::Memory;
use std::alloc::Global;
use std::marker::Model;

/// Of so many groups those that are on. Contracts see their numbers, the one that was turned on last first.
#[derive(Drop)]
pub struct OnGroups {
    /// For each group whether it is on.
    marks: Vec<bool>,
    /// Those that are on, the last one last. There is room for all.
    list: Vec<u32>,
}

impl Model for OnGroups {
    ghost use Rattle.live_tables.specs.Groups.{Switches};

    ghost Value = { Switches };

    ghost use Rattle.live_tables.specs.OnGroups.{GroupsKept, groups_view};

    ghost view = { groups_view };

    ghost invariant = { GroupsKept };
}

/// Whether a group is marked.
#[inline(always)]
fn is_marked(marks: &Vec<bool>, group: u32) -> bool
    ensures { result ≡ slice_index_or marks.now.items group false }
{
    match marks.get(group as usize) {
        Some(on) => *on,
        None => false,
    }
}

/// Takes a group out of a list.
fn take_out(list: &mut Vec<u32>, group: u32)
    ensures items { list.new.items ≡ filter (λ h. not (h == group)) list.old.items }
    ensures capacity { vec_capacity list.new ≡ vec_capacity list.old }
{
    list.retain(|other| *other != group);
}

impl OnGroups {
    /// So many groups, which are off.
    pub fn make(alloc: Global, groups: usize) -> Result<OnGroups, Memory>
        ensures { IfOk result (λ it. it ≡ record { count = groups; on = [] }) }
    {
        let list = Vec::with_capacity(alloc, groups)?;
        let marks = vec![in alloc; false; groups]?;
        Ok(OnGroups { marks, list })
    }

    /// Whether a group is on.
    #[inline(always)]
    pub fn has(&self, group: u32) -> bool
        ensures { result ≡ has self.now.on group }
    {
        is_marked(&self.marks, group)
    }

    /// Turns a group on that is off. It takes no memory.
    pub fn turn_on(&mut self, group: u32)
        requires there { group < self.old.count }
        requires off { has self.old.on group ≡ false }
        ensures { self.new ≡ record self.old { on = group ∷ self.old.on } }
    {
        self.marks[group as usize] = true;
        self.list.push_reserved(group);
    }

    /// Turns a group off. It takes no memory.
    pub fn turn_off(&mut self, group: u32)
        requires there { group < self.old.count }
        ensures { self.new ≡ record self.old { on = filter (λ h. not (h == group)) self.old.on } }
    {
        self.marks[group as usize] = false;
        take_out(&mut self.list, group);
    }
}
