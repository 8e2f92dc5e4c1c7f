//! The children of each live device, listed once for a walk down the tree.
ghost use Rattle.std.specs.Prelude.{◌≡◌, ◌<◌, ◌++◌, ◌∷◌, [], ℕ, List as Items, length, slice_index_or, IfOk, OnOk};
ghost use Rattle.run_rules.specs.World as world;
ghost use Rattle.run_rules.specs.declared.world.Dev.{Dev};
ghost use Rattle.dev_tree.specs.Branching.{AreBranches, AreBranchesIn};
ghost use Rattle.dev_tree.specs.Tree.{AreInOrder};

use crate::lookup::place_of;
use crate::tree::DevTree;
use cf_types::{List, Memory};
use run_rules::Dev;
use std::alloc::Global;
use std::marker::Model;

/// The children of the root, and those of each live device. They are listed by one look at each device, and later
/// changes of the tree are not followed.
#[derive(Drop)]
pub struct Branches {
    top: List<Dev>,
    /// The children of each device, in the order of the devices.
    lists: Vec<List<Dev>>,
}

impl Model for Branches {
    ghost use Rattle.dev_tree.specs.Branching.{Branching};

    ghost Value = { Branching };

    ghost view = { λ branches. record { top = branches.top; lists = branches.lists.items } };
}

impl Branches {
    /// This many devices, none of which has children.
    fn bare(alloc: Global, devices: usize) -> Result<Branches, Memory>
        ensures { IfOk result (λ b. (live : Items Dev) → length live ≡ devices → AreBranchesIn live [] b) }
    {
        let mut lists = Vec::with_capacity(alloc, devices)?;
        for _device in 0..devices {
            lists.push(List::make(alloc))?;
        }
        Ok(Branches {
            top: List::make(alloc),
            lists,
        })
    }

    /// Lists one more device with its parent.
    fn put(&mut self, live: &[Dev], device: Dev) -> Result<(), Memory>
        requires order { AreInOrder live.now }
        requires count { length self.old.lists ≡ length live.now }
        ensures { (listed : Items Dev) → AreBranchesIn live.now listed self.old → OnOk result (AreBranchesIn live.now (listed ++ device ∷ []) self.new) }
    {
        if device.parent == 0 {
            return self.top.push(device);
        }
        match place_of(live, device.parent) {
            Some(place) => {
                self.lists[place].push(device)?;
                Ok(())
            }
            None => Ok(()),
        }
    }

    /// The children of the devices of a tree.
    pub fn of(alloc: Global, tree: &DevTree) -> Result<Branches, Memory>
        ensures { IfOk result (AreBranches tree.now.live) }
    {
        tree.stands();
        let live = tree.devices();
        let mut branches = Branches::bare(alloc, live.len())?;
        for device in live {
            branches.put(live, *device)?;
        }
        Ok(branches)
    }

    /// The children of a device, or of the root for 0, by serial. See drvctl(8).
    pub fn below(&self, tree: &DevTree, serial: u64) -> &[Dev]
        requires { AreBranches tree.now.live self.now }
        ensures { result.now ≡ world.children tree.now.live serial }
    {
        tree.stands();
        if serial == 0 {
            return self.top.items();
        }
        match place_of(tree.devices(), serial) {
            Some(place) => self.lists[place].items(),
            None => &[],
        }
    }
}
