//! What is kept of past events, so that later events share it.
ghost use Rattle.std.specs.Prelude.{◌≡◌, ◌≤◌, true, IfOk, IfSome, None};
ghost use Rattle.std.specs.List.{AllByRecursion};
ghost use Rattle.run_rules.specs.declared.world.Setup.{Setup};
ghost use Rattle.run_world.specs.Recent.{AreRecent, act_telling, called, name_called};

use crate::same_tree::tell_one_tree;
use cf_types::{Memory, Name};
use run_rules::{Act, Dev, SharedAct};
use std::alloc::Global;

/// How a device is called: by the driver of a row, and a unit.
#[derive(Clone, Copy)]
pub struct Called {
    pub row: u32,
    pub unit: u32,
}

impl Called {
    /// How this device is called.
    #[inline(always)]
    pub fn of(device: &Dev) -> Called
        ensures { result ≡ called device.now }
    {
        Called {
            row: device.row,
            unit: device.unit,
        }
    }
}

/// What an act that comes again and again says: that a search below a device, or below the root, found nothing, or that
/// a device fell asleep or woke.
#[derive(Clone, Copy)]
pub enum Telling {
    NothingFound { parent: Option<Called>, spot: u16 },
    Sleeps(Called),
    Wakes(Called),
}

/// An act, with what it says.
#[derive(Drop)]
struct KeptAct {
    telling: Telling,
    act: SharedAct,
}

/// The name of a device, with how it is called.
#[derive(Drop)]
struct KeptName {
    of: Called,
    name: Name,
}

/// The acts and names last printed for each spot, and the tree last printed, so that they need not be made again;
/// whoever asks says what for.
#[derive(Drop)]
pub struct Recent {
    acts: Vec<Option<KeptAct>>,
    names: Vec<Option<KeptName>>,
    tree: Option<SharedAct>,
}

/// How many acts are kept of a spot: one for each kind of `Telling`.
const KINDS: usize = 3;

/// Whether two devices are called alike.
#[inline(always)]
fn are_alike(a: Called, b: Called) -> bool
    ensures { result ≡ true → a ≡ b }
{
    a.row == b.row && a.unit == b.unit
}

/// Whether two acts say the same.
#[inline(always)]
fn tell_the_same(a: Telling, b: Telling) -> bool
    ensures { result ≡ true → a ≡ b }
{
    match (a, b) {
        (
            Telling::NothingFound {
                parent: Some(one),
                spot,
            },
            Telling::NothingFound {
                parent: Some(other),
                spot: again,
            },
        ) => are_alike(one, other) && spot == again,
        (
            Telling::NothingFound { parent: None, spot },
            Telling::NothingFound {
                parent: None,
                spot: again,
            },
        ) => spot == again,
        (Telling::Sleeps(one), Telling::Sleeps(other)) => are_alike(one, other),
        (Telling::Wakes(one), Telling::Wakes(other)) => are_alike(one, other),
        _ => false,
    }
}

/// Where an act is kept that says this about one of so many spots, or about the device there. Acts of a kind are side
/// by side, because spots are searched one after the other.
#[inline(always)]
fn place_of(telling: &Telling, spot: u16, spots: usize) -> usize {
    let kind = match telling {
        Telling::NothingFound { .. } => 0,
        Telling::Sleeps(_) => 1,
        Telling::Wakes(_) => 2,
    };
    kind * spots.min(u16::MAX as usize) + spot as usize
}

/// This many places, in which nothing is kept.
fn empty<T: Drop>(alloc: Global, places: usize) -> Result<Vec<Option<T>>, Memory>
    ensures { IfOk result (λ kept. AllByRecursion (λ place. place ≡ None) kept.items) }
{
    let mut kept = Vec::with_capacity(alloc, places)?;
    for _place in 0..places {
        kept.push_reserved(None);
    }
    Ok(kept)
}

impl Recent {
    /// Room for what will be printed about this many spots; nothing has been printed.
    pub fn make(alloc: Global, spots: usize) -> Result<Recent, Memory>
        requires { spots ≤ 1024 }
        ensures { (s : Setup) → IfOk result (AreRecent s) }
    {
        let acts = empty(alloc, KINDS * spots)?;
        let names = empty(alloc, spots)?;
        Ok(Recent {
            acts,
            names,
            tree: None,
        })
    }

    /// The act that says this about a spot, or about the device there, if it is kept.
    #[inline(always)]
    pub fn act(&self, telling: Telling, spot: u16) -> Option<&SharedAct>
        ensures { (s : Setup) → AreRecent s self.now → IfSome result (λ a. a.now ≡ act_telling s telling) }
    {
        match self.acts.get(place_of(&telling, spot, self.names.len())) {
            Some(Some(kept)) if tell_the_same(kept.telling, telling) => Some(&kept.act),
            _ => None,
        }
    }

    /// Keeps an act that says this about a spot, or about the device there.
    #[inline(always)]
    pub fn keep_act(&mut self, telling: Telling, spot: u16, act: SharedAct)
        ensures { (s : Setup) → AreRecent s self.old → act ≡ act_telling s telling → AreRecent s self.new }
    {
        let place = place_of(&telling, spot, self.names.len());
        if place < self.acts.len() {
            self.acts[place] = Some(KeptAct { telling, act });
        }
    }

    /// The name of the device on a spot that is called so, if it is kept.
    #[inline(always)]
    pub fn name(&self, of: Called, spot: u16) -> Option<&Name>
        ensures { (s : Setup) → AreRecent s self.now → IfSome result (λ n. n.now ≡ name_called s of) }
    {
        match self.names.get(spot as usize) {
            Some(Some(kept)) if are_alike(kept.of, of) => Some(&kept.name),
            _ => None,
        }
    }

    /// Keeps the name of a device that is called so, for the spot on which it is.
    #[inline(always)]
    pub fn keep_name(&mut self, of: Called, spot: u16, name: Name)
        ensures { (s : Setup) → AreRecent s self.old → name ≡ name_called s of → AreRecent s self.new }
    {
        let place = spot as usize;
        if place < self.names.len() {
            self.names[place] = Some(KeptName { of, name });
        }
    }

    /// The act of the tree last printed, if it is this tree.
    #[inline(always)]
    pub fn tree(&self, tree: &Act) -> Option<&SharedAct>
        ensures { IfSome result (λ a. a.now ≡ tree.now) }
    {
        match &self.tree {
            Some(kept) if tell_one_tree(kept.get(), tree) => Some(kept),
            _ => None,
        }
    }

    /// Keeps the act of a tree.
    #[inline(always)]
    pub fn keep_tree(&mut self, tree: SharedAct)
        ensures { (s : Setup) → AreRecent s self.old → AreRecent s self.new }
    {
        self.tree = Some(tree);
    }
}
