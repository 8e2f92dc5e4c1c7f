//! A run between two of its events.
ghost use Rattle.std.specs.Prelude.{◌≡◌, ◌≤◌, ◌<◌, IfSome, IsTrue, length, option_copied};
ghost use Rattle.run_rules.specs.Next as next;
ghost use Rattle.run_rules.specs.World as world;
ghost use Rattle.run_world.specs.Going.{GoesOn};
ghost use Rattle.run_world.specs.Input.{Bounded};
ghost use Rattle.run_world.specs.Recent.{act_telling, name_called};
ghost use Rattle.run_world.specs.View.{caller_of};

use crate::activity::is_ended;
use crate::caller::CallerState;
use crate::held::Held;
use crate::named::device_named;
use crate::recent::{Called, Telling};
use crate::script::command_of;
use cf_types::{Command, Name};
use dev_tree::DevTree;
use ref_ledger::Refs;
use run_rules::{Act, Dev, Setup, SharedAct};
use std::alloc::Global;
use std::marker::Model;

/// The world of a run between two events. Contracts see the world. Each value keeps that a run may go by its setup, and that the
/// world is sound and in its ranges.
#[derive(Drop)]
pub struct Going {
    pub held: Held,
}

impl Model for Going {
    ghost use Rattle.run_rules.specs.World.{World};
    ghost use Rattle.run_world.specs.Going.{GoesOn};

    ghost Value = { World };

    ghost view = { λ going. going.held };

    ghost invariant = { λ going. GoesOn going.held };
}

impl Going {
    /// What each of them keeps. It does nothing.
    #[inline(always)]
    pub fn stands(&self)
        ensures goes_on { GoesOn self.now }
        ensures bounded { Bounded self.now.setup }
    {
        let _ = &self.held;
    }

    /// By what memory is asked for.
    #[inline(always)]
    pub fn alloc(&self) -> Global {
        let held = &self.held;
        held.site.alloc
    }

    /// The tables, the machine and the scripts.
    #[inline(always)]
    pub fn setup(&self) -> &Setup
        ensures { result.now ≡ self.now.setup }
    {
        let held = &self.held;
        &held.site.setup
    }

    /// The live devices, as a tree.
    #[inline(always)]
    pub fn tree(&self) -> &DevTree
        ensures { result.now.live ≡ self.now.live }
    {
        let held = &self.held;
        &held.core.tree
    }

    /// The live devices, in the order in which they were attached.
    #[inline(always)]
    pub fn devices(&self) -> &[Dev]
        ensures { result.now ≡ self.now.live }
    {
        let held = &self.held;
        held.core.tree.devices()
    }

    /// The live device of a serial.
    #[inline(always)]
    pub fn device(&self, serial: u64) -> Option<Dev>
        ensures found { result ≡ world.device_at self.now.live serial }
        ensures row { IfSome result (λ d. d.row < length self.now.setup.tables.rows) }
    {
        let held = &self.held;
        held.core.tree.get(serial)
    }

    /// How many devices are live.
    #[inline(always)]
    pub fn count(&self) -> u32
        ensures count { result ≡ length self.now.live }
        ensures few { result ≤ 1024 }
    {
        let held = &self.held;
        held.core.tree.count() as u32
    }

    /// The live device of a name.
    #[inline(always)]
    pub fn named(&self, name: &[u8]) -> Option<Dev>
        ensures found { world.device_named self.now.setup self.now.live name.now ≡ result }
        ensures live { IfSome result (λ d. IsTrue (world.is_live self.now.live d.serial)) }
        ensures row { IfSome result (λ d. d.row < length self.now.setup.tables.rows) }
    {
        let held = &self.held;
        device_named(&held.site.setup, &held.core, name)
    }

    /// The references.
    #[inline(always)]
    pub fn refs(&self) -> &Refs
        ensures refs { result.now.refs ≡ self.now.refs }
        ensures sole { result.now.sole ≡ self.now.sole }
    {
        let held = &self.held;
        &held.core.refs
    }

    /// A caller.
    #[inline(always)]
    pub fn caller(&self, caller: u8) -> &CallerState
        requires { caller < length self.now.callers }
        ensures state { caller_of result.now ≡ world.caller_at self.now caller }
        ensures low { result.now.over ≤ 500 }
    {
        let held = &self.held;
        &held.core.callers[caller as usize]
    }

    /// Whether a caller has ended.
    #[inline(always)]
    pub fn has_ended(&self, caller: u8) -> bool
        requires { caller < length self.now.callers }
        ensures { result ≡ world.has_ended self.now caller }
    {
        let held = &self.held;
        is_ended(&held.core, caller)
    }

    /// The command that a caller is at; none if its script is over.
    #[inline(always)]
    pub fn command(&self, caller: u8) -> Option<&Command>
        requires { caller < length self.now.callers }
        ensures { next.command_of self.now caller ≡ option_copied result }
    {
        let held = &self.held;
        command_of(&held.site.setup, &held.core, caller)
    }

    /// The name of the device on a spot that is called so, if it is kept.
    #[inline(always)]
    pub fn kept_name(&self, of: Called, spot: u16) -> Option<&Name>
        ensures { IfSome result (λ n. n.now ≡ name_called self.now.setup of) }
    {
        let held = &self.held;
        held.core.recent.name(of, spot)
    }

    /// Keeps the name of a device that is called so, for the spot on which it is.
    #[inline(always)]
    pub fn keep_name(&mut self, of: Called, spot: u16, name: Name)
        requires { name ≡ name_called self.old.setup of }
        ensures { self.new ≡ self.old }
    {
        let held = &mut self.held;
        held.core.recent.keep_name(of, spot, name);
    }

    /// The act that says this about a spot, or about the device there, if it is kept.
    #[inline(always)]
    pub fn kept_act(&self, telling: Telling, spot: u16) -> Option<&SharedAct>
        ensures { IfSome result (λ a. a.now ≡ act_telling self.now.setup telling) }
    {
        let held = &self.held;
        held.core.recent.act(telling, spot)
    }

    /// Keeps an act that says this about a spot, or about the device there.
    #[inline(always)]
    pub fn keep_act(&mut self, telling: Telling, spot: u16, act: SharedAct)
        requires { act ≡ act_telling self.old.setup telling }
        ensures { self.new ≡ self.old }
    {
        let held = &mut self.held;
        held.core.recent.keep_act(telling, spot, act);
    }

    /// The act of the tree last printed, if it is this tree.
    #[inline(always)]
    pub fn kept_tree(&self, tree: &Act) -> Option<&SharedAct>
        ensures { IfSome result (λ a. a.now ≡ tree.now) }
    {
        let held = &self.held;
        held.core.recent.tree(tree)
    }

    /// Keeps the act of a tree.
    #[inline(always)]
    pub fn keep_tree(&mut self, tree: SharedAct)
        ensures { self.new ≡ self.old }
    {
        let held = &mut self.held;
        held.core.recent.keep_tree(tree);
    }
}
