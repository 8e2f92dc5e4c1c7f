//! The board, and what it answers.
ghost use Rattle.std.specs.Prelude.{◌≡◌, ◌<◌, ◌≤◌, ◌+◌, ◌^◌, ◌-◌, [], All, IfOk, Some, None, length, min, slice_get};
ghost use Rattle.std.specs.List.{AllByRecursion};
ghost use Rattle.std.specs.Option.{option_or};
ghost use Rattle.attr_graph.specs.Graphs.{IsGraphOf, declared_by};
ghost use Rattle.config_rules.specs.Formed.{FormedTables, FittingMachine};
ghost use Rattle.config_rules.specs.ScriptText.{FormedScript};
ghost use Rattle.boot_laws.specs.Thorough.{IsThorough};
ghost use Rattle.history_laws.specs.Reliable.{IsReliable};
ghost use Rattle.history_laws.specs.Tells.{TellsTree};
ghost use Rattle.run_rules.specs.Counts.{ends_of};
ghost use Rattle.run_rules.specs.Laws.{Lawful};
ghost use Rattle.run_rules.specs.Lines.{IsFormed};
ghost use Rattle.run_rules.specs.Run.{Run};
ghost use Rattle.run_rules.specs.Search as search;
ghost use Rattle.run_rules.specs.Sound.{Sound, HaveOwnNames};
ghost use Rattle.run_rules.specs.Tree as tree;
ghost use Rattle.run_rules.specs.World.{opening, setup_of};
ghost use Rattle.deed_effect.specs.Agreement.{slots_of};
ghost use Rattle.run_sound.specs.Kept.{MayRun};
ghost use Rattle.run_sound.specs.Left.{boot_left};
ghost use Rattle.run_world.specs.Scripted.{FormedScripts};
ghost use Rattle.dev_board.specs.Posting.{PostIs};
ghost use Rattle.dev_board.specs.Shown.{began};
ghost use Rattle.dev_board.specs.Stepping.{StepIs, IsDid, IsOfBoot, DenialsAre};
ghost use Rattle.dev_board.specs.Waiting.{StandsSo};
ghost use Rattle.wait_lines.specs.Waits.{wait_lines};

use crate::board_state::BoardState;
use crate::closed::closed_in;
use crate::io_result::IoResult;
use crate::post::post_state;
use crate::posted::Posted;
use crate::step::step_state;
use crate::stepped::Stepped;
use crate::waiting::{Outlook, how_it_stands, lines_of};
use attr_graph::Graph;
use cf_tables::Compiled;
use cf_types::{DevLine, List, Machine, Memory, Script, Tables, Text};
use ref_ledger::Slots;
use run_rules::Event;
use run_world::{Going, Held, Site, is_occupied, opening_core};
use std::alloc::Global;
use std::marker::Model;
use std::mem::drop;
use told_names::tree_of;

/// A machine that runs: a world, and the history of the events that led to it. Each value of this type keeps that the
/// history is a run from the opening world to the world, and that this world is sound.
#[derive(Drop)]
pub struct Board {
    state: BoardState,
}

impl Model for Board {
    ghost use Rattle.dev_board.specs.Shown.{Shown};
    ghost use Rattle.dev_board.specs.BoardView.{board_view, board_kept};

    ghost Value = { Shown };

    ghost view = { board_view };

    ghost invariant = { board_kept };
}

impl Board {
    /// The board before any event, for formed tables, a machine that fits them, and at most 16 formed scripts of
    /// drvctl(8) commands.
    pub fn start(
        alloc: Global,
        tables: Compiled,
        machine: Machine,
        scripts: List<Script>,
    ) -> Result<Board, Memory>
        requires tables { FormedTables tables }
        requires machine { FittingMachine tables machine }
        requires few_scripts { length scripts ≤ 16 }
        requires scripts { All FormedScript scripts }
        ensures world { IfOk result (λ b. b.world ≡ opening (setup_of tables machine scripts)) }
        ensures events { IfOk result (λ b. b.events ≡ []) }
        ensures stops { IfOk result (λ b. (b.stops ≡ 0) × (b.stopped ≡ None)) }
    {
        match Site::make(alloc, tables, machine, scripts) {
            Ok(site) => Board::on_site(site),
            Err(_) => Err(Memory),
        }
    }

    /// The board of this site before any event.
    fn on_site(site: Site) -> Result<Board, Memory>
        requires may { MayRun site.setup }
        requires scripts { FormedScripts site.setup }
        ensures world { IfOk result (λ b. b.world ≡ opening site.setup) }
        ensures events { IfOk result (λ b. b.events ≡ []) }
        ensures stops { IfOk result (λ b. (b.stops ≡ 0) × (b.stopped ≡ None)) }
    {
        let alloc = site.alloc;
        match opening_core(alloc, &site.setup) {
            Ok(core) => {
                let held = Held { site, core };
                let state = BoardState {
                    going: Going { held },
                    events: Vec::new(alloc),
                    stops: 0,
                    stopped: None,
                };
                Ok(Board { state })
            }
            Err(_) => {
                drop(site);
                Err(Memory)
            }
        }
    }

    /// One step of a caller: the one event that it does next, or nothing. See autoconf(9) for what a boot does, drvctl(8) for scripts.
    #[inline(always)]
    pub fn step<S: Slots>(&mut self, caller: u8, slots: &mut S) -> Stepped
        requires caller { caller ≤ length self.old.world.setup.scripts }
        requires agree { S.states slots.old ≡ slots_of self.old.world }
        ensures step { StepIs self.old caller result self.new }
        ensures agree { S.states slots.new ≡ slots_of self.new.world }
        ensures boot { caller ≡ 0 → IsOfBoot result }
        ensures denials { DenialsAre self.old.world.live
            (S.denials slots.old) (S.last_denial slots.old) result (S.denials slots.new) (S.last_denial slots.new) }
        ensures began { began self.new ≡ began self.old }
        ensures lawful { Lawful self.new.events }
        ensures falls { IsDid result → caller ≡ 0 → boot_left self.new.world < boot_left self.old.world }
    {
        let stepped = step_state(&mut self.state, caller, slots);
        self.stands();
        stepped
    }

    /// Hands in the result of a transfer: the transfer ends by it, or nothing changes. The result is spent in either
    /// case.
    pub fn post(&mut self, done: IoResult) -> Posted
        ensures post { PostIs self.old done result self.new }
        ensures slots { slots_of self.new.world ≡ slots_of self.old.world }
        ensures began { began self.new ≡ began self.old }
        ensures lawful { Lawful self.new.events }
    {
        let posted = post_state(&mut self.state, done.spend());
        self.stands();
        posted
    }

    /// Stops the board on behalf of a caller. Each later step returns `Stopped`, and nothing else changes; a later stop
    /// has no effect.
    pub fn stop(&mut self, caller: u8)
        ensures world { self.new.world ≡ self.old.world }
        ensures events { self.new.events ≡ self.old.events }
        ensures began { began self.new ≡ began self.old }
        ensures stops { self.new.stops ≡ min (self.old.stops + 1) (2 ^ 64 - 1) }
        ensures stopped { self.new.stopped ≡ option_or self.old.stopped (Some caller) }
    {
        self.state.stops = self.state.stops.saturating_add(1);
        if self.state.stopped.is_none() {
            self.state.stopped = Some(caller);
        }
    }

    /// The facts that every board keeps. It does nothing.
    #[inline(always)]
    pub fn stands(&self)
        ensures run { Run (began self.now) self.now.events self.now.world }
        ensures sound { Sound self.now.world }
        ensures names { HaveOwnNames self.now.world.setup self.now.world.live }
        ensures serials { self.now.world.next ≤ length self.now.events + 1 }
        ensures formed { AllByRecursion IsFormed self.now.events }
        ensures reliable { IsReliable self.now.events self.now.world }
        ensures thorough { IsThorough self.now.events self.now.world }
        ensures spots { AllByRecursion (λ d. d.spot < length self.now.world.setup.machine.spots) self.now.world.live }
        ensures scripts { length self.now.world.setup.scripts ≤ 16 }
        ensures may { MayRun self.now.world.setup }
    {
        let state = &self.state;
        state.going.stands();
    }

    /// Makes room for this many more events, if there is memory for them all, so that none of them asks for memory.
    /// Nothing that the board shows changes.
    pub(crate) fn make_room(&mut self, more: usize)
        ensures { self.new ≡ self.old }
    {
        let _ = self.state.events.reserve(more);
    }

    /// How many events there were.
    #[inline(always)]
    pub fn events(&self) -> u64
        ensures { result ≡ length self.now.events }
    {
        self.state.events.len() as u64
    }

    /// The event at a place, counted from 0.
    #[inline(always)]
    pub fn event(&self, place: u64) -> &Event
        requires { place < length self.now.events }
        ensures { slice_get self.now.events place ≡ Some result.now }
    {
        &self.state.events[place as usize]
    }

    /// How many scripts have ended.
    pub fn closed_scripts(&self) -> u64
        ensures { result ≡ ends_of self.now.events }
    {
        closed_in(&self.state.events)
    }

    /// Whether a live device is on a spot.
    pub fn occupied(&self, slot: u16) -> bool
        requires { slot < length self.now.world.setup.machine.spots }
        ensures { result ≡ search.is_occupied self.now.world.live slot }
    {
        is_occupied(self.state.going.tree(), slot)
    }

    /// The lines of the device tree, depth first, children by serial. See drvctl(8).
    pub fn tree_lines(&self) -> Result<List<DevLine>, Memory>
        ensures lines { IfOk result (λ lines. lines ≡ tree.tree_lines self.now.world) }
        ensures told { IfOk result (λ lines. TellsTree self.now.events lines) }
    {
        self.state.going.stands();
        tree_of(&self.state.going)
    }

    /// Whether any caller goes on, or some wait for good, or all have ended.
    #[inline(always)]
    pub fn standing(&self) -> Result<Outlook, Memory>
        ensures { IfOk result (λ how. StandsSo how self.now.world) }
    {
        how_it_stands(&self.state.going)
    }

    /// Who waits until nobody holds a device, and who holds it: a line for each such caller, in their order.
    pub fn wait_lines(&self) -> Result<List<Text>, Memory>
        ensures { IfOk result (λ lines. lines ≡ wait_lines self.now.world) }
    {
        lines_of(&self.state.going)
    }

    /// The tables of the run.
    #[inline(always)]
    pub fn tables(&self) -> &Tables
        ensures { result.now ≡ self.now.world.setup.tables }
    {
        &self.state.going.setup().tables
    }

    /// The graph of the tables of the run.
    #[inline(always)]
    pub fn graph(&self) -> &Graph
        ensures { IsGraphOf (declared_by self.now.world.setup.tables) result.now }
    {
        let going = &self.state.going;
        let held = &going.held;
        &held.site.graph
    }

    /// How many spots the machine has.
    #[inline(always)]
    pub fn spots(&self) -> u16
        ensures { result ≡ length self.now.world.setup.machine.spots }
    {
        let going = &self.state.going;
        going.stands();
        going.setup().machine.spots.len() as u16
    }

    /// How many scripts there are; their callers are 1, 2 and so on.
    #[inline(always)]
    pub fn callers(&self) -> u8
        ensures { result ≡ length self.now.world.setup.scripts }
    {
        let going = &self.state.going;
        going.stands();
        going.setup().scripts.len() as u8
    }
}
