ghost use Rattle.std.specs.Prelude.{◌≡◌, ◌≤◌, [], All, IfOk, length};
ghost use Rattle.config_rules.specs.Formed.{FittingMachine, FormedTables};
ghost use Rattle.config_rules.specs.ScriptText.{FormedScript};
ghost use Rattle.run_rules.specs.Laws.{Lawful};
ghost use Rattle.run_rules.specs.Reread as rule;
ghost use Rattle.run_rules.specs.World.{setup_of};
ghost use Rattle.plain_world.specs.Plain.{world_of};
ghost use Rattle.history_replay.specs.Going.{IsGoing};
ghost use Rattle.history_laws.specs.Tells.{TellsTree};
ghost use Rattle.history_replay.specs.Stops.{IsReliableTree, IsReplay, Replays, Rereads};

use crate::reader::read_history;
use attr_graph::graph_of;
use cf_tables::Compiled;
use cf_types::{DevLine, List, Machine, Script, Tables};
use plain_names::tree_lines;
use plain_world::{Plain, Rules, opening, stretches_of};
use run_rules::Event;
use std::alloc::Global;
use thiserror::Error;

/// What a history says: its events, and the device tree after them.
#[derive(Drop)]
pub struct Replayed {
    pub events: List<Event>,
    pub tree: List<DevLine>,
}

/// Why a history is not accepted.
#[derive(Clone, Copy, Debug, PartialEq, Eq, Error)]
pub enum ReplayStop {
    /// The first bad line, counted from 1: it is not the line of the event that its caller does next. Line 0 if there
    /// is no line `history 1` or `history 2`; one more than there are lines if no line `tree` follows.
    #[error("line {line}: refused")]
    Bad { line: u64 },
    /// Memory ran out.
    #[error("out of memory")]
    Memory,
}

/// Reads a history of either format, from its head up to the next line `tree`, beside tables, a machine that fits them
/// and at most 16 formed scripts: each line must be that of the event that its caller does next. It returns the events
/// and the device tree that they lead to, or the first bad line. The events that it returns are lawful.
pub fn reread(
    alloc: Global,
    tables: &Compiled,
    machine: &Machine,
    scripts: &[Script],
    text: &[u8],
) -> Result<Replayed, ReplayStop>
    requires tables { FormedTables tables.now }
    requires machine { FittingMachine tables.now machine.now }
    requires few_scripts { length scripts.now ≤ 16 }
    requires scripts { All FormedScript scripts.now }
    ensures rereads { Rereads (setup_of tables.now machine.now scripts.now) text.now result }
    ensures lawful { IfOk result (λ told. Lawful told.events) }
    ensures tree { IfOk result (λ told. TellsTree told.events told.tree) }
{
    let Ok(stretches) = stretches_of(alloc, machine) else {
        return Err(ReplayStop::Memory);
    };
    let rules = Rules {
        tables: tables.tables(),
        graph: tables.graph(),
        machine,
        stretches: &stretches,
        scripts,
    };
    reread_under(alloc, &rules, text)
}

/// The device tree that a history leads to. See `reread`.
pub fn replay(
    alloc: Global,
    tables: &Tables,
    machine: &Machine,
    scripts: &[Script],
    text: &[u8],
) -> Result<List<DevLine>, ReplayStop>
    requires tables { FormedTables tables.now }
    requires machine { FittingMachine tables.now machine.now }
    requires few_scripts { length scripts.now ≤ 16 }
    requires scripts { All FormedScript scripts.now }
    ensures replays { Replays (setup_of tables.now machine.now scripts.now) text.now result }
    ensures reliable { IfOk result (IsReliableTree (setup_of tables.now machine.now scripts.now) text.now) }
{
    let Ok(graph) = graph_of(alloc, tables) else {
        return Err(ReplayStop::Memory);
    };
    let Ok(stretches) = stretches_of(alloc, machine) else {
        return Err(ReplayStop::Memory);
    };
    let rules = Rules {
        tables,
        graph: &graph,
        machine,
        stretches: &stretches,
        scripts,
    };
    match reread_under(alloc, &rules, text) {
        Ok(replayed) => Ok(replayed.tree),
        Err(stop) => Err(stop),
    }
}

/// Reads a history from the opening world on.
fn reread_under(alloc: Global, rules: &Rules, text: &[u8]) -> Result<Replayed, ReplayStop>
    ensures { Rereads rules.now text.now result }
{
    rules.stands();
    let Ok(plain) = opening(alloc, rules) else {
        return Err(ReplayStop::Memory);
    };
    reread_by(alloc, rules, plain, text)
}

/// Reads a history from a plain world on.
fn reread_by(
    alloc: Global,
    rules: &Rules,
    plain: Plain,
    text: &[u8],
) -> Result<Replayed, ReplayStop>
    requires going { IsGoing rules.now plain }
    requires none { plain.live.devices ≡ [] }
    requires next { plain.live.next ≤ 1 }
    ensures { IsReplay (rule.reread (world_of rules.now plain) text.now) result }
{
    rules.stands();
    let mut plain = plain;
    match read_history(alloc, rules, &mut plain, text) {
        Ok(events) => match tree_lines(alloc, rules, &plain) {
            Ok(tree) => Ok(Replayed { events, tree }),
            Err(_) => {
                drop(events);
                Err(ReplayStop::Memory)
            }
        },
        Err(stop) => Err(stop),
    }
}
