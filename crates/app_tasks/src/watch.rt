//! Runs a machine and its scripts while subscribers read which devices came and went.
ghost use Rattle.std.specs.Prelude.{◌≡◌, ◌≤◌, ◌++◌, [], All, IfOk, OnOk, length};
ghost use Rattle.config_rules.specs.Formed.{FittingMachine, FormedTables};
ghost use Rattle.config_rules.specs.ScriptText.{FormedScript};
ghost use Rattle.dev_monitor.specs.Queues.{IsOf};
ghost use Rattle.dev_monitor.specs.Subscribers.{Watched, unwatched};
ghost use Rattle.run_rules.specs.World.{opening, setup_of};
ghost use Rattle.script_text.specs.WatchText.{FormedWatchLine};
ghost use Rattle.app_tasks.specs.Watched.{IsWatchOf, after_readings, readings};
ghost use Rattle.app_tasks.specs.Watching.{IsAt, IsReady, TakesLine, TakesLines};

use cf_tables::Compiled;
use cf_types::{List, Machine, Memory, Script};
use dev_board::{Board, run_boot, run_turns};
use dev_monitor::{Monitor, Reading};
use ref_ledger::PlainSlots;
use script_text::WatchLine;
use std::alloc::Global;

/// A run that is watched: its board with the slots, the monitor of its devices, and what was read up to now.
#[derive(Drop)]
pub struct Watch {
    board: Board,
    slots: PlainSlots,
    monitor: Monitor,
    readings: List<Reading>,
}

/// A run that was watched, and what was read, in its order.
#[derive(Drop)]
pub struct WatchedRun {
    pub board: Board,
    pub readings: List<Reading>,
}

/// Reads for a subscriber so many times, up to the first read that tells nothing.
fn read_notes(
    monitor: &mut Monitor,
    told: &mut List<Reading>,
    who: u8,
    most: u8,
) -> Result<(), Memory>
    ensures told { OnOk result ((g : Watched) → IsOf g monitor.old → told.new ≡ told.old ++ readings most who g) }
    ensures left { OnOk result ((g : Watched) → IsOf g monitor.old → IsOf (after_readings most who g) monitor.new) }
{
    for _ in 0..most {
        let note = monitor.read(who);
        let ended = note.is_none();
        told.push(Reading { who, note })?;
        if ended {
            return Ok(());
        }
    }
    Ok(())
}

/// Goes on with the boot until it is over.
fn boot(watch: &mut Watch) -> Result<(), Memory>
    requires ready { IsReady watch.old.board.world.setup watch.old }
    ensures takes { OnOk result (TakesLine WatchLine.Boot watch.old watch.new) }
    ensures ready { OnOk result (IsReady watch.old.board.world.setup watch.new) }
{
    run_boot(&mut watch.board, &mut watch.slots)?;
    watch.monitor.take_in(&watch.board)
}

/// Takes a turn of a caller.
fn turn(watch: &mut Watch, caller: u8) -> Result<(), Memory>
    requires ready { IsReady watch.old.board.world.setup watch.old }
    requires caller { caller ≤ length watch.old.board.world.setup.scripts }
    ensures takes { OnOk result (TakesLine (WatchLine.Turn caller) watch.old watch.new) }
    ensures ready { OnOk result (IsReady watch.old.board.world.setup watch.new) }
{
    run_turns(&mut watch.board, &mut watch.slots, &[caller])?;
    watch.monitor.take_in(&watch.board)
}

/// Does what a line says.
fn take_line(watch: &mut Watch, line: WatchLine) -> Result<(), Memory>
    requires ready { IsReady watch.old.board.world.setup watch.old }
    requires formed { FormedWatchLine (length watch.old.board.world.setup.scripts) line }
    ensures takes { OnOk result (TakesLine line watch.old watch.new) }
    ensures ready { OnOk result (IsReady watch.old.board.world.setup watch.new) }
{
    match line {
        WatchLine::Boot => boot(watch),
        WatchLine::Turn(caller) => turn(watch, caller),
        WatchLine::Sub(who, room) => watch.monitor.subscribe(who, room),
        WatchLine::Read(who, most) => {
            read_notes(&mut watch.monitor, &mut watch.readings, who, most)
        }
    }
}

/// Does what the lines say, one after the other.
fn take_lines(watch: &mut Watch, lines: &[WatchLine]) -> Result<(), Memory>
    requires ready { IsReady watch.old.board.world.setup watch.old }
    requires formed { All (FormedWatchLine (length watch.old.board.world.setup.scripts)) lines.now }
    ensures takes { OnOk result (TakesLines lines.now watch.old watch.new) }
    ensures ready { OnOk result (IsReady watch.old.board.world.setup watch.new) }
{
    for line in lines {
        take_line(watch, *line)?;
    }
    Ok(())
}

/// A run that is about to boot, and that nobody watches yet.
fn begin(
    alloc: Global,
    tables: Compiled,
    machine: Machine,
    scripts: List<Script>,
) -> Result<Watch, Memory>
    requires formed { FormedTables tables }
    requires fits { FittingMachine tables machine }
    requires few_scripts { length scripts ≤ 16 }
    requires scripts { All FormedScript scripts }
    ensures world { IfOk result (λ watch. watch.board.world ≡ opening (setup_of tables machine scripts)) }
    ensures ready { IfOk result (IsReady (setup_of tables machine scripts)) }
    ensures at { IfOk result (IsAt unwatched) }
    ensures none { IfOk result (λ watch. watch.readings ≡ []) }
{
    let board = Board::start(alloc, tables, machine, scripts)?;
    match PlainSlots::make(alloc, board.spots()) {
        Ok(slots) => Ok(Watch {
            board,
            slots,
            monitor: Monitor::make(alloc),
            readings: List::make(alloc),
        }),
        Err(stop) => {
            drop(board);
            Err(stop)
        }
    }
}

/// The board of a machine with scripts after the lines of a watch file, and what was read. Its boot runs where a line says so. See
/// drvctl(4) and drvctl(8).
pub fn watched(
    alloc: Global,
    tables: Compiled,
    machine: Machine,
    scripts: List<Script>,
    lines: &[WatchLine],
) -> Result<WatchedRun, Memory>
    requires formed { FormedTables tables }
    requires fits { FittingMachine tables machine }
    requires few_scripts { length scripts ≤ 16 }
    requires scripts { All FormedScript scripts }
    requires lines { All (FormedWatchLine (length scripts)) lines.now }
    ensures { IfOk result (λ run. IsWatchOf (setup_of tables machine scripts) lines.now run.readings run.board) }
{
    let mut watch = begin(alloc, tables, machine, scripts)?;
    match take_lines(&mut watch, lines) {
        Ok(()) => {
            let Watch {
                board,
                slots,
                monitor,
                readings,
            } = watch;
            drop(slots);
            drop(monitor);
            board.stands();
            Ok(WatchedRun { board, readings })
        }
        Err(stop) => {
            drop(watch);
            Err(stop)
        }
    }
}
