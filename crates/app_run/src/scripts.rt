//! Runs scripts on a machine, each in a thread of its own.
ghost use Rattle.std.specs.Prelude.{◌<◌, ◌≤◌, All, IfOk, length};
ghost use Rattle.config_rules.specs.Formed.{FittingMachine, FormedTables};
ghost use Rattle.config_rules.specs.ScriptText.{FormedScript};
ghost use Rattle.run_rules.specs.World.{setup_of};
ghost use Rattle.app_run.specs.Ran.{HasRunOut};

use board_lock::Finished;
use cf_tables::Compiled;
use cf_types::{List, Machine, Memory, Script};
use dev_board::booted_board;
use drv_workers::{Medium, run_scripts};
use std::alloc::Global;
use std::sync::Wait;
use std::thread::Threads;

/// Boots a machine, runs each script in a thread of its own, with transfers through the medium, and gives what is left once all of
/// them have ended, or once nobody goes on: the board that was behind the lock. See drvctl(8).
pub fn side_by_side<M: Medium + Sync, R: Threads + Wait + Sync>(
    rt: &R,
    alloc: Global,
    tables: Compiled,
    machine: Machine,
    scripts: List<Script>,
    medium: &M,
) -> Result<Finished, Memory>
    requires formed { FormedTables tables }
    requires fits { FittingMachine tables machine }
    requires some { 0 < length scripts }
    requires few { length scripts ≤ 16 }
    requires scripts { All FormedScript scripts }
    ensures { IfOk result (λ left. HasRunOut M.carried (setup_of tables machine scripts) left) }
{
    let (board, slots) = booted_board(alloc, tables, machine, scripts)?;
    drop(slots);
    let left = run_scripts(rt, alloc, board, medium)?;
    Ok(left)
}
