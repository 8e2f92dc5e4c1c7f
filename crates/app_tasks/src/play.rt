//! Boots a machine and plays scripts on it.
ghost use Rattle.std.specs.Prelude.{◌≤◌, All, IfOk, length};
ghost use Rattle.config_rules.specs.Formed.{FittingMachine, FormedTables};
ghost use Rattle.config_rules.specs.ScriptText.{FormedScript};
ghost use Rattle.run_rules.specs.World.{setup_of};
ghost use Rattle.app_tasks.specs.Ran.{IsPlayOf};

use cf_tables::Compiled;
use cf_types::{List, Machine, Memory, Script};
use dev_board::{Board, booted_board, run_turns};
use std::alloc::Global;

/// The board of a machine after its boot and the turns of an order over its scripts. See drvctl(8).
pub fn played(
    alloc: Global,
    tables: Compiled,
    machine: Machine,
    scripts: List<Script>,
    order: &[u8],
) -> Result<Board, Memory>
    requires formed { FormedTables tables }
    requires fits { FittingMachine tables machine }
    requires few_scripts { length scripts ≤ 16 }
    requires scripts { All FormedScript scripts }
    requires turns { All (λ turn. (1 ≤ turn) × (turn ≤ length scripts)) order.now }
    ensures { IfOk result (IsPlayOf (setup_of tables machine scripts) order.now) }
{
    let (mut board, mut slots) = booted_board(alloc, tables, machine, scripts)?;
    match run_turns(&mut board, &mut slots, order) {
        Ok(()) => {
            drop(slots);
            board.stands();
            Ok(board)
        }
        Err(stop) => {
            drop(slots);
            drop(board);
            Err(stop)
        }
    }
}
