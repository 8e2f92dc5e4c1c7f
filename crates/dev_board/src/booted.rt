//! A board after its boot.
ghost use Rattle.std.specs.Prelude.{◌≤◌, All, IfOk, length};
ghost use Rattle.config_rules.specs.Formed.{FittingMachine, FormedTables};
ghost use Rattle.config_rules.specs.ScriptText.{FormedScript};
ghost use Rattle.run_rules.specs.World.{setup_of};
ghost use Rattle.dev_board.specs.Booting.{IsNew, IsStarted};

use crate::board::Board;
use crate::boot::run_boot;
use cf_tables::Compiled;
use cf_types::{List, Machine, Memory, Script};
use ref_ledger::PlainSlots;
use std::alloc::Global;
use std::mem::drop;

/// Boots a new board, and makes its slots.
fn boot_with_slots(alloc: Global, board: &mut Board) -> Result<PlainSlots, Memory>
    requires { IsNew board.old }
    ensures { IfOk result (IsStarted board.old.world.setup board.new) }
{
    let mut slots = PlainSlots::make(alloc, board.spots())?;
    run_boot(board, &mut slots)?;
    board.stands();
    Ok(slots)
}

/// A new board after its boot, with its slots.
fn with_slots(alloc: Global, mut board: Board) -> Result<(Board, PlainSlots), Memory>
    requires { IsNew board }
    ensures { IfOk result (λ r. IsStarted board.world.setup r.0 r.1) }
{
    match boot_with_slots(alloc, &mut board) {
        Ok(slots) => Ok((board, slots)),
        Err(_) => {
            drop(board);
            Err(Memory)
        }
    }
}

/// The board of a machine after its boot, with its slots. See autoconf(9).
pub fn booted_board(
    alloc: Global,
    tables: Compiled,
    machine: Machine,
    scripts: List<Script>,
) -> Result<(Board, PlainSlots), Memory>
    requires tables { FormedTables tables }
    requires machine { FittingMachine tables machine }
    requires few_scripts { length scripts ≤ 16 }
    requires scripts { All FormedScript scripts }
    ensures { IfOk result (λ r. IsStarted (setup_of tables machine scripts) r.0 r.1) }
{
    match Board::start(alloc, tables, machine, scripts) {
        Ok(board) => with_slots(alloc, board),
        Err(_) => Err(Memory),
    }
}
