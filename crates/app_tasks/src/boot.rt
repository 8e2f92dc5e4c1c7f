//! Boots a machine by tables.
ghost use Rattle.std.specs.Prelude.{[], IfOk};
ghost use Rattle.config_rules.specs.Formed.{FittingMachine, FormedTables};
ghost use Rattle.run_rules.specs.World.{setup_of};
ghost use Rattle.app_tasks.specs.Ran.{IsBootOf};

use cf_tables::Compiled;
use cf_types::{List, Machine, Memory};
use dev_board::{Board, booted_board};
use std::alloc::Global;

/// The board of a machine after its boot, without scripts.
pub fn booted(alloc: Global, tables: Compiled, machine: Machine) -> Result<Board, Memory>
    requires formed { FormedTables tables }
    requires fits { FittingMachine tables machine }
    ensures { IfOk result (IsBootOf (setup_of tables machine [])) }
{
    let (board, slots) = booted_board(alloc, tables, machine, List::make(alloc))?;
    drop(slots);
    Ok(board)
}
