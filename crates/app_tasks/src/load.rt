//! Boots a generated machine.
ghost use Rattle.std.specs.Prelude.{IfOk};
ghost use Rattle.config_rules.specs.Formed.{FittingMachine, FormedTables};
ghost use Rattle.app_tasks.specs.Summary.{IsSummary};

use crate::boot::booted;
use crate::summary::summary_of;
use cf_tables::Compiled;
use cf_types::{Machine, Memory};
use std::alloc::Global;

/// The summary of the boot of a generated machine with this many spots on its bus.
pub fn loaded(
    alloc: Global,
    count: u32,
    tables: Compiled,
    machine: Machine,
) -> Result<Vec<u8>, Memory>
    requires formed { FormedTables tables }
    requires fits { FittingMachine tables machine }
    ensures { IfOk result (λ line. IsSummary count tables machine line.items) }
{
    let board = booted(alloc, tables, machine)?;
    let line = summary_of(alloc, count, &board);
    drop(board);
    line
}
