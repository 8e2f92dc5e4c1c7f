//! Reads a history again.
ghost use Rattle.std.specs.Prelude.{◌≤◌, All, length};
ghost use Rattle.cf_io.specs.declared.files.TheConstants.{MAX_FILE};
ghost use Rattle.config_rules.specs.Formed.{FittingMachine, FormedTables};
ghost use Rattle.config_rules.specs.ScriptText.{FormedScript};
ghost use Rattle.run_rules.specs.World.{setup_of};
ghost use Rattle.app_tasks.specs.Retold.{Retells, RetellsRun};

use app_words::Status;
use cf_tables::Compiled;
use cf_types::{List, Machine, Script, Text};
use history_replay::{ReplayStop, Replayed, reread};
use std::alloc::Global;

/// A history that was read again, and what it was read by.
#[derive(Drop)]
pub struct RetoldRun {
    pub tables: Compiled,
    pub machine: Machine,
    pub scripts: List<Script>,
    pub told: Replayed,
}

/// Reads a history of a machine and its scripts: what it says, or its first bad line. A file has fewer lines than a
/// status can count.
fn reread_history(
    alloc: Global,
    tables: &Compiled,
    machine: &Machine,
    scripts: &[Script],
    history: &[u8],
) -> Result<Replayed, Status>
    requires formed { FormedTables tables.now }
    requires fits { FittingMachine tables.now machine.now }
    requires few_scripts { length scripts.now ≤ 16 }
    requires scripts { All FormedScript scripts.now }
    requires short { length history.now ≤ MAX_FILE }
    ensures { Retells (setup_of tables.now machine.now scripts.now) history.now result }
{
    match reread(alloc, tables, machine, scripts, history) {
        Ok(told) => Ok(told),
        Err(ReplayStop::Bad { line }) => Err(Status::HistoryRefused { line: line as u32 }),
        Err(ReplayStop::Memory) => Err(Status::Memory),
    }
}

/// Reads a history of a machine and its scripts: its events and the device tree that they lead to, or its first bad
/// line. See drvctl(8).
pub fn retold(
    alloc: Global,
    tables: Compiled,
    machine: Machine,
    scripts: List<Script>,
    history: Text,
) -> Result<RetoldRun, Status>
    requires formed { FormedTables tables }
    requires fits { FittingMachine tables machine }
    requires few_scripts { length scripts ≤ 16 }
    requires scripts { All FormedScript scripts }
    requires short { length history ≤ MAX_FILE }
    ensures { RetellsRun (setup_of tables machine scripts) history result }
{
    let told = reread_history(alloc, &tables, &machine, scripts.items(), history.items())?;
    Ok(RetoldRun {
        tables,
        machine,
        scripts,
        told,
    })
}
