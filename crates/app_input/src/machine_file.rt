ghost use Rattle.std.specs.Prelude.{◌≡◌, ◌≤◌, [], ◌∷◌, IfOk, length};
ghost use Rattle.cf_io.specs.declared.files.TheConstants.{MAX_FILE};
ghost use Rattle.config_rules.specs.MachineText.{machine_of};
ghost use Rattle.config_rules.specs.Formed.{FittingMachine, FormedTables};
ghost use Rattle.app_input.specs.Asked.{IsAskedFor};
ghost use Rattle.app_input.specs.Inputs.{Describes, ReadsMachine};
ghost use Rattle.app_words.specs.Status.{Counts, status_of};

use crate::file::load_file;
use app_words::Status;
use cf_io::Files;
use cf_tables::Compiled;
use cf_types::{Machine, Tables};
use machine_model::{MachineStop, read_machine};
use std::alloc::Global;

/// The machine that a text describes.
fn judge(alloc: Global, text: &[u8], tables: &Tables) -> Result<Machine, Status>
    requires short { length text.now ≤ MAX_FILE }
    requires formed { FormedTables tables.now }
    ensures describes { Describes (machine_of tables.now text.now) result }
    ensures fits { IfOk result (λ machine. FittingMachine tables.now machine) }
{
    match read_machine(alloc, text, tables) {
        Ok(machine) => Ok(machine),
        Err(MachineStop::Fault { line, code }) => Err(Status::MachineRefused { line, code }),
        Err(MachineStop::Memory) => Err(Status::Memory),
    }
}

/// Loads the machine file and reads it with the tables of the configuration.
pub fn load_machine<F: Files>(
    alloc: Global,
    files: &mut F,
    name: &[u8],
    tables: &Compiled,
) -> Result<Machine, Status>
    requires { FormedTables tables.now }
    ensures told { F.told files.new ≡ F.told files.old }
    ensures reads { ReadsMachine (F.told files.old) name.now tables.now result }
    ensures asked { IsAskedFor (name.now ∷ []) (status_of result) (F.asked files.old) (F.asked files.new) }
    ensures counted { Counts (F.faults files.old) (F.faults files.new) result }
    ensures fits { IfOk result (λ machine. FittingMachine tables.now machine) }
{
    match load_file(alloc, files, name) {
        Ok(text) => judge(alloc, text.items(), tables.tables()),
        Err(status) => Err(status),
    }
}
