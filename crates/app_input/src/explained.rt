//! What the words of `devwhy` name.
ghost use Rattle.std.specs.Prelude.{◌≡◌, ◌⊎◌, Err, IfOk, IfSome, Some, map, string_bytes};
ghost use Rattle.cf_io.specs.Faults.{Rose};
ghost use Rattle.config_rules.specs.Formed.{FormedTables};
ghost use Rattle.config_rules.specs.Reading.{reading};
ghost use Rattle.app_input.specs.Asked.{AsksForm, AsksInputs, IsAskedFor};
ghost use Rattle.app_input.specs.Explained.{FormedExplained, ReadsExplained, ReadsKnown, given};
ghost use Rattle.app_input.specs.Inputs.{IsDue};
ghost use Rattle.app_words.specs.Status.{Counts, status_of};
ghost use Rattle.app_words.specs.Words.{boot, devwhy_form, ioconf};

use crate::machine_file::load_machine;
use crate::stop::status_of_stop;
use app_words::{Program, Status, WordStop, Words, read_words};
use cf_compile::{Known, compile_known};
use cf_io::Files;
use cf_types::Machine;
use std::alloc::Global;

/// A configuration with its statements, and the machine that is to boot by it, if the words name one.
#[derive(Drop)]
pub struct Explained {
    pub known: Known,
    pub machine: Option<Machine>,
}

/// Compiles the configuration, and keeps its statements.
fn read_known<F: Files>(alloc: Global, files: &mut F, file: &[u8]) -> Result<Known, Status>
    ensures told { F.told files.new ≡ F.told files.old }
    ensures reads { ReadsKnown (F.told files.old) file.now result }
    ensures asked { IfSome (F.told files.old)
        (λ named. IsAskedFor (reading named file.now).asked (status_of result) (F.asked files.old) (F.asked files.new)) }
    ensures counted { Counts (F.faults files.old) (F.faults files.new) result }
    ensures formed { IfOk result (λ known. FormedTables known.tables) }
{
    match compile_known(alloc, files, file) {
        Ok(known) => Ok(known),
        Err(stop) => Err(status_of_stop(stop)),
    }
}

/// Reads what `FILE NAME` names.
fn read_alone<F: Files>(alloc: Global, files: &mut F, file: &[u8]) -> Result<Explained, Status>
    ensures told { F.told files.new ≡ F.told files.old }
    ensures reads { ReadsExplained (Some (ioconf file.now)) (F.told files.old) result }
    ensures asked { IfSome (F.told files.old)
        (λ named. AsksForm (ioconf file.now) named (status_of result) (F.asked files.old) (F.asked files.new)) }
    ensures counted { Counts (F.faults files.old) (F.faults files.new) result }
    ensures formed { IfOk result FormedExplained }
{
    match read_known(alloc, files, file) {
        Ok(known) => Ok(Explained {
            known,
            machine: None,
        }),
        Err(status) => Err(status),
    }
}

/// Reads what `FILE MACHINE NAME` names: the configuration first.
fn read_with_machine<F: Files>(
    alloc: Global,
    files: &mut F,
    file: &[u8],
    name: &[u8],
) -> Result<Explained, Status>
    ensures told { F.told files.new ≡ F.told files.old }
    ensures reads { ReadsExplained (Some (boot file.now name.now)) (F.told files.old) result }
    ensures asked { IfSome (F.told files.old)
        (λ named. AsksForm (boot file.now name.now) named (status_of result) (F.asked files.old) (F.asked files.new)) }
    ensures counted { Counts (F.faults files.old) (F.faults files.new) result }
    ensures formed { IfOk result FormedExplained }
{
    let known = match read_known(alloc, files, file) {
        Ok(known) => known,
        Err(status) => return Err(status),
    };
    match load_machine(alloc, files, name, &known.tables) {
        Ok(machine) => Ok(Explained {
            known,
            machine: Some(machine),
        }),
        Err(status) => {
            drop(known);
            Err(status)
        }
    }
}

/// Reads the words behind the name of `devwhy` and the files that they name, the configuration before the machine: the configuration
/// with its statements, and the machine, if one is named; or the first refusal in this order: the words, the configuration, the machine
/// file. Each file is loaded once. See config(1) and config(5).
pub fn read_explained<F: Files>(
    alloc: Global,
    words: &[String],
    files: &mut F,
) -> Result<Explained, Status>
    ensures told { F.told files.new ≡ F.told files.old }
    ensures reads { ReadsExplained (devwhy_form (map string_bytes words.now)) (F.told files.old) result }
    ensures asked { AsksInputs (devwhy_form (map string_bytes words.now)) (F.told files.old) (status_of result) (F.asked files.old) (F.asked files.new) }
    ensures counted { Counts (F.faults files.old) (F.faults files.new) result }
    ensures formed { IfOk result FormedExplained }

    // If the files are told and no fault was counted, the result is the one that is due, or memory ran out.
    ensures due { IfSome (F.told files.old) (λ named. ¬ Rose (F.faults files.old) (F.faults files.new)
        → (given result ≡ Err Status.Memory) ⊎ IsDue (devwhy_form (map string_bytes words.now)) named (given result)) }
{
    match read_words(alloc, Program::Devwhy, words) {
        Ok(Words::Ioconf { file }) => read_alone(alloc, files, file.as_bytes()),
        Ok(Words::Boot { file, machine }) => {
            read_with_machine(alloc, files, file.as_bytes(), machine.as_bytes())
        }
        Ok(_) => unreachable!(),
        Err(WordStop::Usage) => Err(Status::Usage),
        Err(WordStop::Memory) => Err(Status::Memory),
    }
}
