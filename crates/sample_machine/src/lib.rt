//! A small machine after its boot, with its scripts: the start of the tests of the lock and of the workers.
#![tactic(auto)]

ghost use Rattle.std.specs.Prelude.{◌<◌, ◌≤◌, All, IfOk, IfSome, length};
ghost use Rattle.app_input.specs.Inputs.{FormedInputs, IsInputsOf};
ghost use Rattle.config_rules.specs.Formed.{FittingMachine, FormedTables};
ghost use Rattle.config_rules.specs.ScriptText.{FormedScript};
ghost use Rattle.sample_machine.specs.Ready.{IsReady};

use app_input::{Inputs, read_inputs};
use app_words::{Program, Status};
use cf_io::{MemFile, MemFiles};
use cf_tables::Compiled;
use cf_types::{List, Machine, Memory, Script, Text};
use dev_board::{Board, booted_board};
use std::alloc::Global;

const CONF: &[u8] =
    b"device mainbus {}\nattach mainbus at root\ndevice isa {[port = -1], [irq = -1]}\nattach isa at mainbus\ndevice com\nattach com at isa with com_isa\nmainbus0 at root\nisa0 at mainbus0\ncom0 at isa? port 0x3f8 irq 4\ncom* at isa?\n";

const MACHINE: &[u8] =
    b"spot mb root root\nspot isa mb mainbus\nspot u0 isa isa port=0x3f8 irq=4\nspot u1 isa isa port=0x2f8 irq=3\nmatch mainbus mb 10\nmatch isa isa 10\nmatch com_isa * 10\n";

// Adds a file to others.
fn put_file(
    alloc: Global,
    files: &mut List<MemFile>,
    name: &[u8],
    bytes: &[u8],
) -> Result<(), Memory> {
    files.push(MemFile {
        name: Text::copied(alloc, name)?,
        bytes: Text::copied(alloc, bytes)?,
    })
}

// The name of the file of a script.
fn name_of(alloc: Global, number: usize) -> Result<String, Memory> {
    Ok(format!(in alloc; "s{number}")?)
}

// The files of a run with these scripts.
fn files_of(alloc: Global, scripts: &[&[u8]]) -> Result<MemFiles, Memory> {
    let mut files = List::make(alloc);
    put_file(alloc, &mut files, b"conf", CONF)?;
    put_file(alloc, &mut files, b"mach", MACHINE)?;
    for (number, script) in scripts.iter().enumerate() {
        let name = name_of(alloc, number)?;
        put_file(alloc, &mut files, name.as_bytes(), script)?;
    }
    Ok(MemFiles::make(files, List::make(alloc)))
}

// The words of a call with this many scripts.
fn words_of(alloc: Global, scripts: usize) -> Result<Vec<String>, Memory> {
    let mut words = Vec::new(alloc);
    for word in ["conf", "mach"] {
        words.push(String::from_str(alloc, word)?)?;
    }
    for number in 0..scripts {
        words.push(name_of(alloc, number)?)?;
    }
    Ok(words)
}

// The board of a machine after its boot; none if memory ran out.
fn ready_board(
    alloc: Global,
    tables: Compiled,
    machine: Machine,
    scripts: List<Script>,
) -> Option<Board>
    requires tables { FormedTables tables }
    requires machine { FittingMachine tables machine }
    requires some { 0 < length scripts }
    requires few_scripts { length scripts ≤ 16 }
    requires scripts { All FormedScript scripts }
    ensures { IfSome result IsReady }
{
    match booted_board(alloc, tables, machine, scripts) {
        Ok((board, slots)) => {
            drop(slots);
            Some(board)
        }
        Err(_) => None,
    }
}

// The board of the inputs of a run; none if memory ran out.
fn board_of(alloc: Global, inputs: Inputs) -> Option<Board>
    requires formed { FormedInputs inputs }
    requires kind { IsInputsOf Program.Drvrun inputs }
    ensures { IfSome result IsReady }
{
    match inputs {
        Inputs::Run {
            tables,
            machine,
            scripts,
        } => ready_board(alloc, tables, machine, scripts),
        _ => unreachable!(),
    }
}

/// The inputs of a run of this machine with these scripts, from words and files in memory; or why they are refused.
pub fn inputs_of(alloc: Global, scripts: &[&[u8]]) -> Result<Inputs, Status>
    ensures formed { IfOk result FormedInputs }
    ensures kind { IfOk result (IsInputsOf Program.Drvrun) }
{
    let mut files = files_of(alloc, scripts)?;
    let words = words_of(alloc, scripts.len())?;
    read_inputs(alloc, Program::Drvrun, words.as_slice(), &mut files)
}

/// A machine with the spots mb, isa, u0 and u1, after the boot that attached com0 and com1, with 1 to 16 scripts of
/// drvctl(8) commands; none if a script is refused, if there is none, or if memory ran out.
pub fn booted(alloc: Global, scripts: &[&[u8]]) -> Option<Board>
    ensures { IfSome result IsReady }
{
    match inputs_of(alloc, scripts) {
        Ok(inputs) => board_of(alloc, inputs),
        Err(_) => None,
    }
}
