ghost use Rattle.std.specs.Prelude.{◌≡◌, IfErr, IfOk, Some, false, true, map, string_bytes};
ghost use Rattle.std.specs.List.{list_all};
ghost use Rattle.clap.specs.Words.{app_of, kind_of, rule_of};
ghost use Rattle.app_words.specs.Commands.{bare_app, boot_app, file_app, required_rule, scripted_app, scripts_rule};
ghost use Rattle.app_words.specs.Words.{HasForm, IsStopped, boot_form, file_in, is_operand, scripted_form, stop_of};
ghost use Rattle.app_words.specs.declared.words.WordStop.TheVariants as stops;

use crate::words::{Task, WordStop, Words};
use clap::error::ErrorKind;
use clap::{Arg, Command, Error};
use std::alloc::{AllocError, Global};

/// The most scripts of a run.
pub const MAX_SCRIPTS: usize = 16;

impl From<AllocError> for WordStop {
    ghost from_gives = { λ _ stop. stop ≡ stops.Memory };

    fn from(_error: AllocError) -> WordStop {
        WordStop::Memory
    }
}

impl From<Error> for WordStop {
    ghost from_gives = { λ error stop. stop ≡ stop_of (kind_of error) };

    fn from(error: Error) -> WordStop {
        match error.kind() {
            ErrorKind::OutOfMemory => WordStop::Memory,
            _ => WordStop::Usage,
        }
    }
}

/// An argument that has to be there.
fn required<'a>(alloc: Global, id: &'a str) -> Arg<'a>
    ensures rule { rule_of result ≡ required_rule id.entry.now }
    ensures local { result.global ≡ false }
{
    Arg::new(alloc, id).required(true)
}

/// A command without help, whose first word is an argument.
fn bare<'a>(alloc: Global, name: &'a str) -> Command<'a>
    ensures { app_of result ≡ bare_app name.entry.now }
{
    Command::new(alloc, name)
        .no_binary_name(true)
        .disable_help_flag(true)
}

fn file_command<'a>(alloc: Global) -> Result<Command<'a>, AllocError>
    ensures { IfOk result (λ command. app_of command ≡ file_app) }
{
    bare(alloc, "file").arg(required(alloc, "file"))
}

fn boot_command<'a>(alloc: Global) -> Result<Command<'a>, AllocError>
    ensures { IfOk result (λ command. app_of command ≡ boot_app) }
{
    bare(alloc, "boot")
        .arg(required(alloc, "file"))?
        .arg(required(alloc, "machine"))
}

/// The scripts, at least one.
fn scripts<'a>(alloc: Global) -> Arg<'a>
    ensures rule { rule_of result ≡ scripts_rule }
    ensures local { result.global ≡ false }
{
    required(alloc, "scripts").num_args(1..=MAX_SCRIPTS)
}

fn scripted_command<'a>(alloc: Global) -> Result<Command<'a>, AllocError>
    ensures { IfOk result (λ command. app_of command ≡ scripted_app) }
{
    bare(alloc, "scripted")
        .arg(required(alloc, "file"))?
        .arg(required(alloc, "machine"))?
        .arg(required(alloc, "course"))?
        .arg(scripts(alloc))
}

/// Reads the operand `FILE`.
pub fn file_word<'a>(alloc: Global, operands: &'a [String]) -> Result<&'a str, WordStop>
    requires { list_all is_operand (map string_bytes operands.now) ≡ true }
    ensures file { IfOk result (λ file. file_in (map string_bytes operands.now) ≡ Some file.now) }
    ensures stop { IfErr result (IsStopped (file_in (map string_bytes operands.now))) }
{
    let command = file_command(alloc)?;
    let matches = command.try_get_matches_from(operands)?;
    match matches.get_str("file") {
        Some(file) => Ok(file),
        None => Err(WordStop::Usage),
    }
}

/// Reads the operands `FILE MACHINE`.
pub fn boot_words<'a>(alloc: Global, operands: &'a [String]) -> Result<Words<'a>, WordStop>
    requires { list_all is_operand (map string_bytes operands.now) ≡ true }
    ensures { HasForm (boot_form (map string_bytes operands.now)) result }
{
    let command = boot_command(alloc)?;
    let matches = command.try_get_matches_from(operands)?;
    let Some(file) = matches.get_str("file") else {
        return Err(WordStop::Usage);
    };
    let Some(machine) = matches.get_str("machine") else {
        return Err(WordStop::Usage);
    };
    Ok(Words::Boot { file, machine })
}

/// Reads the operands `FILE MACHINE COURSE SCRIPT..`, where COURSE is an order file, a history or a watch file.
pub fn scripted_words<'a>(
    alloc: Global,
    task: Task,
    operands: &'a [String],
) -> Result<Words<'a>, WordStop>
    requires { list_all is_operand (map string_bytes operands.now) ≡ true }
    ensures { HasForm (scripted_form task (map string_bytes operands.now)) result }
{
    let [_, _, _, scripts @ ..] = operands else {
        return Err(WordStop::Usage);
    };
    let command = scripted_command(alloc)?;
    let matches = command.try_get_matches_from(operands)?;
    let Some(file) = matches.get_str("file") else {
        return Err(WordStop::Usage);
    };
    let Some(machine) = matches.get_str("machine") else {
        return Err(WordStop::Usage);
    };
    let Some(course) = matches.get_str("course") else {
        return Err(WordStop::Usage);
    };
    Ok(Words::Scripted {
        task,
        file,
        machine,
        course,
        scripts,
    })
}
