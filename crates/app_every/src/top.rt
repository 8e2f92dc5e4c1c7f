//! The top call.
ghost use Rattle.std.specs.Prelude.{◌≡◌, map, string_bytes, IfSome};
ghost use Rattle.cf_io.specs.Faults.{Rose};
ghost use Rattle.app_input.specs.Asked.{AsksInputs};
ghost use Rattle.app_input.specs.Inputs.{FormedInputs, IsInputsOf};
ghost use Rattle.app_words.specs.Status.{Counts, status_of};
ghost use Rattle.app_words.specs.Words.{drvall_form, most_worlds};
ghost use Rattle.app_output.specs.Headline.{Answers, seen};
ghost use Rattle.app_output.specs.Output.{Writes};
ghost use Rattle.app_every.specs.Asked.{EndsWith, EveryFor, FindsEvery, IsDueOr, drvall_does};
ghost use Rattle.app_every.specs.EveryText as told;

use crate::text::every_text;
use app_input::{Inputs, read_inputs};
use app_output::{Outcome, OutputStop, flush, put_piece, report, status_after};
use app_words::{Program, Status, most_worlds};
use cf_io::{Files, Sink};
use cf_types::List;
use every_order::{Every, every_order};
use std::alloc::Global;

/// All that the orders of the scripts of these inputs lead to.
fn every_of(alloc: Global, inputs: Inputs, most: u32) -> Result<Every, Status>
    requires formed { FormedInputs inputs }
    requires kind { IsInputsOf Program.Drvall inputs }
    ensures { EveryFor most inputs result }
{
    match inputs {
        Inputs::Run {
            tables,
            machine,
            scripts,
        } => match every_order(alloc, &tables, &machine, scripts.items(), most)? {
            Some(every) => Ok(every),
            None => Err(Status::Worlds { most }),
        },
        _ => unreachable!(),
    }
}

/// Reads what the words name, and goes through every order of the scripts.
fn find<F: Files>(alloc: Global, words: &[String], files: &mut F) -> Result<Every, Status>
    ensures told { F.told files.new ≡ F.told files.old }
    ensures found { FindsEvery (most_worlds (map string_bytes words.now)) (drvall_form (map string_bytes words.now)) (F.told files.old) result }
    ensures counted { Counts (F.faults files.old) (F.faults files.new) result }
    ensures due { IfSome (F.told files.old) (λ named. ¬ Rose (F.faults files.old) (F.faults files.new)
        → IsDueOr (drvall_form (map string_bytes words.now)) named (status_of result)) }
    ensures asked { AsksInputs (drvall_form (map string_bytes words.now)) (F.told files.old) (status_of result) (F.asked files.old) (F.asked files.new) }
{
    match read_inputs(alloc, Program::Drvall, words, files) {
        Ok(inputs) => every_of(alloc, inputs, most_worlds(words)),
        Err(status) => Err(status),
    }
}

/// Writes a text to the stream.
fn write_text<S: Sink>(text: &[u8], out: &mut S) -> Result<(), OutputStop>
    ensures { Writes text.now (S.told out.old) (S.told out.new) result }
{
    put_piece(text, out)?;
    flush(out)
}

/// Writes the text of all that the orders lead to.
fn write_every<S: Sink>(alloc: Global, every: &Every, out: &mut S) -> Result<(), OutputStop>
    ensures { Writes (told.every_text every.now) (S.told out.old) (S.told out.new) result }
{
    match every_text(alloc, every) {
        Ok(text) => write_text(&text, out),
        Err(_) => Err(OutputStop::Memory),
    }
}

/// The status of all that the orders lead to, by how writing it ended.
fn every_status(alloc: Global, every: &Every, written: Result<(), OutputStop>) -> Status
    ensures { EndsWith every.now written result }
{
    if let Err(stop) = written {
        return status_after(Err(stop));
    }
    if every.stuck.is_empty() {
        return Status::Ok;
    }
    Status::Stuck {
        waits: List::make(alloc),
    }
}

/// Runs the program on the words after its name: reads the files that they name from `files`, boots the machine, goes through
/// every order in which the scripts can take their turns, and writes to `out` how they can end and where they can stand still, each
/// with a shortest order that leads there. If there are more worlds than the bound, only the status says so. The line of a refusal
/// or a fault goes to `err`. It leaves nothing held back. What the orders lead to is handed out with the status. See config(1),
/// autoconf(9) and drvctl(8).
pub fn drvall_top<F: Files, S: Sink, E: Sink>(
    alloc: Global,
    words: &[String],
    files: &mut F,
    out: &mut S,
    err: &mut E,
) -> Outcome<Every>
    ensures { Answers (drvall_does (map string_bytes words.now))
        (seen (F.told files.old) (F.asked files.old) (F.faults files.old) (S.told out.old) (E.told err.old))
        (seen (F.told files.new) (F.asked files.new) (F.faults files.new) (S.told out.new) (E.told err.new)) result.status }
{
    match find(alloc, words, files) {
        Ok(every) => {
            let written = write_every(alloc, &every, out);
            let status = every_status(alloc, &every, written);
            let status = report(alloc, Program::Drvall, words, status, err);
            Outcome {
                status,
                found: Some(every),
            }
        }
        Err(status) => Outcome {
            status: report(alloc, Program::Drvall, words, status, err),
            found: None,
        },
    }
}
