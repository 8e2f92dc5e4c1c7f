//! The top call.
ghost use Rattle.std.specs.Prelude.{◌≡◌, map, string_bytes, IfOk, IfSome};
ghost use Rattle.cf_types.specs.Lines.{text_of};
ghost use Rattle.cf_io.specs.Faults.{Rose};
ghost use Rattle.app_input.specs.Asked.{AsksInputs};
ghost use Rattle.app_input.specs.Explained.{FormedExplained};
ghost use Rattle.app_words.specs.Status.{Counts, status_of};
ghost use Rattle.app_words.specs.Words.{asked_name, devwhy_form};
ghost use Rattle.app_output.specs.Headline.{Answers, seen};
ghost use Rattle.app_output.specs.Output.{Writes};
ghost use Rattle.app_why.specs.Asked.{FindsWhy, IsDueOr, WhyFor, devwhy_does};
ghost use Rattle.app_why.specs.Asked as asked;

use app_input::{Explained, read_explained};
use app_output::{Outcome, OutputStop, flush, put_paths, report, status_after};
use app_words::{Program, Status, asked_name};
use cf_io::{Files, Sink};
use cf_types::{List, Memory, Text};
use gone_rows::Statements;
use std::alloc::Global;
use why_answers::{known_answer, why_lines};

/// The lines for a name, and what they were found in.
#[derive(Drop)]
pub struct Why {
    pub explained: Explained,
    pub lines: List<Text>,
}

/// The lines for a name in the boot of a machine, or in a configuration alone; `None` if the name is unknown there.
fn lines_of(alloc: Global, explained: &Explained, name: &[u8]) -> Result<Option<List<Text>>, Memory>
    requires formed { FormedExplained explained.now }
    ensures { IfOk result (asked.Answers name.now explained.now) }
{
    let known = &explained.known;
    let stated = Statements {
        files: known.files.items(),
        placed: known.placed.items(),
        orphans: known.orphans.items(),
    };
    match &explained.machine {
        Some(machine) => why_lines(alloc, &known.tables, machine, &stated, name),
        None => known_answer(alloc, &known.tables, &stated, name),
    }
}

/// The same, or the status that the name is unknown.
fn why_of(alloc: Global, explained: Explained, name: &[u8]) -> Result<Why, Status>
    requires formed { FormedExplained explained }
    ensures { WhyFor name.now explained result }
{
    match lines_of(alloc, &explained, name)? {
        Some(lines) => Ok(Why { explained, lines }),
        None => {
            let name = Text::copied(alloc, name)?;
            Err(Status::Unknown { name })
        }
    }
}

/// Reads what the words name, and finds the lines for the name that they ask about.
fn find<F: Files>(alloc: Global, words: &[String], files: &mut F) -> Result<Why, Status>
    ensures told { F.told files.new ≡ F.told files.old }
    ensures found { FindsWhy (asked_name (map string_bytes words.now)) (devwhy_form (map string_bytes words.now)) (F.told files.old) result }
    ensures counted { Counts (F.faults files.old) (F.faults files.new) result }
    ensures due { IfSome (F.told files.old) (λ named. ¬ Rose (F.faults files.old) (F.faults files.new)
        → IsDueOr (asked_name (map string_bytes words.now)) (devwhy_form (map string_bytes words.now)) named (status_of result)) }
    ensures asked { AsksInputs (devwhy_form (map string_bytes words.now)) (F.told files.old) (status_of result) (F.asked files.old) (F.asked files.new) }
{
    match read_explained(alloc, words, files) {
        Ok(explained) => why_of(alloc, explained, asked_name(words)),
        Err(status) => Err(status),
    }
}

/// Writes lines to the stream.
fn write_lines<S: Sink>(alloc: Global, lines: &List<Text>, out: &mut S) -> Result<(), OutputStop>
    ensures { Writes (text_of lines.now) (S.told out.old) (S.told out.new) result }
{
    put_paths(alloc, lines.items(), out)?;
    flush(out)
}

/// Runs the program on the words after its name: reads the files that they name from `files`, and writes to `out` why a driver took a
/// spot in the boot of the machine and why others did not, or the rows of a name
/// and its instances that are not in the tables; the line of a refusal or a fault goes to `err`. It
/// leaves nothing held back. What it read and found is handed out with the status. See config(1) and autoconf(9).
pub fn devwhy_top<F: Files, S: Sink, E: Sink>(
    alloc: Global,
    words: &[String],
    files: &mut F,
    out: &mut S,
    err: &mut E,
) -> Outcome<Why>
    ensures { Answers (devwhy_does (map string_bytes words.now))
        (seen (F.told files.old) (F.asked files.old) (F.faults files.old) (S.told out.old) (E.told err.old))
        (seen (F.told files.new) (F.asked files.new) (F.faults files.new) (S.told out.new) (E.told err.new)) result.status }
{
    match find(alloc, words, files) {
        Ok(why) => {
            let written = write_lines(alloc, &why.lines, out);
            let status = report(alloc, Program::Devwhy, words, status_after(written), err);
            Outcome {
                status,
                found: Some(why),
            }
        }
        Err(status) => Outcome {
            status: report(alloc, Program::Devwhy, words, status, err),
            found: None,
        },
    }
}
