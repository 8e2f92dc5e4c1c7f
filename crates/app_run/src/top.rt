//! The top call.
ghost use Rattle.std.specs.Prelude.{◌≡◌, map, string_bytes, IfSome};
ghost use Rattle.cf_io.specs.Faults.{Rose};
ghost use Rattle.app_input.specs.Asked.{AsksInputs};
ghost use Rattle.app_input.specs.Inputs.{FormedInputs, IsInputsOf};
ghost use Rattle.app_words.specs.Status.{Counts, status_of};
ghost use Rattle.app_words.specs.Words.{drvrun_form};
ghost use Rattle.app_output.specs.Headline.{Answers, seen};
ghost use Rattle.app_output.specs.Output.{Writes};
ghost use Rattle.app_run.specs.Asked.{EndsWith, FindsRun, IsDueOr, RanFor, drvrun_does, left_text};

use crate::scripts::side_by_side;
use crate::stuck::stuck_text;
use app_input::{Inputs, read_inputs};
use app_output::{Outcome, OutputStop, flush, put_run, report, status_after};
use app_words::{Program, Status};
use board_lock::Finished;
use cf_io::{Files, Sink};
use drv_workers::Medium;
use std::alloc::Global;
use std::sync::Wait;
use std::thread::Threads;

/// What is left of a run of the scripts of these inputs, once all of them have ended or nobody goes on.
fn left_of<R: Threads + Wait + Sync, M: Medium + Sync>(
    rt: &R,
    alloc: Global,
    inputs: Inputs,
    medium: &M,
) -> Result<Finished, Status>
    requires formed { FormedInputs inputs }
    requires kind { IsInputsOf Program.Drvrun inputs }
    ensures { RanFor M.carried inputs result }
{
    match inputs {
        Inputs::Run {
            tables,
            machine,
            scripts,
        } => {
            let left = side_by_side(rt, alloc, tables, machine, scripts, medium)?;
            Ok(left)
        }
        _ => unreachable!(),
    }
}

/// Reads what the words name, and runs the scripts.
fn find<R: Threads + Wait + Sync, F: Files, M: Medium + Sync>(
    rt: &R,
    alloc: Global,
    words: &[String],
    files: &mut F,
    medium: &M,
) -> Result<Finished, Status>
    ensures told { F.told files.new ≡ F.told files.old }
    ensures found { FindsRun M.carried (drvrun_form (map string_bytes words.now)) (F.told files.old) result }
    ensures counted { Counts (F.faults files.old) (F.faults files.new) result }
    ensures due { IfSome (F.told files.old) (λ named. ¬ Rose (F.faults files.old) (F.faults files.new)
        → IsDueOr (drvrun_form (map string_bytes words.now)) named (status_of result)) }
    ensures asked { AsksInputs (drvrun_form (map string_bytes words.now)) (F.told files.old) (status_of result) (F.asked files.old) (F.asked files.new) }
{
    match read_inputs(alloc, Program::Drvrun, words, files) {
        Ok(inputs) => left_of(rt, alloc, inputs, medium),
        Err(status) => Err(status),
    }
}

/// Writes the listing, the history and the tree to the stream.
fn write_run<S: Sink>(alloc: Global, left: &Finished, out: &mut S) -> Result<(), OutputStop>
    ensures { Writes (left_text left.now) (S.told out.old) (S.told out.new) result }
{
    put_run(alloc, left.board(), out)?;
    flush(out)
}

/// The status of a run that is over, by how writing it ended.
fn left_status(alloc: Global, left: &Finished, written: Result<(), OutputStop>) -> Status
    ensures { EndsWith left.now written result }
{
    if let Err(stop) = written {
        return status_after(Err(stop));
    }
    if left.have_all_ended() {
        return Status::Ok;
    }
    match stuck_text(alloc, left.board()) {
        Ok(waits) => Status::Stuck { waits },
        Err(_) => Status::Memory,
    }
}

/// Runs the program on the words after its name: reads the files that they name from `files`, boots the machine, runs
/// each script in a thread of its own, with transfers through `medium`, and once all have ended or nobody goes on writes the
/// listing, the history and the device tree to `out`; the line of a refusal or a fault goes to `err`, and so does a line for each
/// caller that waits, if nobody goes on. It leaves nothing held back. What is left of the run is handed out with the status. See
/// config(1), autoconf(9) and drvctl(8).
pub fn drvrun_top<R: Threads + Wait + Sync, F: Files, S: Sink, E: Sink, M: Medium + Sync>(
    rt: &R,
    alloc: Global,
    words: &[String],
    files: &mut F,
    out: &mut S,
    err: &mut E,
    medium: &M,
) -> Outcome<Finished>
    ensures { Answers (drvrun_does M.carried (map string_bytes words.now))
        (seen (F.told files.old) (F.asked files.old) (F.faults files.old) (S.told out.old) (E.told err.old))
        (seen (F.told files.new) (F.asked files.new) (F.faults files.new) (S.told out.new) (E.told err.new)) result.status }
{
    match find(rt, alloc, words, files, medium) {
        Ok(left) => {
            let written = write_run(alloc, &left, out);
            let status = left_status(alloc, &left, written);
            let status = report(alloc, Program::Drvrun, words, status, err);
            Outcome {
                status,
                found: Some(left),
            }
        }
        Err(status) => Outcome {
            status: report(alloc, Program::Drvrun, words, status, err),
            found: None,
        },
    }
}
