//! Runs a case.

use crate::callers::by_callers;
use crate::case::{Answer, Case};
use crate::medium::Meeting;
use crate::stop::Stop;
use app_config::devconf_top;
use app_every::drvall_top;
use app_run::drvrun_top;
use app_words::{Program, Status};
use cf_io::{MemFiles, MemSink};
use cf_types::Memory;
use std::alloc::Global;
use std::mem::forget;
use std::sync::Wait;
use std::thread::Threads;

/// How many bytes a run may write; a case that would write more needs a smaller machine.
const ROOM: usize = 262_144;

/// How many bytes a run may write to standard error.
const ERROR_ROOM: usize = 4_096;

/// What is added to standard error if transfers had to be in progress at the same time and were not.
const MISSED: &[u8] = b"the transfers were not under way at the same time\n";

/// What a run is compared with: the name of its case, and the answer that the case wants.
#[derive(Drop)]
pub struct Wanted {
    pub name: String,
    pub answer: Answer,
}

/// What a case is run over.
#[derive(Drop)]
struct Over {
    files: MemFiles,
    out: MemSink,
    err: MemSink,
    medium: Meeting,
}

/// Runs `devconf` on these words, and returns how it ended. What it found is not freed, as in the
/// program itself: to free it, all that it may be would have to be proved once more here.
fn devconf_status(alloc: Global, words: &[String], over: &mut Over) -> Status {
    let ended = devconf_top(alloc, words, &mut over.files, &mut over.out, &mut over.err);
    forget(ended.found);
    ended.status
}

/// Runs `drvrun` so.
fn drvrun_status<R: Threads + Wait + Sync>(
    threads: &R,
    alloc: Global,
    words: &[String],
    over: &mut Over,
) -> Status {
    let Over {
        files,
        out,
        err,
        medium,
    } = over;
    let ended = drvrun_top(threads, alloc, words, files, out, err, medium);
    forget(ended.found);
    ended.status
}

/// Runs `drvall` so.
fn drvall_status(alloc: Global, words: &[String], over: &mut Over) -> Status {
    let ended = drvall_top(alloc, words, &mut over.files, &mut over.out, &mut over.err);
    forget(ended.found);
    ended.status
}

/// Runs a program on these words, and returns how it ended.
fn status_of<R: Threads + Wait + Sync>(
    threads: &R,
    alloc: Global,
    program: Program,
    words: &[String],
    over: &mut Over,
) -> Status {
    match program {
        Program::Devconf | Program::Devwhy => devconf_status(alloc, words, over),
        Program::Drvrun => drvrun_status(threads, alloc, words, over),
        Program::Drvall => drvall_status(alloc, words, over),
    }
}

/// What a program wrote, that of scripts side by side in an order that does not depend on the schedule.
fn output_of(alloc: Global, program: Program, written: &[u8]) -> Result<Vec<u8>, Memory> {
    match program {
        Program::Drvrun => by_callers(alloc, written),
        _ => Ok(Vec::from_slice(alloc, written)?),
    }
}

/// Runs the program on the words and files of the case, over files and sinks in memory, and returns what is wanted and
/// what came.
pub fn answer_to<R: Threads + Wait + Sync>(
    threads: &R,
    alloc: Global,
    case: Case,
) -> Result<(Wanted, Answer), Stop> {
    let Case {
        name,
        program,
        words,
        files,
        failing_loads,
        failing_puts,
        failing_errors,
        together,
        answer,
    } = case;
    let mut over = Over {
        files: MemFiles::make(files, failing_loads),
        out: MemSink::make(alloc, failing_puts, ROOM)?,
        err: MemSink::make(alloc, failing_errors, ERROR_ROOM)?,
        medium: Meeting::make(together),
    };
    let status = status_of(threads, alloc, program, &words, &mut over);
    let output = output_of(alloc, program, over.out.bytes())?;
    let mut errors = Vec::from_slice(alloc, over.err.bytes())?;
    if !over.medium.is_met() {
        errors.extend_from_slice(MISSED)?;
    }
    let came = Answer {
        output,
        errors,
        status: u64::from(status.number()),
    };
    Ok((Wanted { name, answer }, came))
}
