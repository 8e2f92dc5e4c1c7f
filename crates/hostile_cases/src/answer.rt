//! A call, and how it ended.

use crate::row::Row;
use app_config::devconf_top;
use app_every::drvall_top;
use app_run::drvrun_top;
use app_words::{Program, Status};
use cf_io::{Files, MemSink};
use cf_types::{List, Memory};
use drv_workers::SoftMedium;
use std::alloc::Global;
use std::mem::forget;
use std::sync::Wait;
use std::thread::Threads;

/// How many bytes a call may write to its output, and to standard error.
const ROOM: usize = 16_384;

/// The status of a call, and what it wrote.
#[derive(Drop)]
pub struct Answer {
    pub status: u8,
    pub output: Vec<u8>,
    pub errors: Vec<u8>,
}

impl Answer {
    /// Whether a call may end like this if its output does not fail: at status 0 nothing is on standard error; at any other
    /// status the output is empty, and a line on standard error says why.
    pub fn is_fit(&self) -> bool {
        match self.status {
            0 => self.errors.is_empty(),
            _ => self.output.is_empty() && self.errors.ends_with(b"\n"),
        }
    }
}

/// What a call writes to.
#[derive(Drop)]
struct Written {
    out: MemSink,
    err: MemSink,
}

/// Calls `devconf` with the words of a row, and returns how it ended. What it found is not freed, as in the
/// program itself: to free it, all that it may be would have to be proved once more here.
fn devconf_status<F: Files>(
    alloc: Global,
    row: &Row,
    files: &mut F,
    written: &mut Written,
) -> Status {
    let ended = devconf_top(alloc, &row.words, files, &mut written.out, &mut written.err);
    forget(ended.found);
    ended.status
}

/// Calls `drvrun` so.
fn drvrun_status<R: Threads + Wait + Sync, F: Files>(
    threads: &R,
    alloc: Global,
    row: &Row,
    files: &mut F,
    written: &mut Written,
) -> Status {
    let Written { out, err } = written;
    let ended = drvrun_top(threads, alloc, &row.words, files, out, err, &SoftMedium);
    forget(ended.found);
    ended.status
}

/// Calls `drvall` so.
fn drvall_status<F: Files>(
    alloc: Global,
    row: &Row,
    files: &mut F,
    written: &mut Written,
) -> Status {
    let ended = drvall_top(alloc, &row.words, files, &mut written.out, &mut written.err);
    forget(ended.found);
    ended.status
}

/// Calls the program of a row with its words, and returns how it ended.
fn status_of<R: Threads + Wait + Sync, F: Files>(
    threads: &R,
    alloc: Global,
    row: &Row,
    files: &mut F,
    written: &mut Written,
) -> Status {
    match row.program {
        Program::Devconf | Program::Devwhy => devconf_status(alloc, row, files, written),
        Program::Drvrun => drvrun_status(threads, alloc, row, files, written),
        Program::Drvall => drvall_status(alloc, row, files, written),
    }
}

/// Calls the program of a row with its words, over these files.
pub fn answer_over<R: Threads + Wait + Sync, F: Files>(
    threads: &R,
    alloc: Global,
    row: &Row,
    files: &mut F,
) -> Result<Answer, Memory> {
    let mut written = Written {
        out: MemSink::make(alloc, List::make(alloc), ROOM)?,
        err: MemSink::make(alloc, List::make(alloc), ROOM)?,
    };
    let status = status_of(threads, alloc, row, files, &mut written);
    Ok(Answer {
        status: status.number(),
        output: Vec::from_slice(alloc, written.out.bytes())?,
        errors: Vec::from_slice(alloc, written.err.bytes())?,
    })
}
