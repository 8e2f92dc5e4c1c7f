//! Calls `devconf` and `drvrun` over hostile files. The first word names a file with one row a line: a command line, and
//! what is done to its files. For each row it prints how many calls there were and how they ended. A call that ends wrongly
//! is reported, and the status is then 1.
#![tactic(auto)]

mod answer;
mod ends;
mod files;
mod loads;
mod places;
mod row;

use crate::loads::refuse_each_load;
use crate::places::change_each_place;
use crate::row::{Harm, Row, row_of};
use app_words::words_behind_name;
use cf_io::{Files, HostFiles, HostSink, Load, Sink};
use cf_types::Memory;
use std::process::ExitCode;
use std::sync::Wait;
use std::thread::Threads;

/// The bytes of a file of the host; none if it is absent or cannot be read.
fn bytes_of(rt: &HostRuntime, name: &str) -> Vec<u8> {
    let mut bytes = Vec::new(rt.alloc());
    match HostFiles::make(*rt).load(name.as_bytes(), &mut bytes) {
        Load::Whole => bytes,
        _ => Vec::new(rt.alloc()),
    }
}

/// Harms the files of a row. Returns whether each call ended as it may.
fn try_row<R: Threads + Wait + Sync, S: Sink>(
    rt: &HostRuntime,
    threads: &R,
    row: &Row,
    out: &mut S,
) -> Result<bool, Memory> {
    let file = bytes_of(rt, row.file.as_str());
    match row.harm {
        Harm::Loads => refuse_each_load(rt, threads, row, &file, out),
        Harm::Bytes => change_each_place(rt, threads, row, &file, out),
    }
}

/// Tries the row of a line. Returns whether each call ended as it may.
fn try_line<R: Threads + Wait + Sync, S: Sink>(
    rt: &HostRuntime,
    threads: &R,
    line: &str,
    out: &mut S,
) -> Result<bool, Memory> {
    match row_of(rt.alloc(), line)? {
        Some(row) => try_row(rt, threads, &row, out),
        None => {
            let report = format!(in rt.alloc(); "no row: {line}\n")?;
            let _ = out.put(report.as_bytes());
            Ok(false)
        }
    }
}

/// Tries the row of each line. Returns whether each call ended as it may.
fn try_lines<R: Threads + Wait + Sync, S: Sink>(
    rt: &HostRuntime,
    threads: &R,
    text: &str,
    out: &mut S,
) -> Result<bool, Memory> {
    let mut is_well = !text.is_empty();
    for line in text.lines() {
        is_well = try_line(rt, threads, line, out)? && is_well;
    }
    Ok(is_well)
}

/// Tries the rows of the file that the first word names.
fn run<R: Threads + Wait + Sync>(rt: &HostRuntime, threads: &R) -> Result<bool, Memory> {
    let words = words_behind_name(rt, rt.alloc())?;
    let Some(name) = words.first() else {
        return Ok(false);
    };
    let rows = bytes_of(rt, name.as_str());
    let text = str::from_utf8(&rows).unwrap_or("");
    try_lines(rt, threads, text, &mut HostSink::make(rt.stdout()))
}

fn main(rt: HostRuntime) -> ExitCode {
    match run(&rt, &rt) {
        Ok(true) => ExitCode::SUCCESS,
        _ => ExitCode::FAILURE,
    }
}
