//! Calls in which each load in turn is refused memory.

use crate::answer::{Answer, answer_over};
use crate::files::RefusedLoad;
use crate::row::Row;
use cf_io::{HostFiles, Sink};
use cf_types::Memory;
use std::alloc::Global;
use std::sync::Wait;
use std::thread::Threads;

/// The greatest number of calls of a row.
const MOST_CALLS: u64 = 100;

/// The status of a call that ran out of memory.
const OUT_OF_MEMORY: u8 = 10;

/// The lines of an output, those of caller 2 last: threads run in any order, and the order within each is fixed.
fn by_callers(alloc: Global, output: &[u8]) -> Result<Vec<u8>, Memory> {
    let mut lines = Vec::new(alloc);
    let mut of_second = Vec::new(alloc);
    for line in output.split_inclusive(|byte| *byte == b'\n') {
        if line.starts_with(b"2.") {
            of_second.extend_from_slice(line)?;
        } else {
            lines.extend_from_slice(line)?;
        }
    }
    lines.extend_from_slice(&of_second)?;
    Ok(lines)
}

/// Whether a call ended with status 0 and this output.
fn is_whole(alloc: Global, answer: &Answer, wanted: &[u8]) -> Result<bool, Memory> {
    let output = by_callers(alloc, &answer.output)?;
    let wanted = by_callers(alloc, wanted)?;
    Ok(answer.status == 0 && answer.is_fit() && output.as_slice() == wanted.as_slice())
}

/// Calls a row and refuses memory to this load. Returns also whether the row asked for so many.
fn refuse<R: Threads + Wait + Sync>(
    rt: &HostRuntime,
    threads: &R,
    row: &Row,
    refused: u64,
) -> Result<(Answer, bool), Memory> {
    let mut files = RefusedLoad {
        files: HostFiles::make(*rt),
        refused,
        loads: 0,
    };
    let answer = answer_over(threads, rt.alloc(), row, &mut files)?;
    Ok((answer, files.loads >= refused))
}

/// Calls a row with its first load refused, then with its second, and so on, and in the end with none. Returns the number of
/// calls, and whether each ran out of memory and the last one gave the output that is wanted.
fn refuse_all<R: Threads + Wait + Sync>(
    rt: &HostRuntime,
    threads: &R,
    row: &Row,
    wanted: &[u8],
) -> Result<(u64, bool), Memory> {
    for call in 1..=MOST_CALLS {
        let (answer, is_refused) = refuse(rt, threads, row, call)?;
        let is_well = if is_refused {
            answer.status == OUT_OF_MEMORY && answer.is_fit()
        } else {
            is_whole(rt.alloc(), &answer, wanted)?
        };
        if !is_refused || !is_well {
            return Ok((call, is_well));
        }
    }
    Ok((MOST_CALLS, false))
}

/// Refuses memory to each load of a row in turn, and prints how the calls ended. Returns whether each ended as it should.
pub fn refuse_each_load<R: Threads + Wait + Sync, S: Sink>(
    rt: &HostRuntime,
    threads: &R,
    row: &Row,
    wanted: &[u8],
    out: &mut S,
) -> Result<bool, Memory> {
    let (calls, is_well) = refuse_all(rt, threads, row, wanted)?;
    let line = row.line.as_str();
    let report = if is_well {
        let loads = calls.saturating_sub(1);
        format!(in rt.alloc();
            "{line}: {loads} loads refused, each with status 10, and then status 0\n"
        )?
    } else {
        format!(in rt.alloc(); "{line}: call {calls} is wrong\n")?
    };
    let _ = out.put(report.as_bytes());
    Ok(is_well)
}
