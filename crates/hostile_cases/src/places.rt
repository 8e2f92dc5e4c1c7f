//! Calls in which a file is cut at each place, or one of its bytes is changed.

use crate::answer::answer_over;
use crate::ends::Ends;
use crate::files::ChangedFile;
use crate::row::Row;
use cf_io::{HostFiles, Sink};
use cf_types::Memory;
use std::alloc::Global;
use std::sync::Wait;
use std::thread::Threads;

/// What each byte is changed to.
const BYTES: [u8; 4] = [b'\n', 0, b'"', 0xff];

/// The bytes with another one at this place.
fn changed(alloc: Global, bytes: &[u8], place: usize, byte: u8) -> Result<Vec<u8>, Memory> {
    let mut changed = Vec::from_slice(alloc, bytes)?;
    if let Some(old) = changed.get_mut(place) {
        *old = byte;
    }
    Ok(changed)
}

/// What is made of the bytes at one place: those before it, and all of them with each other byte there.
fn texts_at(alloc: Global, bytes: &[u8], place: usize) -> Result<Vec<Vec<u8>>, Memory> {
    let mut texts = Vec::new(alloc);
    let front = bytes.get(..place).unwrap_or(bytes);
    texts.push(Vec::from_slice(alloc, front)?)?;
    for byte in BYTES {
        texts.push(changed(alloc, bytes, place, byte)?)?;
    }
    Ok(texts)
}

/// Calls a row with each of these texts as its file, and counts how the calls ended.
fn try_texts<R: Threads + Wait + Sync>(
    rt: &HostRuntime,
    threads: &R,
    row: &Row,
    texts: &[Vec<u8>],
    ends: &mut Ends,
) -> Result<(), Memory> {
    for text in texts {
        let mut files = ChangedFile {
            files: HostFiles::make(*rt),
            name: row.file.as_bytes(),
            bytes: text,
        };
        ends.count(&answer_over(threads, rt.alloc(), row, &mut files)?);
    }
    Ok(())
}

/// Calls a row over each text that its file becomes when it is cut or one byte is changed, and prints how the calls ended.
/// Returns whether each ended as it may.
pub fn change_each_place<R: Threads + Wait + Sync, S: Sink>(
    rt: &HostRuntime,
    threads: &R,
    row: &Row,
    bytes: &[u8],
    out: &mut S,
) -> Result<bool, Memory> {
    let mut ends = Ends::make(rt.alloc())?;
    for place in 0..bytes.len() {
        let wrong = ends.wrong();
        let texts = texts_at(rt.alloc(), bytes, place)?;
        try_texts(rt, threads, row, &texts, &mut ends)?;
        if ends.wrong() != wrong {
            let report = format!(in rt.alloc(); "{}: wrong at byte {place}\n", row.line)?;
            let _ = out.put(report.as_bytes());
        }
    }
    let report = format!(in rt.alloc(); "{}: {}\n", row.line, ends.words(rt.alloc())?)?;
    let _ = out.put(report.as_bytes());
    Ok(ends.wrong() == 0 && !bytes.is_empty())
}
