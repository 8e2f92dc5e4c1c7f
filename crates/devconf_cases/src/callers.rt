//! A history by callers: threads may come in any order, but each caller's lines have theirs.

use cf_types::Memory;
use std::alloc::Global;

/// The most callers that a history may have.
const CALLERS: u64 = 17;

/// The caller whose line this is, if it is one of a history.
fn caller_of(line: &[u8]) -> Option<u64> {
    let text = str::from_utf8(line).ok()?;
    let (number, _) = text.split_once('.')?;
    number.parse().ok().filter(|caller| *caller < CALLERS)
}

/// Where a line belongs: before the history, to a caller, or after the history.
fn place_of(line: &[u8], begun: &mut bool) -> u64 {
    match caller_of(line) {
        Some(caller) => {
            *begun = true;
            caller.saturating_add(1)
        }
        None if *begun => CALLERS.saturating_add(1),
        None => 0,
    }
}

/// The lines of an output with those of the history by their callers, each caller's in their order.
pub fn by_callers(alloc: Global, output: &[u8]) -> Result<Vec<u8>, Memory> {
    let mut lines = Vec::new(alloc);
    let mut begun = false;
    for line in output.split_inclusive(|byte| *byte == b'\n') {
        lines.push((place_of(line, &mut begun), line))?;
    }
    lines.sort_by_key(|(place, _)| *place)?;
    let mut text = Vec::new(alloc);
    for (_, line) in &lines {
        text.extend_from_slice(line)?;
    }
    Ok(text)
}
