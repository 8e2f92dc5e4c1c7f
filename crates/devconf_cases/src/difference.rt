//! Where an answer differs from what is wanted.

use crate::case::Answer;
use crate::run::Wanted;
use cf_types::{Memory, put_bytes, put_decimal};

/// A line of a text, or `None` after its last one.
type Line<'a> = Option<&'a [u8]>;

/// The first line that differs.
#[derive(Clone, Copy)]
struct Difference<'a> {
    /// Its number, counted from 1.
    number: i64,
    wanted: Line<'a>,
    got: Line<'a>,
}

/// The first line in which two texts differ.
fn first_difference<'a>(wanted: &'a [u8], got: &'a [u8]) -> Option<Difference<'a>> {
    let mut wanted = wanted.split(|byte| *byte == b'\n');
    let mut got = got.split(|byte| *byte == b'\n');
    for number in 1..i64::MAX {
        let (wanted, got) = (wanted.next(), got.next());
        if wanted != got {
            return Some(Difference {
                number,
                wanted,
                got,
            });
        }
        if wanted.is_none() {
            return None;
        }
    }
    None
}

fn put_line(report: &mut Vec<u8>, head: &[u8], line: Line<'_>) -> Result<(), Memory> {
    report.extend_from_slice(head)?;
    report.extend_from_slice(line.unwrap_or(b"(nothing)"))?;
    report.push(b'\n')?;
    Ok(())
}

/// Appends where a text differs from what is wanted, unless it is the same.
fn put_text_difference(
    report: &mut Vec<u8>,
    what: &[u8],
    wanted: &[u8],
    got: &[u8],
) -> Result<(), Memory> {
    let Some(difference) = first_difference(wanted, got) else {
        return Ok(());
    };
    report.extend_from_slice(b"  line ")?;
    put_decimal(report, difference.number)?;
    put_line(report, b" of ", Some(what))?;
    put_line(report, b"    wanted: ", difference.wanted)?;
    put_line(report, b"    got:    ", difference.got)
}

fn put_status_difference(report: &mut Vec<u8>, wanted: u64, got: u64) -> Result<(), Memory> {
    if wanted == got {
        return Ok(());
    }
    let line = format!(in *report.allocator(); "  status {got}, where {wanted} is wanted\n")?;
    put_bytes(report, line.as_bytes())
}

/// Appends the name of a case and where its answer differs, unless it is the one that is wanted.
pub fn put_differences(
    wanted: &Wanted,
    got: &Answer,
    topic: &str,
    report: &mut Vec<u8>,
) -> Result<(), Memory> {
    let Wanted { name, answer } = wanted;
    let mut lines = Vec::new(*report.allocator());
    put_text_difference(&mut lines, b"the output", &answer.output, &got.output)?;
    put_text_difference(&mut lines, b"standard error", &answer.errors, &got.errors)?;
    put_status_difference(&mut lines, answer.status, got.status)?;
    if !lines.is_empty() {
        let head = format!(in *report.allocator(); "{topic}: {name}\n")?;
        report.extend_from_slice(head.as_bytes())?;
        report.extend_from_slice(&lines)?;
    }
    Ok(())
}
