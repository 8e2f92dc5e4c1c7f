//! Checks lines that are not cut into tokens: nothing is kept of them.
ghost use Rattle.std.specs.Prelude.{◌≡◌, ◌<◌, ◌≤◌, ◌+◌, IfOk, IfSome, IsTrue, drop, length, slice_index};
ghost use Rattle.std.specs.List.{prefix_len};
ghost use Rattle.cf_lexer.specs.Check.{ByteGoes, Tells, TellsFault, code_of, fault_from};
ghost use Rattle.cf_lexer.specs.Front.{is_plain_byte};
ghost use Rattle.cf_lexer.specs.Lines.{bytes_behind, first_of, lines_from, rest_of};

use crate::front::{front_part, is_plain_byte};
use crate::line::LexStop;

/// Whether there are four bytes, and the first four are blanks, marks or bytes of chunks.
#[inline(always)]
fn are_four_plain(bytes: &[u8]) -> bool
    ensures { IsTrue result → 4 ≤ prefix_len is_plain_byte bytes.now }
{
    let [a, b, c, d, ..] = bytes else {
        return false;
    };
    is_plain_byte(*a) && is_plain_byte(*b) && is_plain_byte(*c) && is_plain_byte(*d)
}

/// How many blanks, marks and bytes of chunks are at the beginning, byte by byte.
#[inline(always)]
fn short_plain_len(bytes: &[u8]) -> usize
    ensures len { result ≡ prefix_len is_plain_byte bytes.now }
    ensures within { result ≤ length bytes.now }
{
    bytes
        .iter()
        .take_while(|&&byte| is_plain_byte(byte))
        .count()
}

/// How many blanks, marks and bytes of chunks are at the beginning. Four at a time take less than one after the other.
#[inline(always)]
fn plain_len(bytes: &[u8]) -> usize
    ensures len { result ≡ prefix_len is_plain_byte bytes.now }
    ensures within { result ≤ length bytes.now }
{
    let mut len = 0;
    while are_four_plain(&bytes[len..]) {
        len += 4;
    }
    len + short_plain_len(&bytes[len..])
}

/// How long what begins there is: a run of blanks, marks and chunks, a string, a comment or `+=`. `None` for a newline;
/// the error is the code of what is none of these.
#[inline(always)]
fn part_len(text: &[u8], place: usize) -> Result<Option<usize>, u8>
    requires { place < length text.now }
    ensures { ByteGoes (slice_index text.now place) (bytes_behind text.now place) result }
{
    let first = text[place];
    if is_plain_byte(first) {
        return Ok(Some(plain_len(&text[place + 1..]) + 1));
    }
    if first == b'\n' {
        return Ok(None);
    }
    match front_part(first, &text[place + 1..]) {
        Ok(front) => Ok(Some(front.len)),
        Err(code) => Err(code),
    }
}

/// Checks the line that begins there, and returns where the next line begins, if there is one; or the code of the line.
#[inline(always)]
fn check_line(text: &[u8], start: usize) -> Result<Option<usize>, u8>
    requires start { start ≤ length text.now }
    requires short { length text.now ≤ 1048576 }
    ensures code { Tells (code_of (first_of (drop start text.now))) result }
    ensures behind { IfOk result (λ left. rest_of (drop start text.now) ≡ lines_from text.now left) }
    ensures further { IfOk result (λ left. IfSome left (λ next. (start < next) × (next ≤ length text.now))) }
{
    let mut place = start;
    while place < text.len() {
        match part_len(text, place) {
            Ok(Some(len)) => place += len,
            Ok(None) => return Ok(Some(place + 1)),
            Err(code) => return Err(code),
        }
    }
    Ok(None)
}

/// Checks the lines from this place on, the first of which has this number. The error has the line and the code of the
/// first that cannot be cut.
pub fn check(text: &[u8], number: u32, start: usize) -> Result<(), LexStop>
    requires start { start ≤ length text.now }
    requires short { length text.now ≤ 1048576 }
    requires number { number ≤ start + 1 }
    ensures { TellsFault (fault_from text.now number start) result }
{
    let mut line = number;
    let mut left = Some(start);
    while let Some(place) = left {
        match check_line(text, place) {
            Ok(next) => left = next,
            Err(code) => return Err(LexStop::Fault { line, code }),
        }
        line += 1;
    }
    Ok(())
}
