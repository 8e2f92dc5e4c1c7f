//! The lines of a history, one after the other.
ghost use Rattle.std.specs.Prelude.{◌≡◌, ◌<◌, ◌+◌, ◌==◌, [], MatchOption, bytes_eq, length, take, drop, position};
ghost use Rattle.run_rules.specs.Reread as rule;
ghost use Rattle.history_replay.specs.Lines.{IsCut};

use memchr::memchr;
use run_rules::Format;

/// The place of the first newline.
fn newline_in(text: &[u8]) -> Option<usize>
    ensures { result ≡ position (λ b. b == 10) text.now }
{
    memchr(b'\n', text)
}

/// What is before a place, and what is after it.
fn cut_at(text: &[u8], place: usize) -> (&[u8], &[u8])
    requires { place < length text.now }
    ensures before { result.0.now ≡ take place text.now }
    ensures behind { result.1.now ≡ drop (place + 1) text.now }
{
    (&text[..place], &text[place + 1..])
}

/// The first line of a text, without its newline, and the text after it; none if nothing is left.
pub fn first_line(text: &[u8]) -> Option<(&[u8], &[u8])>
    ensures { MatchOption result (rule.history_lines text.now ≡ []) (λ p. IsCut text.now p.0.now p.1.now) }
{
    if text.is_empty() {
        return None;
    }
    match newline_in(text) {
        Some(place) => Some(cut_at(text, place)),
        None => Some((text, &[])),
    }
}

/// Whether a line is this word.
pub fn is(line: &[u8], word: &[u8]) -> bool
    ensures { result ≡ bytes_eq line.now word.now }
{
    line == word
}

/// The format of a head.
pub fn format_of(line: &[u8]) -> Option<Format>
    ensures { result ≡ rule.format_of line.now }
{
    if is(line, b"history 1") {
        Some(Format::First)
    } else if is(line, b"history 2") {
        Some(Format::Second)
    } else {
        None
    }
}
