ghost use Rattle.std.specs.Prelude.{◌≡◌, ◌==◌, false, ◌+◌, ◌<◌, ◌≤◌, ◌∷◌, [], ◌++◌, ◌^◌, drop, length, slice_index, IfOk, IfSome, OnOk};
ghost use Rattle.config_rules.specs.Cut.{parts_of, token};
ghost use Rattle.cf_lexer.specs.Line.{GoesOn, Leaves, PartGoes, span_tokens, with_line};
ghost use Rattle.cf_lexer.specs.Lines.{bytes_behind, first_of, lines_from, rest_of};

use crate::front::{Span, chunk_end, front_part, is_blank_byte, is_chunk_byte, is_mark_byte};
use cf_types::{Memory as NoMemory, Token, TokenKind};
use thiserror::Error;

/// Why a text could not be cut into tokens.
#[derive(Clone, Copy, Debug, PartialEq, Eq, Error)]
pub enum LexStop {
    /// The line of the first faulty byte, counted from 1, and its code: `BAD_BYTE` for a byte that is not allowed,
    /// `OPEN_STRING` for the end of the line within a string.
    #[error("line {line}: code {code}")]
    Fault { line: u32, code: u8 },
    /// Memory ran out.
    #[error("out of memory")]
    Memory,
}

impl From<NoMemory> for LexStop {
    ghost use Rattle.std.specs.Prelude.{◌≡◌};
    ghost use Rattle.cf_lexer.specs.declared.line.LexStop.TheVariants.{Memory};

    ghost from_gives = { λ _ e. e ≡ Memory };

    fn from(_error: NoMemory) -> LexStop {
        LexStop::Memory
    }
}

/// Appends a token. Memory is asked for only if there is no room.
#[inline(always)]
pub fn push_token(tokens: &mut Vec<Token>, token: Token) -> Result<(), NoMemory>
    ensures { OnOk result (tokens.new.items ≡ tokens.old.items ++ token ∷ []) }
{
    if tokens.len() >= tokens.capacity() {
        tokens.reserve(1)?;
    }
    tokens.push_reserved(token);
    Ok(())
}

/// Appends the token of a part that begins at this place of the text, if it has one.
#[inline(always)]
fn push_span(
    tokens: &mut Vec<Token>,
    line: u32,
    at: u32,
    span: Option<Span>,
) -> Result<(), NoMemory>
    requires { IfSome span (λ s. (at + s.start < 2 ^ 32) × (at + s.end < 2 ^ 32)) }
    ensures { OnOk result (tokens.new.items ≡ tokens.old.items ++ span_tokens line at span) }
{
    if let Some(span) = span {
        let token = Token {
            kind: span.kind,
            start: at + span.start as u32,
            end: at + span.end as u32,
            line,
        };
        push_token(tokens, token)?;
    }
    Ok(())
}

/// Appends the token of a part of this kind that begins at this place of the text and ends there.
#[inline(always)]
fn push_kind(
    tokens: &mut Vec<Token>,
    line: u32,
    kind: TokenKind,
    start: usize,
    end: usize,
) -> Result<(), NoMemory>
    requires { (start < 2 ^ 32) × (end < 2 ^ 32) }
    ensures { OnOk result (tokens.new.items ≡ tokens.old.items ++ token kind start end line ∷ []) }
{
    let token = Token {
        kind,
        start: start as u32,
        end: end as u32,
        line,
    };
    push_token(tokens, token)
}

/// Appends the token of a part of a rare kind, and returns how long the part is.
#[cold]
fn push_rare(
    tokens: &mut Vec<Token>,
    line: u32,
    at: u32,
    first: u8,
    more: &[u8],
) -> Result<usize, LexStop>
    requires { at + length more.now + 1 < 2 ^ 32 }
    ensures { GoesOn tokens.old.items line at (first ∷ first_of more.now) result tokens.new.items }
{
    let front = match front_part(first, more) {
        Ok(front) => front,
        Err(code) => return Err(LexStop::Fault { line, code }),
    };
    push_span(tokens, line, at, front.token)?;
    Ok(front.len)
}

/// The same by the place of the part in its text; returns the place behind it. Only a rare part makes room for what
/// `push_rare` answers.
#[inline(always)]
fn push_rare_at(
    tokens: &mut Vec<Token>,
    line: u32,
    text: &[u8],
    place: usize,
) -> Result<Option<usize>, LexStop>
    requires within { place < length text.now }
    requires short { length text.now ≤ 1048576 }
    requires first { (slice_index text.now place == 10) ≡ false }
    ensures { PartGoes tokens.old.items line place (slice_index text.now place) (bytes_behind text.now place) result tokens.new.items }
{
    match push_rare(tokens, line, place as u32, text[place], &text[place + 1..]) {
        Ok(len) => Ok(Some(place + len)),
        Err(stop) => Err(stop),
    }
}

/// Appends the token of the part of a text that begins there, if it has one, and returns the place behind the part;
/// `None` for a newline, which is no part of a line.
#[inline(always)]
fn push_part(
    tokens: &mut Vec<Token>,
    line: u32,
    text: &[u8],
    place: usize,
) -> Result<Option<usize>, LexStop>
    requires within { place < length text.now }
    requires short { length text.now ≤ 1048576 }
    ensures { PartGoes tokens.old.items line place (slice_index text.now place) (bytes_behind text.now place) result tokens.new.items }
{
    let first = text[place];
    if is_chunk_byte(first) {
        let end = chunk_end(text, place + 1);
        push_kind(tokens, line, TokenKind::Chunk, place, end)?;
        return Ok(Some(end));
    }
    if is_blank_byte(first) {
        return Ok(Some(place + 1));
    }
    if first == b'\n' {
        return Ok(None);
    }
    if is_mark_byte(first) {
        push_kind(tokens, line, TokenKind::Mark, place, place + 1)?;
        return Ok(Some(place + 1));
    }
    push_rare_at(tokens, line, text, place)
}

/// Appends the tokens of the line that begins there, and returns where the next line begins, if there is one.
#[inline(always)]
pub fn cut_line(
    tokens: &mut Vec<Token>,
    line: u32,
    text: &[u8],
    start: usize,
) -> Result<Option<usize>, LexStop>
    requires start { start ≤ length text.now }
    requires short { length text.now ≤ 1048576 }
    ensures tokens { Leaves (with_line tokens.old.items line start (parts_of (first_of (drop start text.now)))) line result tokens.new.items }
    ensures behind { IfOk result (λ left. rest_of (drop start text.now) ≡ lines_from text.now left) }
    ensures further { IfOk result (λ left. IfSome left (λ next. (start < next) × (next ≤ length text.now))) }
{
    let mut place = start;
    while place < text.len() {
        match push_part(tokens, line, text, place) {
            Ok(Some(next)) => place = next,
            Ok(None) => return Ok(Some(place + 1)),
            Err(stop) => return Err(stop),
        }
    }
    Ok(None)
}
