//! What is left of a text from a statement on, which is cut statement by statement, or passed over.
ghost use Rattle.std.specs.Prelude.{◌≡◌, ◌<◌, ◌≤◌, ◌++◌, IfOk, IfSome, OnOk, Ok, None, Some, drop, length, true};
ghost use Rattle.config_rules.specs.Cut.{parts_of, stop_behind};
ghost use Rattle.cf_lexer.specs.Check.{code_of};
ghost use Rattle.cf_lexer.specs.Fourth.{is_fourth};
ghost use Rattle.cf_lexer.specs.Line.{with_line};
ghost use Rattle.cf_lexer.specs.Lines.{begins, first_of, lines_from, rest_of};
ghost use Rattle.cf_lexer.specs.Rest.{IsNext, IsRest, MayRest, Passes, is_closed, is_condition_word, names_condition, rest_tokens};

use crate::front::{chunk_len, is_blank_byte};
use crate::line::{LexStop, cut_line, push_token};
use cf_types::{List, Memory as NoMemory, Token, TokenKind};
use memchr::memchr;

/// Where what is not cut yet of a text begins: the place of a line that begins a statement, and its number, counted from 1.
#[derive(Clone, Copy)]
pub struct Rest {
    pub line: u32,
    pub place: usize,
}

/// The tokens of a text, with a `Stop` after those of each statement, up to its rest, if it has one.
#[derive(Drop)]
pub struct Cutting {
    pub tokens: List<Token>,
    pub rest: Option<Rest>,
}

/// Whether a chunk is a condition word.
fn is_condition_word(chunk: &[u8]) -> bool
    ensures { result ≡ is_condition_word chunk.now }
{
    chunk == b"ifdef".as_slice()
        || chunk == b"ifndef".as_slice()
        || chunk == b"elifdef".as_slice()
        || chunk == b"elifndef".as_slice()
        || chunk == b"else".as_slice()
        || chunk == b"endif".as_slice()
}

/// Whether a condition word has this byte at its fourth place.
#[inline(always)]
fn is_fourth(byte: u8) -> bool
    ensures { result ≡ is_fourth byte }
{
    byte == b'd' || byte == b'e' || byte == b'f' || byte == b'i'
}

/// Whether a text begins with a chunk that is a condition word. Few chunks have the first and the fourth byte of such a
/// word.
#[tactic(auto, using(crate::proofs::WordLemmas::other_fourth))]
#[inline(always)]
fn names_condition(text: &[u8]) -> bool
    ensures { result ≡ names_condition text.now }
{
    match text {
        [b'e' | b'i', _, _, fourth, ..] => {
            is_fourth(*fourth) && is_condition_word(&text[..chunk_len(text)])
        }
        _ => false,
    }
}

/// Whether the line of a text that begins there begins a statement, unless it is blank: it begins with no space, tab or
/// comment.
#[inline(always)]
pub fn begins(text: &[u8], start: usize) -> bool
    requires { start ≤ length text.now }
    ensures { result ≡ begins (first_of (drop start text.now)) }
{
    if start == text.len() {
        return false;
    }
    let first = text[start];
    !is_blank_byte(first) && first != b'#' && first != b'\n'
}

/// Appends a stop after the last token, if there is one.
#[inline]
pub fn push_stop(tokens: &mut Vec<Token>) -> Result<(), NoMemory>
    ensures { OnOk result (tokens.new.items ≡ tokens.old.items ++ stop_behind tokens.old.items) }
{
    if let Some(last) = tokens.last() {
        let stop = Token {
            kind: TokenKind::Stop,
            start: last.end,
            end: last.end,
            line: last.line,
        };
        push_token(tokens, stop)?;
    }
    Ok(())
}

/// Where the next line begins, if there is one.
#[inline(always)]
fn next_line(text: &[u8], start: usize) -> Option<usize>
    requires { start ≤ length text.now }
    ensures behind { rest_of (drop start text.now) ≡ lines_from text.now result }
    ensures further { IfSome result (λ next. (start < next) × (next ≤ length text.now)) }
{
    match memchr(b'\n', &text[start..]) {
        Some(len) => Some(start + len + 1),
        None => None,
    }
}

/// Where the statement after the first one of the rest begins, if there is one.
fn next_statement(text: &[u8], rest: Rest) -> Option<Rest>
    requires { IsRest text.now rest }
    ensures { IsNext text.now rest result }
{
    let mut line = rest.line;
    let mut left = next_line(text, rest.place);
    while let Some(place) = left {
        line += 1;
        if begins(text, place) {
            return Some(Rest { line, place });
        }
        left = next_line(text, place);
    }
    None
}

/// The rest from its first statement on that begins with a condition word, if there is one. The statements before that
/// are not cut into tokens.
pub fn skip(text: &[u8], rest: Rest) -> Option<Rest>
    requires { IsRest text.now rest }
    ensures rest { MayRest text.now result }
    ensures passes { Passes text.now (rest_tokens text.now (Some rest)) (rest_tokens text.now result) }
{
    let mut left = Some(rest);
    while let Some(next) = left {
        if names_condition(&text[next.place..]) {
            return left;
        }
        left = next_statement(text, next);
    }
    None
}

/// Appends the tokens of the line that begins there, which can be cut, and returns where the next line begins, if there
/// is one. Inlined into the caller, which calls it twice, the loop would stand there twice.
#[inline(never)]
fn cut_checked(
    tokens: &mut Vec<Token>,
    line: u32,
    text: &[u8],
    start: usize,
) -> Result<Option<usize>, NoMemory>
    requires start { start ≤ length text.now }
    requires short { length text.now ≤ 1048576 }
    requires good { code_of (first_of (drop start text.now)) ≡ None }
    ensures tokens { OnOk result (with_line tokens.old.items line start (parts_of (first_of (drop start text.now))) ≡ Ok tokens.new.items) }
    ensures behind { IfOk result (λ left. rest_of (drop start text.now) ≡ lines_from text.now left) }
    ensures further { IfOk result (λ left. IfSome left (λ next. (start < next) × (next ≤ length text.now))) }
{
    match cut_line(tokens, line, text, start) {
        Ok(left) => Ok(left),
        Err(LexStop::Memory) => Err(NoMemory),
        Err(LexStop::Fault { .. }) => unreachable!(),
    }
}

/// Replaces the tokens by those of the first statement of the rest, with their stop, and returns what is left after it.
pub fn cut_statement(
    tokens: &mut Vec<Token>,
    text: &[u8],
    rest: Rest,
) -> Result<Option<Rest>, NoMemory>
    requires { IsRest text.now rest }
    ensures rest { IfOk result (MayRest text.now) }
    ensures some { OnOk result (1 ≤ length tokens.new.items) }
    ensures closed { OnOk result (is_closed tokens.new.items ≡ true) }
    ensures whole { IfOk result (λ left. tokens.new.items ++ rest_tokens text.now left ≡ rest_tokens text.now (Some rest)) }
{
    tokens.clear();
    let mut line = rest.line;
    let mut left = cut_checked(tokens, line, text, rest.place)?;
    while let Some(place) = left {
        line += 1;
        if begins(text, place) {
            push_stop(tokens)?;
            return Ok(Some(Rest { line, place }));
        }
        left = cut_checked(tokens, line, text, place)?;
    }
    push_stop(tokens)?;
    Ok(None)
}
