//! Reads a `file` statement: its path, its condition, its flags and its rule.
ghost use Rattle.std.specs.Prelude.{◌≡◌, ◌<◌, bytes_eq, codes, drop, IfOk, is_some, length, option_map, take_while, not};
ghost use Rattle.std.specs.List.{before_first, position_or_len, prefix_len};
ghost use Rattle.std.specs.Option.{option_copied};
ghost use Rattle.config_rules.specs.Form.{path_of};
ghost use Rattle.config_rules.specs.Select.{has_name};
ghost use Rattle.file_rules.specs.Sources.{condition_in, ends_condition, file_pieces, is_flag, is_rule, is_tail, path_in};
ghost use Rattle.file_select.specs.Findings.{Finds, JudgesOptional};

use crate::condition::{ConditionAnswer, judge};
use crate::symbol::word_of;
use crate::texts::TextSet;
use cf_types::code::configuration as code;
use cf_types::{Memory, PieceView, Pieces, Stmt};
use cf_words::is_path_word;
use std::alloc::Global;

/// What a `file` statement is found to be.
#[derive(Clone, Copy)]
pub enum Finding {
    /// It has this code.
    Bad(u8),
    /// It has no code, and its source is selected or not.
    Good(bool),
}

/// What follows the first word of a statement, if it is a `file` statement.
pub fn file_pieces(stmt: &Stmt) -> Option<&Pieces>
    ensures { option_copied result ≡ file_pieces stmt.now }
{
    match stmt {
        Stmt::Free { word, rest } if word.bytes() == b"file".as_slice() => Some(rest),
        _ => None,
    }
}

fn is_flag(piece: &PieceView<'_>) -> bool
    ensures { result ≡ is_flag piece.now }
{
    let word = word_of(piece);
    word.is_word(b"needs-flag") || word.is_word(b"needs-count")
}

fn ends_condition(piece: &PieceView<'_>) -> bool
    ensures { result ≡ ends_condition piece.now }
{
    is_flag(piece) || word_of(piece).is_word(b"compile-with")
}

fn is_path(piece: &PieceView<'_>) -> bool
    ensures { result ≡ is_some (path_of piece.now) }
{
    is_path_word(word_of(piece))
}

fn is_rule(pieces: &[PieceView<'_>]) -> bool
    ensures { result ≡ is_rule pieces.now }
{
    match pieces {
        [] => true,
        [word, path] => word_of(word).is_word(b"compile-with") && is_path(path),
        _ => false,
    }
}

/// How many flags come first.
fn count_flags(pieces: &[PieceView<'_>]) -> usize
    ensures { result ≡ prefix_len is_flag pieces.now }
{
    pieces.iter().take_while(|piece| is_flag(piece)).count()
}

/// How many tokens come before the first that ends a condition.
fn count_condition(pieces: &[PieceView<'_>]) -> usize
    ensures { result ≡ position_or_len ends_condition pieces.now }
{
    pieces
        .iter()
        .take_while(|piece| !ends_condition(piece))
        .count()
}

/// Whether the tokens are flags, and then perhaps a rule.
fn is_tail(pieces: &[PieceView<'_>]) -> bool
    ensures { result ≡ is_tail pieces.now }
{
    let (_, behind) = pieces.split_at(count_flags(pieces));
    is_rule(behind)
}

/// The tokens of the condition, and those after it.
fn split_condition<'t, 'a>(
    pieces: &'t [PieceView<'a>],
) -> (&'t [PieceView<'a>], &'t [PieceView<'a>])
    ensures condition { result.0.now ≡ before_first ends_condition pieces.now }
    ensures behind { result.1.now ≡ drop (position_or_len ends_condition pieces.now) pieces.now }
{
    pieces.split_at(count_condition(pieces))
}

/// What a condition is found to be; a missing one is true.
fn judge_optional(
    alloc: Global,
    names: &TextSet,
    pieces: &[PieceView<'_>],
) -> Result<ConditionAnswer, Memory>
    ensures { IfOk result (JudgesOptional (has_name names.now) pieces.now) }
{
    if pieces.is_empty() {
        return Ok(ConditionAnswer::Value(true));
    }
    judge(alloc, names, pieces)
}

/// Whether a path comes first.
fn has_path(pieces: &[PieceView<'_>]) -> bool
    ensures { result ≡ is_some (path_in pieces.now) }
{
    match pieces.first() {
        Some(piece) => is_path(piece),
        None => false,
    }
}

/// What follows the first token.
fn behind_path<'t, 'a>(pieces: &'t [PieceView<'a>]) -> &'t [PieceView<'a>]
    ensures { result.now ≡ drop 1 pieces.now }
{
    match pieces {
        [_, rest @ ..] => rest,
        [] => pieces,
    }
}

/// What a `file` statement is found to be by what follows its first word, if these names are chosen.
pub fn find(alloc: Global, names: &TextSet, pieces: &[PieceView<'_>]) -> Result<Finding, Memory>
    ensures { IfOk result (Finds (has_name names.now) pieces.now) }
{
    if !has_path(pieces) {
        return Ok(Finding::Bad(code::NO_PATH));
    }
    let (condition, behind) = split_condition(behind_path(pieces));
    if !is_tail(behind) {
        return Ok(Finding::Bad(code::NO_CONDITION));
    }
    match judge_optional(alloc, names, condition)? {
        ConditionAnswer::NoForm => Ok(Finding::Bad(code::NO_CONDITION)),
        ConditionAnswer::TooDeep => Ok(Finding::Bad(code::TOO_DEEP)),
        ConditionAnswer::Value(selected) => Ok(Finding::Good(selected)),
    }
}
