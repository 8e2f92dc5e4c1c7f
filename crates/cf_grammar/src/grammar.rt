ghost use Rattle.std.specs.Prelude.{◌≡◌, IfErr, IfOk, OnOk, false, is_some, map, true};
ghost use Rattle.config_rules.specs.Cut.{piece, pieces};
ghost use Rattle.config_rules.specs.Form.{Form, form_of};
ghost use Rattle.cf_words.specs.Words.{piece_of};
ghost use Rattle.cf_grammar.specs.Keywords.{first_keyword};
ghost use Rattle.cf_grammar.specs.Statement.{AreWithin, IsFaultOf, IsWithin, are_short, unread_code};

use crate::fault::is_left_out;
use crate::file::file;
use crate::form::form_of;
use crate::keyword::first_keyword;
use cf_types::code::configuration as code;
use cf_types::{Keyword, Memory, Stmt, Token};
use cf_words::{Known, Word};
use std::alloc::AllocError;
use std::mem::replace;
use thiserror::Error;

/// The greatest length of a token, in bytes.
pub const MAX_TOKEN: usize = 1023;

/// Why tokens gave no statement.
#[derive(Clone, Copy, Debug, PartialEq, Eq, Error)]
pub enum GrammarStop {
    /// The tokens have none of the forms of config(5), with the code of the fault: `OUT_OF_RANGE` for a number, unit or
    /// count, `NO_FORM` for any other form, `LEFT_OUT` for a statement or a locator that is left out.
    #[error("code {code}")]
    Fault { code: u8 },
    /// Out of memory.
    #[error("out of memory")]
    Memory,
}

impl From<Memory> for GrammarStop {
    ghost use Rattle.cf_grammar.specs.declared.grammar.GrammarStop.TheVariants as stops;

    ghost from_gives = { λ _ stop. stop ≡ stops.Memory };

    fn from(_memory: Memory) -> GrammarStop {
        GrammarStop::Memory
    }
}

impl From<AllocError> for GrammarStop {
    ghost use Rattle.cf_grammar.specs.declared.grammar.GrammarStop.TheVariants as stops;

    ghost from_gives = { λ _ stop. stop ≡ stops.Memory };

    fn from(_error: AllocError) -> GrammarStop {
        GrammarStop::Memory
    }
}

/// A token with its bytes.
#[inline(always)]
pub fn word_of<'a>(text: &'a [u8], token: Token) -> Word<'a>
    requires { IsWithin text.now token }
    ensures { piece_of result ≡ piece text.now token }
{
    Word {
        kind: token.kind,
        text: &text[token.start as usize..token.end as usize],
    }
}

/// Replaces the words by the tokens with their bytes, and returns whether none is longer than a token may be. The
/// vector is held in a local meanwhile, so that its room is not looked up for each token; inlined into the caller, the
/// loop would be longer.
#[inline(never)]
fn put_words<'a>(
    words: &mut Vec<Word<'a>>,
    text: &'a [u8],
    tokens: &[Token],
) -> Result<bool, AllocError>
    requires { AreWithin text.now tokens.now }
    ensures words { OnOk result (map piece_of words.new.items ≡ pieces text.now tokens.now) }
    ensures short { IfOk result (λ short. short ≡ are_short (pieces text.now tokens.now)) }
{
    let mut room = replace(words, Vec::new(*words.allocator()));
    room.clear();
    room.reserve(tokens.len())?;
    let mut short = true;
    for &token in tokens {
        let word = word_of(text, token);
        short &= word.text.len() <= MAX_TOKEN;
        room.push_reserved(word);
    }
    *words = room;
    Ok(short)
}

/// Whether words are a statement, whatever its numbers.
fn has_form(known: &mut Known, keyword: Option<Keyword>, words: &[Word]) -> Result<bool, Memory>
    requires keyword { keyword ≡ first_keyword (map piece_of words.now) }
    requires short { are_short (map piece_of words.now) ≡ true }
    ensures { IfOk result (λ holds. holds ≡ is_some (form_of false (map piece_of words.now))) }
{
    let form = form_of(known, false, keyword, words)?;
    let holds = form.is_some();
    drop(form);
    Ok(holds)
}

/// The code of words that are no statement in which every number is in its range.
#[cold]
fn unread_code(known: &mut Known, keyword: Option<Keyword>, words: &[Word]) -> Result<u8, Memory>
    requires keyword { keyword ≡ first_keyword (map piece_of words.now) }
    requires short { are_short (map piece_of words.now) ≡ true }
    ensures { IfOk result (λ code. code ≡ unread_code (map piece_of words.now)) }
{
    if has_form(known, keyword, words)? {
        Ok(code::OUT_OF_RANGE)
    } else {
        Ok(code::NO_FORM)
    }
}

/// The statement that words are; `short` says that none is longer than a token may be.
#[inline(always)]
fn read(known: &mut Known, short: bool, words: &[Word]) -> Result<Stmt, GrammarStop>
    requires { short ≡ are_short (map piece_of words.now) }
    ensures form { IfOk result (λ s. Form (map piece_of words.now) s) }
    ensures fault { IfErr result (λ stop. IsFaultOf (map piece_of words.now) stop) }
{
    let keyword = first_keyword(words);
    if is_left_out(keyword, words) {
        return Err(GrammarStop::Fault {
            code: code::LEFT_OUT,
        });
    }
    if !short {
        return Err(GrammarStop::Fault {
            code: code::NO_FORM,
        });
    }
    match form_of(known, true, keyword, words)? {
        Some(stmt) => Ok(stmt),
        None => Err(GrammarStop::Fault {
            code: unread_code(known, keyword, words)?,
        }),
    }
}

/// Reads the tokens of one statement, without its `Stop`, as the statement that they are. Their spans are within the
/// text, as those from `cut` are. The error is the first of the codes `LEFT_OUT`, `NO_FORM` and `OUT_OF_RANGE` that
/// applies to the tokens by the grammar of config(5) as it is read here, or `Memory`. The words replace what was there;
/// for many statements, pass the same vector and the same names, so that equal names share their memory.
#[inline(always)]
pub fn statement<'a>(
    known: &mut Known,
    words: &mut Vec<Word<'a>>,
    text: &'a [u8],
    tokens: &[Token],
) -> Result<Stmt, GrammarStop>
    requires { AreWithin text.now tokens.now }
    ensures form { IfOk result (λ s. Form (pieces text.now tokens.now) s) }
    ensures fault { IfErr result (λ stop. IsFaultOf (pieces text.now tokens.now) stop) }
{
    if let Some(stmt) = file(known, text, tokens)? {
        return Ok(stmt);
    }
    let short = put_words(words, text, tokens)?;
    read(known, short, words)
}
