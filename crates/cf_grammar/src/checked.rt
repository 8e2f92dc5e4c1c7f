ghost use Rattle.std.specs.Prelude.{◌≡◌, ◌||◌, ◌&&◌, ◌==◌, IfOk, codes, is_some, length, map, true};
ghost use Rattle.config_rules.specs.Form.{alone, are_chunks, are_values, checked, each, form_by, free_form, is_config};
ghost use Rattle.config_rules.specs.Form.{is_word, name_of, name_row, path_of, pseudo_stmt, spelling_of, value_of};
ghost use Rattle.cf_words.specs.Words.{piece_of};

use crate::keyword::spelling;
use cf_types::{Keyword, Memory, PieceList, Stmt};
use cf_words::{Known, Word, count_of, is_name_word, is_path_word, name_of, value_of};
use std::alloc::Global;

/// `pseudo-device`: a name, optionally with a count from 1 to 65,535.
pub fn pseudo_device(alloc: Global, sized: bool, words: &[Word]) -> Result<Option<Stmt>, Memory>
    ensures { IfOk result (λ s. s ≡ pseudo_stmt sized (map piece_of words.now)) }
{
    match words {
        [name] => match name_of(alloc, *name)? {
            Some(name) => Ok(Some(Stmt::PseudoDevice { name, count: 1 })),
            None => Ok(None),
        },
        [name, count] => {
            let Some(name) = name_of(alloc, *name)? else {
                return Ok(None);
            };
            match count_of(sized, *count) {
                Some(count) => Ok(Some(Stmt::PseudoDevice { name, count })),
                None => Ok(None),
            }
        }
        _ => Ok(None),
    }
}

fn is_value(sized: bool, word: Word) -> bool
    ensures { result ≡ is_some (value_of sized (piece_of word.entry)) }
{
    value_of(sized, word).is_some()
}

fn are_values(sized: bool, words: &[Word]) -> bool
    ensures { result ≡ are_values sized (map piece_of words.now) }
{
    words.iter().all(|&word| is_value(sized, word))
}

/// One or more chunks.
fn are_chunks(words: &[Word]) -> bool
    ensures { result ≡ are_chunks (map piece_of words.now) }
{
    !words.is_empty() && words.iter().all(|word| word.is_chunk())
}

fn are_names(words: &[Word]) -> bool
    ensures { result ≡ is_some (each name_of (map piece_of words.now)) }
{
    words.iter().all(|&word| is_name_word(word))
}

fn is_one_or_three(count: usize) -> bool
    ensures { result ≡ (count == 1 || count == 3) }
{
    count == 1 || count == 3
}

fn is_max_users(sized: bool, words: &[Word]) -> bool
    ensures { result ≡ ((length (map piece_of words.now) == 1 || length (map piece_of words.now) == 3) && are_values sized (map piece_of words.now)) }
{
    is_one_or_three(words.len()) && are_values(sized, words)
}

fn is_max_partitions(sized: bool, words: &[Word]) -> bool
    ensures { result ≡ (length (map piece_of words.now) == 1 && are_values sized (map piece_of words.now)) }
{
    words.len() == 1 && are_values(sized, words)
}

fn is_machine(words: &[Word]) -> bool
    ensures { result ≡ is_some (name_row (map piece_of words.now)) }
{
    !words.is_empty() && are_names(words)
}

fn is_ident(words: &[Word]) -> bool
    ensures { result ≡ is_some (alone path_of (map piece_of words.now)) }
{
    match words {
        [word] => is_path_word(*word),
        _ => false,
    }
}

/// Whether these are a name, `root` and `on`.
fn names_root(name: Word, root: Word, on: Word) -> bool
    ensures { result ≡ (is_some (name_of (piece_of name.entry)) && is_word (codes "root") (piece_of root.entry) && is_word (codes "on") (piece_of on.entry)) }
{
    is_name_word(name) && root.is_word(b"root") && on.is_word(b"on")
}

fn is_config(words: &[Word]) -> bool
    ensures { result ≡ is_config (map piece_of words.now) }
{
    match words {
        [name, root, on, rest @ ..] => names_root(*name, *root, *on) && are_chunks(rest),
        _ => false,
    }
}

/// A statement of which only the form is checked.
fn checked(known: &mut Known, keyword: Keyword, holds: bool) -> Result<Option<Stmt>, Memory>
    ensures { IfOk result (λ s. s ≡ checked (spelling_of keyword) holds) }
{
    if !holds {
        return Ok(None);
    }
    let word = known.name(spelling(keyword))?;
    Ok(Some(Stmt::Checked { word }))
}

/// `maxusers`: one number or three.
pub fn max_users(known: &mut Known, sized: bool, words: &[Word]) -> Result<Option<Stmt>, Memory>
    ensures { IfOk result (λ s. s ≡ form_by Keyword.MaxUsers sized (map piece_of words.now)) }
{
    checked(known, Keyword::MaxUsers, is_max_users(sized, words))
}

/// `maxpartitions`: a number.
pub fn max_partitions(
    known: &mut Known,
    sized: bool,
    words: &[Word],
) -> Result<Option<Stmt>, Memory>
    ensures { IfOk result (λ s. s ≡ form_by Keyword.MaxPartitions sized (map piece_of words.now)) }
{
    checked(
        known,
        Keyword::MaxPartitions,
        is_max_partitions(sized, words),
    )
}

/// `machine`: one or more names.
pub fn machine(known: &mut Known, words: &[Word]) -> Result<Option<Stmt>, Memory>
    ensures { IfOk result (λ s. s ≡ form_by Keyword.Machine true (map piece_of words.now)) }
{
    checked(known, Keyword::Machine, is_machine(words))
}

/// `ident`: a path.
pub fn ident(known: &mut Known, words: &[Word]) -> Result<Option<Stmt>, Memory>
    ensures { IfOk result (λ s. s ≡ form_by Keyword.Ident true (map piece_of words.now)) }
{
    checked(known, Keyword::Ident, is_ident(words))
}

/// `config`: a name, `root`, `on` and one or more chunks.
pub fn config(known: &mut Known, words: &[Word]) -> Result<Option<Stmt>, Memory>
    ensures { IfOk result (λ s. s ≡ form_by Keyword.Config true (map piece_of words.now)) }
{
    checked(known, Keyword::Config, is_config(words))
}

/// How many bytes these words have.
#[inline(always)]
fn byte_count(words: &[Word]) -> usize {
    let mut count: usize = 0;
    for word in words {
        count = count.saturating_add(word.text.len());
    }
    count
}

#[inline(always)]
fn pieces(alloc: Global, words: &[Word]) -> Result<PieceList, Memory>
    ensures { IfOk result (λ pieces. pieces ≡ map piece_of words.now) }
{
    let mut pieces = PieceList::with_room(alloc, words.len(), byte_count(words))?;
    for word in words {
        pieces.push(word.kind, word.text)?;
    }
    Ok(pieces)
}

/// A statement that may have any words, at least one.
#[inline(always)]
pub fn free(known: &mut Known, keyword: Keyword, words: &[Word]) -> Result<Option<Stmt>, Memory>
    ensures { IfOk result (λ s. s ≡ free_form (spelling_of keyword) true (map piece_of words.now)) }
{
    if words.is_empty() {
        return Ok(None);
    }
    let list = pieces(known.alloc(), words)?;
    let rest = known.share(list)?;
    let word = known.name(spelling(keyword))?;
    Ok(Some(Stmt::Free { word, rest }))
}
