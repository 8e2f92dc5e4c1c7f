ghost use Rattle.std.specs.Prelude.{◌≡◌, ◌≤◌, [], ◌∷◌, IfOk, IsTrue, is_some, length, map};
ghost use Rattle.cf_text.specs.Shapes.{is_written};
ghost use Rattle.config_rules.specs.Form.{alone, bytes_of, name_of, names_of, path_of};
ghost use Rattle.cf_words.specs.Words.{piece_of};

use crate::known::Known;
use crate::word::{Word, count_parts, first_part};
use cf_text::is_name;
use cf_types::{Few, Memory, Name, Text};
use std::alloc::Global;

/// The greatest length of a written name.
const MAX_WRITTEN: usize = 63;

#[inline(always)]
pub fn is_written(chunk: &[u8]) -> bool
    ensures value { result ≡ is_written chunk.now }
    ensures not_empty { IsTrue result → 1 ≤ length chunk.now }
    ensures not_long { IsTrue result → length chunk.now ≤ 63 }
{
    chunk.len() <= MAX_WRITTEN && is_name(chunk)
}

/// Reads a word as a name: a chunk with the shape of a name, of at most 63 bytes.
#[inline]
pub fn name_of(alloc: Global, word: Word) -> Result<Option<Name>, Memory>
    ensures { IfOk result (λ name. name ≡ name_of (piece_of word.entry)) }
{
    if word.is_chunk() && is_written(word.text) {
        return Ok(Some(Name::make(alloc, word.text)?));
    }
    Ok(None)
}

/// Reads a word as a name, as `name_of` does; one that was read before may share its memory.
#[inline]
pub fn known_name(known: &mut Known, word: Word) -> Result<Option<Name>, Memory>
    ensures { IfOk result (λ name. name ≡ name_of (piece_of word.entry)) }
{
    if word.is_chunk() && is_written(word.text) {
        return Ok(Some(known.name(word.text)?));
    }
    Ok(None)
}

/// Reads one word alone as a name.
#[inline(always)]
pub fn alone_name(alloc: Global, words: &[Word]) -> Result<Option<Name>, Memory>
    ensures { IfOk result (λ name. name ≡ alone name_of (map piece_of words.now)) }
{
    match words {
        [word] => name_of(alloc, *word),
        _ => Ok(None),
    }
}

/// Reads one word alone as a name.
#[inline(always)]
fn alone_known(known: &mut Known, words: &[Word]) -> Result<Option<Name>, Memory>
    ensures { IfOk result (λ name. name ≡ alone name_of (map piece_of words.now)) }
{
    match words {
        [word] => known_name(known, *word),
        _ => Ok(None),
    }
}

/// Reads a word as the only name of a list.
#[tactic(auto, using(crate::proofs::NameLemmas::one_name))]
#[inline(always)]
fn only_name(known: &mut Known, word: Word) -> Result<Option<Few<Name>>, Memory>
    ensures { IfOk result (λ names. names ≡ names_of (piece_of word.entry ∷ [])) }
{
    match known_name(known, word)? {
        Some(name) => Ok(Some(Few::one(name))),
        None => Ok(None),
    }
}

/// Reads one or more names, separated by commas.
pub fn names_of(known: &mut Known, words: &[Word]) -> Result<Option<Few<Name>>, Memory>
    ensures { IfOk result (λ names. names ≡ names_of (map piece_of words.now)) }
{
    if let [word] = words {
        return only_name(known, *word);
    }
    let mut names = Vec::with_capacity(known.alloc(), count_parts(words))?;
    let mut left = Some(words);
    while let Some(rest) = left {
        let (part, behind) = first_part(rest);
        match alone_known(known, part)? {
            Some(name) => names.push(name)?,
            None => return Ok(None),
        }
        left = behind;
    }
    Ok(Some(Few::from_vec(names)))
}

/// Reads a word as the value of an option: a chunk, or a string, which may be empty.
#[inline]
pub fn bytes_of(alloc: Global, word: Word) -> Result<Option<Text>, Memory>
    ensures { IfOk result (λ bytes. bytes ≡ bytes_of (piece_of word.entry)) }
{
    if word.is_chunk() || word.is_text() {
        return Ok(Some(Text::copied(alloc, word.text)?));
    }
    Ok(None)
}

/// Reads a word as a path: a chunk, or a string that is not empty.
#[inline(always)]
fn path_of(alloc: Global, word: Word) -> Result<Option<Text>, Memory>
    ensures { IfOk result (λ path. path ≡ path_of (piece_of word.entry)) }
{
    if word.text.is_empty() {
        return Ok(None);
    }
    bytes_of(alloc, word)
}

/// Reads one word alone as a path: a chunk, or a string that is not empty.
#[inline(always)]
pub fn alone_path(alloc: Global, words: &[Word]) -> Result<Option<Text>, Memory>
    ensures { IfOk result (λ path. path ≡ alone path_of (map piece_of words.now)) }
{
    match words {
        [word] => path_of(alloc, *word),
        _ => Ok(None),
    }
}

/// Whether a word is a name: a chunk with the shape of a name, of at most 63 bytes.
#[inline(always)]
pub fn is_name_word(word: Word) -> bool
    ensures { result ≡ is_some (name_of (piece_of word.entry)) }
{
    word.is_chunk() && is_written(word.text)
}

/// Whether a word is a path: a chunk, or a string that is not empty.
#[inline(always)]
pub fn is_path_word(word: Word) -> bool
    ensures { result ≡ is_some (path_of (piece_of word.entry)) }
{
    (word.is_chunk() || word.is_text()) && !word.text.is_empty()
}
