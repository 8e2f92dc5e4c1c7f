ghost use Rattle.std.specs.Prelude.{◌≡◌, IfOk, map, option_map};
ghost use Rattle.config_rules.specs.Form.{alone, cond_form, cond_stmt, cond_word, name_of, names_of, path_of, prefix_stmt};
ghost use Rattle.cf_words.specs.Words.{piece_of};

use cf_types::{CondWord, Memory, Stmt};
use cf_words::{Known, Word, alone_name, alone_path, names_of};
use std::alloc::Global;

/// `include` or `cinclude`: a path.
pub fn include(alloc: Global, optional: bool, words: &[Word]) -> Result<Option<Stmt>, Memory>
    ensures { IfOk result (λ s. s ≡ option_map (λ path. Stmt.Include path optional) (alone path_of (map piece_of words.now))) }
{
    match alone_path(alloc, words)? {
        Some(path) => Ok(Some(Stmt::Include { path, optional })),
        None => Ok(None),
    }
}

/// `prefix`: a path, or nothing, which removes the top prefix.
pub fn prefix(alloc: Global, words: &[Word]) -> Result<Option<Stmt>, Memory>
    ensures { IfOk result (λ s. s ≡ prefix_stmt (map piece_of words.now)) }
{
    if words.is_empty() {
        return Ok(Some(Stmt::Prefix { path: None }));
    }
    match alone_path(alloc, words)? {
        Some(path) => Ok(Some(Stmt::Prefix { path: Some(path) })),
        None => Ok(None),
    }
}

/// `ifdef` and its kin: the name of an attribute or a device.
fn named_condition(alloc: Global, word: CondWord, words: &[Word]) -> Result<Option<Stmt>, Memory>
    ensures { IfOk result (λ s. s ≡ cond_stmt word (map piece_of words.now)) }
{
    match alone_name(alloc, words)? {
        Some(name) => Ok(Some(Stmt::Cond {
            word,
            name: Some(name),
        })),
        None => Ok(None),
    }
}

/// `else` or `endif`, which stand alone.
fn bare_condition(word: CondWord, words: &[Word]) -> Option<Stmt>
    ensures { result ≡ cond_word word (map piece_of words.now) }
{
    if words.is_empty() {
        Some(Stmt::Cond { word, name: None })
    } else {
        None
    }
}

/// A condition word and what follows it.
pub fn condition(alloc: Global, word: CondWord, words: &[Word]) -> Result<Option<Stmt>, Memory>
    ensures { IfOk result (λ s. s ≡ cond_form word (map piece_of words.now)) }
{
    match word {
        CondWord::IfDef | CondWord::IfNDef | CondWord::ElifDef | CondWord::ElifNDef => {
            named_condition(alloc, word, words)
        }
        CondWord::Else | CondWord::EndIf => Ok(bare_condition(word, words)),
    }
}

/// `devclass`: a name.
pub fn class(alloc: Global, words: &[Word]) -> Result<Option<Stmt>, Memory>
    ensures { IfOk result (λ s. s ≡ option_map Stmt.Class (alone name_of (map piece_of words.now))) }
{
    match alone_name(alloc, words)? {
        Some(name) => Ok(Some(Stmt::Class { name })),
        None => Ok(None),
    }
}

/// `file-system`: names.
pub fn file_systems(known: &mut Known, words: &[Word]) -> Result<Option<Stmt>, Memory>
    ensures { IfOk result (λ s. s ≡ option_map Stmt.FileSystems (names_of (map piece_of words.now))) }
{
    match names_of(known, words)? {
        Some(names) => Ok(Some(Stmt::FileSystems { names })),
        None => Ok(None),
    }
}
