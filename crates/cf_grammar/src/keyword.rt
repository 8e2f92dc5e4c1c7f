ghost use Rattle.std.specs.Prelude.{◌≡◌, ◌≤◌, find, length, map};
ghost use Rattle.config_rules.specs.Form.{condition_spelling, given, is_word, spelling_of};
ghost use Rattle.cf_grammar.specs.Keywords.{first_keyword, keyword_in, looks};
ghost use Rattle.cf_types.specs.declared.keyword.TheConstants.{KEYWORDS};
ghost use Rattle.cf_words.specs.Words.{piece_of};

use cf_types::{CondWord, Keyword};
use cf_words::Word;

/// How a condition word is written, in at most 80 bytes.
#[inline]
pub fn condition_spelling(word: CondWord) -> &'static [u8]
    ensures bytes { result.now ≡ condition_spelling word }
    ensures not_empty { 1 ≤ length result.now }
    ensures not_long { length result.now ≤ 80 }
{
    match word {
        CondWord::IfDef => b"ifdef",
        CondWord::IfNDef => b"ifndef",
        CondWord::ElifDef => b"elifdef",
        CondWord::ElifNDef => b"elifndef",
        CondWord::Else => b"else",
        CondWord::EndIf => b"endif",
    }
}

/// How a keyword is written, in at most 80 bytes.
#[inline]
pub fn spelling(keyword: Keyword) -> &'static [u8]
    ensures bytes { result.now ≡ spelling_of keyword }
    ensures not_empty { 1 ≤ length result.now }
    ensures not_long { length result.now ≤ 80 }
{
    match keyword {
        Keyword::Include => b"include",
        Keyword::CInclude => b"cinclude",
        Keyword::Prefix => b"prefix",
        Keyword::Condition(word) => condition_spelling(word),
        Keyword::Define => b"define",
        Keyword::DevClass => b"devclass",
        Keyword::DefPseudo => b"defpseudo",
        Keyword::Device => b"device",
        Keyword::Attach => b"attach",
        Keyword::No => b"no",
        Keyword::Options => b"options",
        Keyword::MakeOptions => b"makeoptions",
        Keyword::FileSystem => b"file-system",
        Keyword::PseudoDevice => b"pseudo-device",
        Keyword::MaxUsers => b"maxusers",
        Keyword::MaxPartitions => b"maxpartitions",
        Keyword::Machine => b"machine",
        Keyword::Ident => b"ident",
        Keyword::Config => b"config",
        Keyword::DefFlag => b"defflag",
        Keyword::DefParam => b"defparam",
        Keyword::DefFs => b"deffs",
        Keyword::File => b"file",
        Keyword::DeviceMajor => b"device-major",
        Keyword::Version => b"version",
        Keyword::Obsolete => b"obsolete",
    }
}

/// This keyword, if the word is it.
#[inline(always)]
fn if_spelled(word: Word, keyword: Keyword) -> Option<Keyword>
    ensures { result ≡ given (is_word (spelling_of keyword) (piece_of word.entry)) keyword }
{
    if word.is_word(spelling(keyword)) {
        Some(keyword)
    } else {
        None
    }
}

/// The keyword with this first byte, this third byte and this size. No two have all three in common.
#[inline(always)]
fn keyword_by(first: u8, third: u8, size: usize) -> Option<Keyword>
    requires { 3 ≤ size }
    ensures { result ≡ find (looks first third size) KEYWORDS }
{
    match (first, third, size) {
        (b'a', b't', 6) => Some(Keyword::Attach),
        (b'c', b'n', 6) => Some(Keyword::Config),
        (b'c', b'n', 8) => Some(Keyword::CInclude),
        (b'd', b'f', 5) => Some(Keyword::DefFs),
        (b'd', b'f', 6) => Some(Keyword::Define),
        (b'd', b'f', 7) => Some(Keyword::DefFlag),
        (b'd', b'f', 8) => Some(Keyword::DefParam),
        (b'd', b'f', 9) => Some(Keyword::DefPseudo),
        (b'd', b'v', 6) => Some(Keyword::Device),
        (b'd', b'v', 8) => Some(Keyword::DevClass),
        (b'd', b'v', 12) => Some(Keyword::DeviceMajor),
        (b'e', b'd', 5) => Some(Keyword::Condition(CondWord::EndIf)),
        (b'e', b'i', 7) => Some(Keyword::Condition(CondWord::ElifDef)),
        (b'e', b'i', 8) => Some(Keyword::Condition(CondWord::ElifNDef)),
        (b'e', b's', 4) => Some(Keyword::Condition(CondWord::Else)),
        (b'f', b'l', 4) => Some(Keyword::File),
        (b'f', b'l', 11) => Some(Keyword::FileSystem),
        (b'i', b'c', 7) => Some(Keyword::Include),
        (b'i', b'd', 5) => Some(Keyword::Condition(CondWord::IfDef)),
        (b'i', b'e', 5) => Some(Keyword::Ident),
        (b'i', b'n', 6) => Some(Keyword::Condition(CondWord::IfNDef)),
        (b'm', b'c', 7) => Some(Keyword::Machine),
        (b'm', b'k', 11) => Some(Keyword::MakeOptions),
        (b'm', b'x', 8) => Some(Keyword::MaxUsers),
        (b'm', b'x', 13) => Some(Keyword::MaxPartitions),
        (b'o', b's', 8) => Some(Keyword::Obsolete),
        (b'o', b't', 7) => Some(Keyword::Options),
        (b'p', b'e', 6) => Some(Keyword::Prefix),
        (b'p', b'e', 13) => Some(Keyword::PseudoDevice),
        (b'v', b'r', 7) => Some(Keyword::Version),
        _ => None,
    }
}

/// The keyword that a word is. Only `no` has fewer than three bytes.
#[inline]
fn keyword_of(word: Word) -> Option<Keyword>
    ensures { result ≡ keyword_in (piece_of word.entry) }
{
    match word.text {
        [first, _, third, ..] => {
            let keyword = keyword_by(*first, *third, word.text.len())?;
            if_spelled(word, keyword)
        }
        _ => if_spelled(word, Keyword::No),
    }
}

/// The keyword with which a statement of these words begins.
#[inline]
pub fn first_keyword(words: &[Word]) -> Option<Keyword>
    ensures { result ≡ first_keyword (map piece_of words.now) }
{
    match words {
        [first, ..] => keyword_of(*first),
        [] => None,
    }
}
