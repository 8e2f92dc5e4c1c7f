ghost use Rattle.std.specs.Prelude.{◌≡◌, ◌||◌, ◌&&◌, drop, map};
ghost use Rattle.config_rules.specs.Form.{braced, has_named_text, has_text_or_size, is_left_out, is_word, may_name_locator};
ghost use Rattle.cf_words.specs.Words.{piece_of};
ghost use Rattle.cf_grammar.specs.Keywords.{defines, first_keyword, keyword_in};
ghost use Rattle.cf_grammar.specs.LeftOut.{begins_named_text, begins_size_or_text, begins_text, begins_text_or_size};
ghost use Rattle.cf_grammar.specs.LeftOut.{gives_text, is_left_out_statement, is_left_out_word, left_out_spelling};

use cf_text::is_name;
use cf_types::Keyword;
use cf_words::{Word, behind_first, split_before};

/// The first word of a statement that this language leaves out.
#[derive(Clone, Copy)]
pub enum LeftOut {
    Package,
    Object,
    IoConf,
    Select,
    PseudoRoot,
    BuildPrefix,
}

pub const LEFT_OUT: [LeftOut; 6] = [
    LeftOut::Package,
    LeftOut::Object,
    LeftOut::IoConf,
    LeftOut::Select,
    LeftOut::PseudoRoot,
    LeftOut::BuildPrefix,
];

#[inline(always)]
fn left_out_spelling(left_out: LeftOut) -> &'static [u8]
    ensures { result.now ≡ left_out_spelling left_out }
{
    match left_out {
        LeftOut::Package => b"package",
        LeftOut::Object => b"object",
        LeftOut::IoConf => b"ioconf",
        LeftOut::Select => b"select",
        LeftOut::PseudoRoot => b"pseudo-root",
        LeftOut::BuildPrefix => b"buildprefix",
    }
}

#[inline(always)]
fn spells_left_out(word: Word, left_out: LeftOut) -> bool
    ensures { result ≡ is_word (left_out_spelling left_out) (piece_of word.entry) }
{
    word.is_word(left_out_spelling(left_out))
}

#[inline(always)]
fn is_left_out_word(word: Word) -> bool
    ensures { result ≡ is_left_out_word (piece_of word.entry) }
{
    match word.text {
        [b'b' | b'i' | b'o' | b'p' | b's', ..] => LEFT_OUT
            .iter()
            .any(|&left_out| spells_left_out(word, left_out)),
        _ => false,
    }
}

/// A chunk with the shape of a name, of any length, other than `flags`.
#[inline(always)]
fn may_name_locator(word: Word) -> bool
    ensures { result ≡ may_name_locator (piece_of word.entry) }
{
    word.is_chunk() && is_name(word.text) && word.text != b"flags".as_slice()
}

/// Whether the first word is a string.
#[inline(always)]
fn begins_text(words: &[Word]) -> bool
    ensures { result ≡ begins_text (map piece_of words.now) }
{
    match words {
        [word, ..] => word.is_text(),
        [] => false,
    }
}

/// Whether the first word may name a locator and a string follows it.
#[inline(always)]
fn begins_named_text(words: &[Word]) -> bool
    ensures { result ≡ begins_named_text (map piece_of words.now) }
{
    match words {
        [name, rest @ ..] => begins_text(rest) && may_name_locator(*name),
        [] => false,
    }
}

/// Whether `[` follows, or `=` and a string.
#[inline(always)]
fn begins_size_or_text(words: &[Word]) -> bool
    ensures { result ≡ begins_size_or_text (map piece_of words.now) }
{
    match words {
        [sign, rest @ ..] => sign.is_mark(b"[") || (sign.is_mark(b"=") && begins_text(rest)),
        [] => false,
    }
}

/// Whether the first word may name a locator, and a size or a string is written after it.
#[inline(always)]
fn begins_text_or_size(words: &[Word]) -> bool
    ensures { result ≡ begins_text_or_size (map piece_of words.now) }
{
    match words {
        [name, rest @ ..] => begins_size_or_text(rest) && may_name_locator(*name),
        [] => false,
    }
}

/// Whether somewhere a string directly follows the name of a locator.
fn has_named_text(words: &[Word]) -> bool
    ensures { result ≡ has_named_text (map piece_of words.now) }
{
    for place in 0..words.len() {
        if begins_named_text(&words[place..]) {
            return true;
        }
    }
    false
}

/// Whether somewhere a size or a string is written after the name of a locator.
fn has_text_or_size(words: &[Word]) -> bool
    ensures { result ≡ has_text_or_size (map piece_of words.now) }
{
    for place in 0..words.len() {
        if begins_text_or_size(&words[place..]) {
            return true;
        }
    }
    false
}

/// What is between the first `{` and the next `}`, or the end.
#[inline(always)]
fn braced<'w, 'a>(words: &'w [Word<'a>]) -> &'w [Word<'a>]
    ensures { map piece_of result.now ≡ braced (map piece_of words.now) }
{
    split_before(behind_first(words, b"{"), b"}").0
}

#[inline(always)]
fn behind_two<'w, 'a>(words: &'w [Word<'a>]) -> &'w [Word<'a>]
    ensures { map piece_of result.now ≡ drop 2 (map piece_of words.now) }
{
    match words {
        [_, _, rest @ ..] => rest,
        _ => &[],
    }
}

/// Whether the statements of a keyword may have a list of locators.
#[inline(always)]
fn defines(keyword: Keyword) -> bool
    ensures { result ≡ defines keyword }
{
    matches!(
        keyword,
        Keyword::Define | Keyword::DefPseudo | Keyword::Device
    )
}

/// Whether a word that is no keyword begins an instance that gives a locator a string.
#[inline(always)]
fn gives_text(first: Word, rest: &[Word]) -> bool
    ensures { result ≡ gives_text (piece_of first.entry) (map piece_of rest.now) }
{
    first.is_chunk() && has_named_text(behind_two(rest))
}

/// Whether a statement with this first word is left out: because of that word, if it is no keyword; because an instance
/// gives a locator a string; or because a definition gives one a string or a size.
#[inline(always)]
fn is_left_out_statement(first: Word, keyword: Option<Keyword>, rest: &[Word]) -> bool
    requires { keyword ≡ keyword_in (piece_of first) }
    ensures { result ≡ is_left_out_statement (piece_of first.entry) (map piece_of rest.now) }
{
    match keyword {
        None => is_left_out_word(first) || gives_text(first, rest),
        Some(keyword) => defines(keyword) && has_text_or_size(braced(rest)),
    }
}

/// Whether the words are a statement that this language leaves out, because of its first word, or because one of its
/// locators has a string or a size. The first word is this keyword, or no keyword.
#[inline(always)]
pub fn is_left_out(keyword: Option<Keyword>, words: &[Word]) -> bool
    requires { keyword ≡ first_keyword (map piece_of words.now) }
    ensures { result ≡ is_left_out (map piece_of words.now) }
{
    match words {
        [first, rest @ ..] => is_left_out_statement(*first, keyword, rest),
        [] => false,
    }
}
