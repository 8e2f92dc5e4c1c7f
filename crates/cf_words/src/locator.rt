ghost use Rattle.std.specs.Prelude.{◌≡◌, ◌&&◌, IfOk, codes, map, Some};
ghost use Rattle.config_rules.specs.Form.{each, is_mark, locator_name, locator_of, locators_of, parted, with_default};
ghost use Rattle.cf_words.specs.Words.{piece_of};

use crate::known::Known;
use crate::name::known_name;
use crate::value::value_of;
use crate::word::{Word, count_parts, first_part};
use cf_types::{List, Locator, Memory, Name};

/// The most locators of an attribute.
const MAX_LOCATORS: usize = 16;

/// A name other than `flags`.
fn locator_name(known: &mut Known, word: Word) -> Result<Option<Name>, Memory>
    ensures { IfOk result (λ name. name ≡ locator_name (piece_of word.entry)) }
{
    if word.is_word(b"flags") {
        return Ok(None);
    }
    known_name(known, word)
}

/// The words of a locator with a default: its name, `=` and the number.
#[derive(Clone, Copy)]
struct Defaulted<'a> {
    name: Word<'a>,
    equals: Word<'a>,
    value: Word<'a>,
}

/// A locator with a default: a name, `=` and a number.
#[inline(always)]
fn with_default(
    known: &mut Known,
    sized: bool,
    optional: bool,
    words: Defaulted<'_>,
) -> Result<Option<Locator>, Memory>
    ensures { IfOk result (λ l. l ≡ with_default sized optional (piece_of words.entry.name) (piece_of words.entry.equals) (piece_of words.entry.value)) }
{
    let Defaulted {
        name,
        equals,
        value,
    } = words;
    if !equals.is_mark(b"=") {
        return Ok(None);
    }
    let Some(name) = locator_name(known, name)? else {
        return Ok(None);
    };
    let Some(value) = value_of(sized, value) else {
        return Ok(None);
    };
    Ok(Some(Locator {
        name,
        default: Some(value),
        optional,
    }))
}

fn is_bracketed(first: Word, last: Word) -> bool
    ensures { result ≡ (is_mark (codes "[") (piece_of first.entry) && is_mark (codes "]") (piece_of last.entry)) }
{
    first.is_mark(b"[") && last.is_mark(b"]")
}

/// A locator: a name, a name with a default, or either in brackets, if it is optional.
fn locator_of(known: &mut Known, sized: bool, words: &[Word]) -> Result<Option<Locator>, Memory>
    ensures { IfOk result (λ l. l ≡ locator_of sized (map piece_of words.now)) }
{
    match words {
        [name] => match locator_name(known, *name)? {
            Some(name) => Ok(Some(Locator {
                name,
                default: None,
                optional: false,
            })),
            None => Ok(None),
        },
        [name, equals, value] => {
            let words = Defaulted {
                name: *name,
                equals: *equals,
                value: *value,
            };
            with_default(known, sized, false, words)
        }
        [open_bracket, name, equals, value, close_bracket] => {
            if !is_bracketed(*open_bracket, *close_bracket) {
                return Ok(None);
            }
            let words = Defaulted {
                name: *name,
                equals: *equals,
                value: *value,
            };
            with_default(known, sized, true, words)
        }
        _ => Ok(None),
    }
}

/// The locators between commas.
fn each_locator(
    known: &mut Known,
    sized: bool,
    words: &[Word],
) -> Result<Option<List<Locator>>, Memory>
    ensures { IfOk result (λ locs. locs ≡ each (locator_of sized) (parted (map piece_of words.now))) }
{
    let mut locs = Vec::with_capacity(known.alloc(), count_parts(words))?;
    let mut left = Some(words);
    while let Some(rest) = left {
        let (part, behind) = first_part(rest);
        match locator_of(known, sized, part)? {
            Some(loc) => locs.push(loc)?,
            None => return Ok(None),
        }
        left = behind;
    }
    Ok(Some(List::from_vec(locs)))
}

/// Reads what is between braces: nothing, or up to 16 locators, separated by commas.
pub fn locators_of(
    known: &mut Known,
    sized: bool,
    words: &[Word],
) -> Result<Option<List<Locator>>, Memory>
    ensures { IfOk result (λ locs. locs ≡ locators_of sized (map piece_of words.now)) }
{
    if words.is_empty() {
        return Ok(Some(List::make(known.alloc())));
    }
    match each_locator(known, sized, words)? {
        Some(locs) => if locs.len() <= MAX_LOCATORS {
            Ok(Some(locs))
        } else {
            Ok(None)
        },
        None => Ok(None),
    }
}
