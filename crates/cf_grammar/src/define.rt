ghost use Rattle.std.specs.Prelude.{◌≡◌, IfOk, Some, codes, map, option_and_then, option_map};
ghost use Rattle.cf_text.specs.Shapes.{ends_with_digit};
ghost use Rattle.config_rules.specs.Form.{defining, device_stmt, locators_of, needs_of, parted_at, with_body};
ghost use Rattle.cf_words.specs.Words.{piece_of};
ghost use Rattle.cf_grammar.specs.Define.{made};

use cf_types::{Few, List, Locator, Memory, Name, Stmt};
use cf_words::{Known, Word, known_name, locators_of, names_of, parted_at};

/// What a statement with a list of locators and of attributes defines.
#[derive(Clone, Copy)]
pub enum Defines {
    Attribute,
    PseudoDevice,
    Device,
}

#[inline(always)]
fn make(defines: Defines, name: Name, locs: Option<List<Locator>>, needs: Few<Name>) -> Stmt
    ensures { result ≡ made defines name locs needs }
{
    match defines {
        Defines::Attribute => Stmt::Define { name, locs, needs },
        Defines::PseudoDevice => Stmt::DefPseudo { name, locs, needs },
        Defines::Device => Stmt::Device { name, locs, needs },
    }
}

/// The attributes after a colon, or none.
#[inline(always)]
pub fn needs_of(known: &mut Known, words: &[Word]) -> Result<Option<Few<Name>>, Memory>
    ensures { IfOk result (λ needs. needs ≡ needs_of (map piece_of words.now)) }
{
    match words {
        [] => Ok(Some(Few::none(known.alloc()))),
        [colon, names @ ..] => {
            if !colon.is_mark(b":") {
                return Ok(None);
            }
            names_of(known, names)
        }
    }
}

/// The locators up to the closing brace, and the attributes after it.
#[inline(always)]
fn with_locators(
    known: &mut Known,
    sized: bool,
    defines: Defines,
    name: Name,
    words: &[Word],
) -> Result<Option<Stmt>, Memory>
    ensures { IfOk result (λ s. s ≡ option_and_then (λ parts.
        option_and_then (λ locs. option_map (made defines name (Some locs)) (needs_of parts.1)) (locators_of sized parts.0))
        (parted_at (codes "}") (map piece_of words.now))) }
{
    let Some((locs, needs)) = parted_at(words, b"}") else {
        return Ok(None);
    };
    let Some(locs) = locators_of(known, sized, locs)? else {
        return Ok(None);
    };
    match needs_of(known, needs)? {
        Some(needs) => Ok(Some(make(defines, name, Some(locs), needs))),
        None => Ok(None),
    }
}

/// The locators in braces, if there are any, and the attributes after a colon.
#[inline(always)]
fn with_body(
    known: &mut Known,
    sized: bool,
    defines: Defines,
    name: Name,
    words: &[Word],
) -> Result<Option<Stmt>, Memory>
    ensures { IfOk result (λ s. s ≡ with_body sized (made defines name) (map piece_of words.now)) }
{
    if let [brace, rest @ ..] = words {
        if brace.is_mark(b"{") {
            return with_locators(known, sized, defines, name, rest);
        }
    }
    match needs_of(known, words)? {
        Some(needs) => Ok(Some(make(defines, name, None, needs))),
        None => Ok(None),
    }
}

/// `define` or `defpseudo`: a name, optionally locators in braces, and optionally attributes after a colon.
pub fn defining(
    known: &mut Known,
    sized: bool,
    defines: Defines,
    words: &[Word],
) -> Result<Option<Stmt>, Memory>
    ensures { IfOk result (λ s. s ≡ defining sized (made defines) (map piece_of words.now)) }
{
    let [name, body @ ..] = words else {
        return Ok(None);
    };
    match known_name(known, *name)? {
        Some(name) => with_body(known, sized, defines, name, body),
        None => Ok(None),
    }
}

#[inline(always)]
fn ends_with_digit(name: &[u8]) -> bool
    ensures { result ≡ ends_with_digit name.now }
{
    match name {
        [.., last] => last.is_ascii_digit(),
        [] => false,
    }
}

/// `device`: as `define`, with a name that does not end with a digit.
pub fn device(known: &mut Known, sized: bool, words: &[Word]) -> Result<Option<Stmt>, Memory>
    ensures { IfOk result (λ s. s ≡ device_stmt sized (map piece_of words.now)) }
{
    if let [name, ..] = words {
        if ends_with_digit(name.text) {
            return Ok(None);
        }
    }
    defining(known, sized, Defines::Device, words)
}
