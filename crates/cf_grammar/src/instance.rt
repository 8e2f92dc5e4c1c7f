ghost use Rattle.std.specs.Prelude.{◌≡◌, ◌∷◌, IfOk, map, option_and_then, option_map, ◌==◌};
ghost use Rattle.config_rules.specs.Form.{given, given_value, inst_stmt, pair_of, pairs_of, value_of};
ghost use Rattle.cf_words.specs.Words.{piece_of};
ghost use Rattle.cf_grammar.specs.Pairs.{opened_by, parts_of};

use cf_types::{AtSpec, GivenLoc, List, Memory, Stmt};
use cf_words::{Known, MarkedUnit, Word, known_name, place_of, unit_chunk, value_of};

/// What an instance gives after its place: the locators in written order, and the flags.
#[derive(Drop)]
pub struct Pairs {
    pub pairs: List<GivenLoc>,
    pub flags: i64,
}

/// The value of a locator: a number, or `None` if `?` is written.
#[inline(always)]
fn given_value(sized: bool, word: Word) -> Option<Option<i64>>
    ensures { result ≡ given_value sized (piece_of word.entry) }
{
    if word.is_word(b"?") {
        return Some(None);
    }
    match value_of(sized, word) {
        Some(value) => Some(Some(value)),
        None => None,
    }
}

/// A name and its value.
#[inline(always)]
fn pair_of(
    known: &mut Known,
    sized: bool,
    name: Word,
    value: Word,
) -> Result<Option<GivenLoc>, Memory>
    ensures { IfOk result (λ pair. pair ≡ pair_of sized (piece_of name.entry) (piece_of value.entry)) }
{
    let Some(name) = known_name(known, name)? else {
        return Ok(None);
    };
    match given_value(sized, value) {
        Some(value) => Ok(Some(GivenLoc { name, value })),
        None => Ok(None),
    }
}

/// The value after `flags`, which must be the last: no word may follow it.
#[inline(always)]
fn flags_of(sized: bool, value: Word, behind: usize) -> Option<i64>
    ensures { result ≡ option_and_then (λ value. given (behind == 0) value) (value_of sized (piece_of value.entry)) }
{
    let value = value_of(sized, value)?;
    if behind == 0 { Some(value) } else { None }
}

/// Names with their values, and perhaps `flags` with its own at the end.
fn pairs_of(known: &mut Known, sized: bool, words: &[Word]) -> Result<Option<Pairs>, Memory>
    ensures { IfOk result (λ pairs. option_map parts_of pairs ≡ pairs_of sized (map piece_of words.now)) }
{
    let mut pairs = List::from_vec(Vec::with_capacity(known.alloc(), words.len() / 2)?);
    let mut place = 0;
    while place + 1 < words.len() {
        let name = words[place];
        let value = words[place + 1];
        if name.is_word(b"flags") {
            return match flags_of(sized, value, words.len() - (place + 2)) {
                Some(flags) => Ok(Some(Pairs { pairs, flags })),
                None => Ok(None),
            };
        }
        match pair_of(known, sized, name, value)? {
            Some(pair) => pairs.push(pair)?,
            None => return Ok(None),
        }
        place += 2;
    }
    if place == words.len() {
        Ok(Some(Pairs { pairs, flags: 0 }))
    } else {
        Ok(None)
    }
}

/// The instance of a unit, what it attaches to, and its pairs.
#[inline(always)]
fn with_pairs(
    known: &mut Known,
    sized: bool,
    unit: MarkedUnit,
    at: AtSpec,
    words: &[Word],
) -> Result<Option<Stmt>, Memory>
    ensures { IfOk result (λ s. s ≡ option_map (λ rest. Stmt.Inst unit.base unit.mark at rest.0 rest.1) (pairs_of sized (map piece_of words.now))) }
{
    let MarkedUnit { base, mark } = unit;
    match pairs_of(known, sized, words)? {
        Some(Pairs { pairs, flags }) => Ok(Some(Stmt::Inst {
            base,
            mark,
            at,
            pairs,
            flags,
        })),
        None => Ok(None),
    }
}

/// The words with which an instance begins: its unit, `at`, and what it attaches to.
#[derive(Clone, Copy)]
struct Opening<'a> {
    unit: Word<'a>,
    at: Word<'a>,
    place: Word<'a>,
}

/// The instance of three words and its pairs.
#[inline(always)]
fn instance_of(
    known: &mut Known,
    sized: bool,
    opening: Opening<'_>,
    words: &[Word],
) -> Result<Option<Stmt>, Memory>
    ensures { IfOk result (λ s. s ≡ inst_stmt sized (opened_by opening.entry (map piece_of words.now))) }
{
    let Opening { unit, at, place } = opening;
    if !at.is_word(b"at") {
        return Ok(None);
    }
    let Some(unit) = unit_chunk(known, sized, unit)? else {
        return Ok(None);
    };
    let Some(at) = place_of(known, sized, place)? else {
        return Ok(None);
    };
    with_pairs(known, sized, unit, at, words)
}

/// A device instance: a unit, `at`, what it attaches to, and values of locators.
#[inline(always)]
pub fn instance(known: &mut Known, sized: bool, words: &[Word]) -> Result<Option<Stmt>, Memory>
    ensures { IfOk result (λ s. s ≡ inst_stmt sized (map piece_of words.now)) }
{
    match words {
        [unit, at, place, rest @ ..] => {
            let opening = Opening {
                unit: *unit,
                at: *at,
                place: *place,
            };
            instance_of(known, sized, opening, rest)
        }
        _ => Ok(None),
    }
}
