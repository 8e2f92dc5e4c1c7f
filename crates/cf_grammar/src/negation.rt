ghost use Rattle.std.specs.Prelude.{◌≡◌, IfOk, [], ◌∷◌, map, option_map};
ghost use Rattle.config_rules.specs.Form.{alone, at_place, is_word, name_of, names_of, no_inst, no_stmt};
ghost use Rattle.cf_words.specs.Words.{piece_of};
ghost use Rattle.cf_grammar.specs.Negation.{negated_of, negated_spelling, no_by_unit, no_by_word};

use cf_types::{AtSpec, Few, ItemKind, Memory, Name, Stmt, UnitMark};
use cf_words::{Known, MarkedUnit, Word, alone_name, names_of, place_of, unit_chunk};

/// `at` and what an instance attaches to.
#[inline(always)]
fn at_place(known: &mut Known, sized: bool, words: &[Word]) -> Result<Option<AtSpec>, Memory>
    ensures { IfOk result (λ at. at ≡ at_place sized (map piece_of words.now)) }
{
    let [at, place] = words else {
        return Ok(None);
    };
    if !at.is_word(b"at") {
        return Ok(None);
    }
    place_of(known, sized, *place)
}

/// An instance that is taken back, optionally with what it attaches to.
#[inline(always)]
fn no_instance(
    known: &mut Known,
    sized: bool,
    base: Name,
    mark: UnitMark,
    words: &[Word],
) -> Result<Option<Stmt>, Memory>
    ensures { IfOk result (λ s. s ≡ no_inst sized base mark (map piece_of words.now)) }
{
    if words.is_empty() {
        return Ok(Some(Stmt::NoInst {
            base,
            mark,
            at: None,
        }));
    }
    match at_place(known, sized, words)? {
        Some(at) => Ok(Some(Stmt::NoInst {
            base,
            mark,
            at: Some(at),
        })),
        None => Ok(None),
    }
}

/// Items that are taken back by name.
#[inline(always)]
fn no_items(known: &mut Known, kind: ItemKind, words: &[Word]) -> Result<Option<Stmt>, Memory>
    ensures { IfOk result (λ s. s ≡ option_map (Stmt.NoItems kind) (names_of (map piece_of words.now))) }
{
    match names_of(known, words)? {
        Some(names) => Ok(Some(Stmt::NoItems { kind, names })),
        None => Ok(None),
    }
}

/// A pseudo-device that is taken back.
#[inline(always)]
fn no_pseudo_device(known: &mut Known, words: &[Word]) -> Result<Option<Stmt>, Memory>
    ensures { IfOk result (λ s. s ≡ option_map (λ name. Stmt.NoItems ItemKind.PseudoDevice (name ∷ [])) (alone name_of (map piece_of words.now))) }
{
    let Some(name) = alone_name(known.alloc(), words)? else {
        return Ok(None);
    };
    Ok(Some(Stmt::NoItems {
        kind: ItemKind::PseudoDevice,
        names: Few::one(name),
    }))
}

/// All instances at a place that are taken back.
#[inline(always)]
fn no_device(known: &mut Known, sized: bool, words: &[Word]) -> Result<Option<Stmt>, Memory>
    ensures { IfOk result (λ s. s ≡ option_map Stmt.NoDevice (at_place sized (map piece_of words.now))) }
{
    match at_place(known, sized, words)? {
        Some(at) => Ok(Some(Stmt::NoDevice { at })),
        None => Ok(None),
    }
}

/// What follows `no` and has a word of its own.
#[derive(Clone, Copy)]
pub enum Negated {
    Options,
    MakeOptions,
    FileSystem,
    PseudoDevice,
    Device,
}

pub const NEGATED: [Negated; 5] = [
    Negated::Options,
    Negated::MakeOptions,
    Negated::FileSystem,
    Negated::PseudoDevice,
    Negated::Device,
];

#[inline(always)]
fn negated_spelling(negated: Negated) -> &'static [u8]
    ensures { result.now ≡ negated_spelling negated }
{
    match negated {
        Negated::Options => b"options",
        Negated::MakeOptions => b"makeoptions",
        Negated::FileSystem => b"file-system",
        Negated::PseudoDevice => b"pseudo-device",
        Negated::Device => b"device",
    }
}

#[inline(always)]
fn spells_negated(word: Word, negated: Negated) -> bool
    ensures { result ≡ is_word (negated_spelling negated) (piece_of word.entry) }
{
    word.is_word(negated_spelling(negated))
}

#[inline(always)]
fn negated_of(word: Word) -> Option<Negated>
    ensures { result ≡ negated_of (piece_of word.entry) }
{
    match word.text {
        [b'o' | b'm' | b'f' | b'p' | b'd', ..] => NEGATED
            .iter()
            .copied()
            .find(|&negated| spells_negated(word, negated)),
        _ => None,
    }
}

/// What is taken back by a word of its own.
#[inline(always)]
fn no_by_word(
    known: &mut Known,
    sized: bool,
    negated: Negated,
    words: &[Word],
) -> Result<Option<Stmt>, Memory>
    ensures { IfOk result (λ s. s ≡ no_by_word negated sized (map piece_of words.now)) }
{
    match negated {
        Negated::Options => no_items(known, ItemKind::Options, words),
        Negated::MakeOptions => no_items(known, ItemKind::MakeOptions, words),
        Negated::FileSystem => no_items(known, ItemKind::FileSystem, words),
        Negated::PseudoDevice => no_pseudo_device(known, words),
        Negated::Device => no_device(known, sized, words),
    }
}

/// What is taken back by its unit.
#[inline(always)]
fn no_by_unit(
    known: &mut Known,
    sized: bool,
    unit: Word,
    words: &[Word],
) -> Result<Option<Stmt>, Memory>
    ensures { IfOk result (λ s. s ≡ no_by_unit sized (piece_of unit.entry) (map piece_of words.now)) }
{
    match unit_chunk(known, sized, unit)? {
        Some(MarkedUnit { base, mark }) => no_instance(known, sized, base, mark, words),
        None => Ok(None),
    }
}

/// `no` and what it takes back: items by name, instances at a place, or an instance.
#[inline(always)]
pub fn negation(known: &mut Known, sized: bool, words: &[Word]) -> Result<Option<Stmt>, Memory>
    ensures { IfOk result (λ s. s ≡ no_stmt sized (map piece_of words.now)) }
{
    let [first, rest @ ..] = words else {
        return Ok(None);
    };
    match negated_of(*first) {
        Some(negated) => no_by_word(known, sized, negated, rest),
        None => no_by_unit(known, sized, *first, rest),
    }
}
