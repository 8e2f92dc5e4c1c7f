ghost use Rattle.std.specs.Prelude.{◌≡◌, IfOk, option_map};
ghost use Rattle.cf_text.specs.Shapes.{base_before};
ghost use Rattle.config_rules.specs.Form.{fixed_of, marked_of, place_of, unit_chunk};
ghost use Rattle.cf_words.specs.Words.{piece_of, unit_number};
ghost use Rattle.cf_words.specs.Units.{fixed_parts, unit_parts};

use crate::known::Known;
use crate::name::is_written;
use crate::word::Word;
use cf_text::{MAX_UNIT, base_len, read_decimal};
use cf_types::{AtSpec, Memory, Name, UnitMark};

/// A base and the number after it, as in `com0`.
#[derive(Drop)]
struct FixedUnit {
    base: Name,
    unit: u32,
}

/// The base and the unit of a device instance, as in `com0` or `com*`; the unit is at most 65,535.
#[derive(Drop)]
pub struct MarkedUnit {
    pub base: Name,
    pub mark: UnitMark,
}

/// The unit that decimal digits spell; if sizes don't count, 0 for one that is too great.
#[inline(always)]
fn unit_number(sized: bool, digits: &[u8]) -> Option<u32>
    ensures { result ≡ unit_number sized digits.now }
{
    let unit = read_decimal(digits)?;
    if unit <= u64::from(MAX_UNIT) {
        Some(unit as u32)
    } else if sized {
        None
    } else {
        Some(0)
    }
}

/// The base and the unit of a word, if it has both.
#[inline(always)]
fn fixed_of(known: &mut Known, sized: bool, word: Word) -> Result<Option<FixedUnit>, Memory>
    ensures { IfOk result (λ unit. option_map fixed_parts unit ≡ fixed_of sized (piece_of word.entry)) }
{
    if !word.is_chunk() {
        return Ok(None);
    }
    let (base, digits) = word.text.split_at(base_len(word.text));
    let Some(unit) = unit_number(sized, digits) else {
        return Ok(None);
    };
    if !is_written(base) {
        return Ok(None);
    }
    Ok(Some(FixedUnit {
        base: known.name(base)?,
        unit,
    }))
}

/// The name before this mark, if a chunk is a name followed by the mark.
#[inline(always)]
fn base_before(chunk: &[u8], mark: u8) -> Option<&[u8]>
    ensures { option_map (λ base. base.now) result ≡ base_before mark chunk.now }
{
    match chunk {
        [base @ .., last] => if *last == mark && is_written(base) {
            Some(base)
        } else {
            None
        },
        [] => None,
    }
}

#[inline(always)]
fn marked_of(known: &mut Known, mark: u8, word: Word) -> Result<Option<Name>, Memory>
    ensures { IfOk result (λ base. base ≡ marked_of mark (piece_of word.entry)) }
{
    if !word.is_chunk() {
        return Ok(None);
    }
    match base_before(word.text, mark) {
        Some(base) => Ok(Some(known.name(base)?)),
        None => Ok(None),
    }
}

/// Reads the first word of an instance: a name and a number up to 65,535 or `*`.
#[inline(always)]
pub fn unit_chunk(known: &mut Known, sized: bool, word: Word) -> Result<Option<MarkedUnit>, Memory>
    ensures { IfOk result (λ unit. option_map unit_parts unit ≡ unit_chunk sized (piece_of word.entry)) }
{
    if let Some(FixedUnit { base, unit }) = fixed_of(known, sized, word)? {
        return Ok(Some(MarkedUnit {
            base,
            mark: UnitMark::Fixed(unit),
        }));
    }
    match marked_of(known, b'*', word)? {
        Some(base) => Ok(Some(MarkedUnit {
            base,
            mark: UnitMark::Star,
        })),
        None => Ok(None),
    }
}

/// Reads what an instance attaches to: `root`, or a name and a number up to 65,535 or `?`.
#[inline(always)]
pub fn place_of(known: &mut Known, sized: bool, word: Word) -> Result<Option<AtSpec>, Memory>
    ensures { IfOk result (λ place. place ≡ place_of sized (piece_of word.entry)) }
{
    if word.is_word(b"root") {
        return Ok(Some(AtSpec::Root));
    }
    if let Some(FixedUnit { base, unit }) = fixed_of(known, sized, word)? {
        return Ok(Some(AtSpec::Named {
            base,
            unit: Some(unit),
        }));
    }
    match marked_of(known, b'?', word)? {
        Some(base) => Ok(Some(AtSpec::Named { base, unit: None })),
        None => Ok(None),
    }
}
