ghost use Rattle.std.specs.Prelude.{◌≡◌, ◌≤◌, IfOk, IfSome, IsTrue, length, nat_abs};
ghost use Rattle.cf_text.specs.Shapes.{in_range};
ghost use Rattle.config_rules.specs.Form.{given};
ghost use Rattle.config_rules.specs.ScriptText.{is_caller, spells_number, is_operand, is_value, natural_within, number_within, one_operand, operand, operand_or_none};
ghost use Rattle.machine_text.specs.Words.{seen};
ghost use Rattle.script_text.specs.Left.{Leaves};
ghost use Rattle.script_text.specs.WatchText.{between};

use cf_text::{NumberRead, is_name, read_number};
use cf_types::Name;
use cf_types::code::script as code;
use machine_text::LineStop;
use std::alloc::Global;

/// The greatest length of a name in a script.
const MAX_OPERAND: usize = 80;

/// The greatest value of a transfer.
const MAX_VALUE: i64 = 4_294_967_295;

/// Whether a word is a name of at most 80 bytes.
pub fn is_operand(word: &[u8]) -> bool
    ensures value { result ≡ is_operand word.now }
    ensures not_empty { IsTrue result → 1 ≤ length word.now }
    ensures not_long { IsTrue result → length word.now ≤ 80 }
{
    is_name(word) && word.len() <= MAX_OPERAND
}

/// The operand that a word is.
pub fn operand(alloc: Global, word: &[u8]) -> Result<Name, LineStop>
    ensures { Leaves (operand word.now) result }
{
    if !is_operand(word) {
        return Err(LineStop::Code(code::WRONG_WORDS));
    }
    Ok(Name::make(alloc, word)?)
}

/// The one operand of a command.
pub fn one_operand(alloc: Global, words: &[&[u8]]) -> Result<Name, LineStop>
    ensures { Leaves (one_operand (seen words.now)) result }
{
    match words {
        [word] => operand(alloc, *word),
        _ => Err(LineStop::Code(code::WRONG_WORDS)),
    }
}

/// The operand of a command that may have none.
pub fn operand_or_none(alloc: Global, words: &[&[u8]]) -> Result<Option<Name>, LineStop>
    ensures { Leaves (operand_or_none (seen words.now)) result }
{
    if words.is_empty() {
        return Ok(None);
    }
    Ok(Some(one_operand(alloc, words)?))
}

/// Whether a word spells a number of any size.
pub fn spells_number(word: &[u8]) -> bool
    ensures { result ≡ spells_number word.now }
{
    match read_number(word) {
        NumberRead::Not => false,
        NumberRead::OutOfRange => true,
        NumberRead::Value(_) => true,
    }
}

/// The number that a word spells, from -2147483648 to 4294967295.
pub fn written_value(word: &[u8]) -> Result<i64, LineStop>
    ensures { Leaves (number_within in_range word.now) result }
{
    match read_number(word) {
        NumberRead::Not => Err(LineStop::Code(code::WRONG_WORDS)),
        NumberRead::OutOfRange => Err(LineStop::Code(code::OUT_OF_RANGE)),
        NumberRead::Value(value) => Ok(value),
    }
}

fn in_transfer_range(value: i64) -> Option<u32>
    ensures { result ≡ given (is_value value) (nat_abs value) }
{
    if 0 <= value && value <= MAX_VALUE {
        Some(value as u32)
    } else {
        None
    }
}

fn in_bounds(low: u8, high: u8, value: i64) -> Option<u8>
    ensures value { result ≡ given (between low high value) (nat_abs value) }
    ensures within { IfSome result (λ n. (low ≤ n) × (n ≤ high)) }
{
    if i64::from(low) <= value && value <= i64::from(high) {
        Some(value as u8)
    } else {
        None
    }
}

/// The value of a transfer that a word spells, from 0 to 4294967295.
pub fn transfer_value(word: &[u8]) -> Result<u32, LineStop>
    ensures { Leaves (natural_within is_value word.now) result }
{
    match in_transfer_range(written_value(word)?) {
        Some(value) => Ok(value),
        None => Err(LineStop::Code(code::OUT_OF_RANGE)),
    }
}

/// The number from `low` to `high` that a word spells.
pub fn number_between(low: u8, high: u8, word: &[u8]) -> Result<u8, LineStop>
    ensures leaves { Leaves (natural_within (between low high) word.now) result }
    ensures within { IfOk result (λ n. (low ≤ n) × (n ≤ high)) }
{
    match in_bounds(low, high, written_value(word)?) {
        Some(number) => Ok(number),
        None => Err(LineStop::Code(code::OUT_OF_RANGE)),
    }
}

/// The caller whose number a word spells, from 1 to `callers`.
pub fn caller_number(callers: u8, word: &[u8]) -> Result<u8, LineStop>
    ensures { Leaves (natural_within (is_caller callers) word.now) result }
{
    number_between(1, callers, word)
}
