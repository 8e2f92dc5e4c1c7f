ghost use Rattle.std.specs.Prelude.{◌≡◌, ◌≤◌, ◌<◌, ◌^◌, IsTrue, IfOk, bytes_eq, length};
ghost use Rattle.run_rules.specs.Lines.{is_known_name};
ghost use Rattle.dev_event.specs.Reading as reading;

use cf_text::is_name;
use cf_types::{Memory, Name};
use std::alloc::Global;

/// How many numbers there are.
const NUMBERS: u64 = 1 << 32;

/// The greatest length of a name.
const MAX_NAME: usize = 80;

/// Whether a text is this word.
pub fn is(text: &[u8], word: &[u8]) -> bool
    ensures { result ≡ bytes_eq text.now word.now }
{
    text == word
}

/// What comes before the first such byte: all, if there is none.
pub fn before(text: &[u8], mark: u8) -> &[u8]
    ensures { result.now ≡ reading.before mark text.now }
{
    for (index, byte) in text.iter().enumerate() {
        if *byte == mark {
            return &text[..index];
        }
    }
    text
}

/// What comes after the first such byte: nothing, if there is none.
pub fn behind(text: &[u8], mark: u8) -> &[u8]
    ensures { result.now ≡ reading.behind mark text.now }
{
    for (index, byte) in text.iter().enumerate() {
        if *byte == mark {
            return &text[index + 1..];
        }
    }
    &[]
}

/// The number that digits spell, modulo 2^32. Other bytes give some number.
pub fn number_in(digits: &[u8]) -> u32
    ensures { result ≡ reading.number_in digits.now }
{
    let mut number: u64 = 0;
    for digit in digits {
        number = (number * 10 + u64::from(*digit % 16)) % NUMBERS;
    }
    number as u32
}

/// Whether a text has the shape of a name, and at most 80 bytes.
pub fn is_known_name(text: &[u8]) -> bool
    ensures value { result ≡ is_known_name text.now }
    ensures not_empty { IsTrue result → 1 ≤ length text.now }
    ensures not_long { IsTrue result → length text.now ≤ 80 }
{
    is_name(text) && text.len() <= MAX_NAME
}

/// The name that a text is, if it has the shape of one.
pub fn name_in(alloc: Global, text: &[u8]) -> Result<Option<Name>, Memory>
    ensures { IfOk result (λ name. name ≡ reading.name_in text.now) }
{
    if !is_known_name(text) {
        return Ok(None);
    }
    Ok(Some(Name::make(alloc, text)?))
}
