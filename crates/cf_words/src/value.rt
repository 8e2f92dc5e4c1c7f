ghost use Rattle.std.specs.Prelude.{◌≡◌};
ghost use Rattle.config_rules.specs.Form.{count_of, value_of};
ghost use Rattle.cf_words.specs.Words.{piece_of};

use crate::word::Word;
use cf_text::{NumberRead, read_number};

/// The greatest count of a pseudo-device.
const MAX_COUNT: i64 = 65_535;

/// Reads a word as a number: `None` for another shape. One out of its range gives `None` if sizes count, and otherwise
/// 0.
pub fn value_of(sized: bool, word: Word) -> Option<i64>
    ensures { result ≡ value_of sized (piece_of word.entry) }
{
    if !word.is_chunk() {
        return None;
    }
    match read_number(word.text) {
        NumberRead::Value(value) => Some(value),
        NumberRead::OutOfRange => if sized { None } else { Some(0) },
        NumberRead::Not => None,
    }
}

/// Reads a word as a count from 1 to 65,535: `None` for no number. One out of its range gives `None` if sizes count,
/// and otherwise 0.
pub fn count_of(sized: bool, word: Word) -> Option<u32>
    ensures { result ≡ count_of sized (piece_of word.entry) }
{
    let value = value_of(sized, word)?;
    if 1 <= value && value <= MAX_COUNT {
        Some(value as u32)
    } else if sized {
        None
    } else {
        Some(0)
    }
}
