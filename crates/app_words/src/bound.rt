ghost use Rattle.std.specs.Prelude.{◌≡◌, ◌≤◌, IfSome, map, nat_abs, string_bytes};
ghost use Rattle.config_rules.specs.Form.{given};
ghost use Rattle.app_words.specs.Words.{bound_of, bound_words, first_bound, in_bound_range, is_bound_word, most_worlds};

use cf_text::{NumberRead, read_number};

/// The bound on worlds if no word sets it.
const MOST_WORLDS: u32 = 1_000_000;

fn within_bound(value: i64) -> Option<u32>
    ensures { result ≡ given (in_bound_range value) (nat_abs value) }
{
    if 1 <= value && value <= 4_294_967_295 {
        Some(value as u32)
    } else {
        None
    }
}

/// The bound on worlds that a word spells as a number, 1 to 4,294,967,295.
pub fn bound_of(word: &[u8]) -> Option<u32>
    ensures { result ≡ bound_of word.now }
{
    match read_number(word) {
        NumberRead::Value(value) => within_bound(value),
        NumberRead::OutOfRange | NumberRead::Not => None,
    }
}

/// Whether a word is `-w`.
pub fn is_bound_word(word: &[u8]) -> bool
    ensures { result ≡ is_bound_word word.now }
{
    word == b"-w".as_slice()
}

/// The bound that the first of these words sets.
fn first_bound(words: &[String]) -> u32
    ensures { result ≡ first_bound (map string_bytes words.now) }
{
    let Some((word, _)) = words.split_first() else {
        return MOST_WORLDS;
    };
    match bound_of(word.as_bytes()) {
        Some(most) => most,
        None => MOST_WORLDS,
    }
}

/// The bound on worlds that the words of `drvall` set by `-w N`, or a million.
pub fn most_worlds(words: &[String]) -> u32
    ensures { result ≡ most_worlds (map string_bytes words.now) }
{
    let Some((word, more)) = words.split_first() else {
        return MOST_WORLDS;
    };
    if is_bound_word(word.as_bytes()) {
        first_bound(more)
    } else {
        MOST_WORLDS
    }
}

/// How many words set the bound: 2 where the first one is `-w`, else none.
pub fn bound_words(words: &[String]) -> usize
    ensures { result ≡ bound_words (map string_bytes words.now) }
{
    match words.split_first() {
        Some((word, _)) if is_bound_word(word.as_bytes()) => 2,
        _ => 0,
    }
}
