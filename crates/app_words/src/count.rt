ghost use Rattle.std.specs.Prelude.{◌≡◌, ◌≤◌, IfSome, nat_abs};
ghost use Rattle.config_rules.specs.Form.{given};
ghost use Rattle.app_words.specs.Words.{count_of, in_count_range};

use cf_text::{NumberRead, read_number};

/// The greatest count of spots.
const MAX_COUNT: i64 = 1_000;

fn within_count(value: i64) -> Option<u32>
    ensures count { result ≡ given (in_count_range value) (nat_abs value) }
    ensures range { IfSome result (λ n. (1 ≤ n) × (n ≤ 1000)) }
{
    if 1 <= value && value <= MAX_COUNT {
        Some(value as u32)
    } else {
        None
    }
}

/// The count of spots that a word spells as a number, 1 to 1,000.
pub fn count_of(word: &[u8]) -> Option<u32>
    ensures count { result ≡ count_of word.now }
    ensures range { IfSome result (λ n. (1 ≤ n) × (n ≤ 1000)) }
{
    match read_number(word) {
        NumberRead::Value(value) => within_count(value),
        NumberRead::OutOfRange | NumberRead::Not => None,
    }
}
