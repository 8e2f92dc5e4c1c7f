ghost use Rattle.std.specs.Prelude.{◌≡◌, ◌≤◌, IsTrue, bytes_eq, length, nat_abs, option_and_then};
ghost use Rattle.std.specs.List.{list_all};
ghost use Rattle.config_rules.specs.Form.{given};
ghost use Rattle.config_rules.specs.MachineText.{differ, in_match_range, is_free_name, is_one, mark_words, ranged_match, policy_words, ranged};
ghost use Rattle.machine_text.specs.Words.{seen};

use cf_text::{NumberRead, is_name, read_number};

/// The greatest length of a written name.
const MAX_WRITTEN: usize = 63;

/// The greatest match value.
const MAX_MATCH: i64 = 65_535;

/// Whether a word has this spelling.
pub fn spells(word: &[u8], spelling: &[u8]) -> bool
    ensures { result ≡ bytes_eq word.now spelling.now }
{
    word == spelling
}

/// Whether a word is a name of at most 63 bytes that isn't `root`.
pub fn is_free_name(word: &[u8]) -> bool
    ensures value { result ≡ is_free_name word.now }
    ensures not_empty { IsTrue result → 1 ≤ length word.now }
    ensures not_long { IsTrue result → length word.now ≤ 63 }
{
    word.len() <= MAX_WRITTEN && is_name(word) && !spells(word, b"root")
}

fn is_mark(word: &[u8]) -> bool
    ensures { result ≡ is_one mark_words word.now }
{
    spells(word, b"late") || spells(word, b"absent") || spells(word, b"bad")
}

/// Whether all are marks of a spot.
pub fn are_marks(words: &[&[u8]]) -> bool
    ensures { result ≡ list_all (is_one mark_words) (seen words.now) }
{
    words.iter().all(|word| is_mark(*word))
}

fn is_policy(word: &[u8]) -> bool
    ensures { result ≡ is_one policy_words word.now }
{
    spells(word, b"nodetach")
        || spells(word, b"norescan")
        || spells(word, b"nopower")
        || spells(word, b"failsuspend")
        || spells(word, b"defer")
        || spells(word, b"interrupts")
        || spells(word, b"final")
}

/// Whether all are policies of a driver.
pub fn are_policies(words: &[&[u8]]) -> bool
    ensures { result ≡ list_all (is_one policy_words) (seen words.now) }
{
    words.iter().all(|word| is_policy(*word))
}

/// Whether one of these is the word.
pub fn is_one(words: &[&[u8]], word: &[u8]) -> bool
    ensures { result ≡ is_one (seen words.now) word.now }
{
    words.iter().any(|other| word == *other)
}

/// Whether no word is there twice.
pub fn differ(words: &[&[u8]]) -> bool
    ensures { result ≡ differ (seen words.now) }
{
    for (i, word) in words.iter().enumerate() {
        if is_one(&words[i + 1..], *word) {
            return false;
        }
    }
    true
}

/// The number that a word spells, `Some(None)` if it is out of its range.
pub fn ranged(word: &[u8]) -> Option<Option<i64>>
    ensures { result ≡ ranged word.now }
{
    match read_number(word) {
        NumberRead::Not => None,
        NumberRead::OutOfRange => Some(None),
        NumberRead::Value(value) => Some(Some(value)),
    }
}

fn match_number(value: i64) -> Option<u32>
    ensures { result ≡ given (in_match_range value) (nat_abs value) }
{
    if 0 <= value && value <= MAX_MATCH {
        Some(value as u32)
    } else {
        None
    }
}

fn within_match(value: Option<i64>) -> Option<u32>
    ensures { result ≡ option_and_then (λ v. given (in_match_range v) (nat_abs v)) value }
{
    match value {
        Some(value) => match_number(value),
        None => None,
    }
}

/// The match value that a word spells, `Some(None)` if it is not from 0 to 65,535.
pub fn ranged_match(word: &[u8]) -> Option<Option<u32>>
    ensures { result ≡ ranged_match word.now }
{
    match ranged(word) {
        Some(value) => Some(within_match(value)),
        None => None,
    }
}
