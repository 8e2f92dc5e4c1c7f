//! The least unit that is not in a bitmap.
ghost use Rattle.std.specs.Prelude.{◌≡◌, ◌≤◌, ◌*◌, ◌^◌, length};
ghost use Rattle.unit_alloc.specs.Taken.{IsLeastFree, is_set};

/// The least unit that is not set in the words from a place on.
fn first_clear_from(words: &[u64], from: usize) -> u64
    requires short { length words.now ≤ 2 ^ 26 }
    requires from { from ≤ length words.now }
    ensures { IsLeastFree (is_set words.now) (64 * from) result }
{
    for place in from..words.len() {
        let word = words[place];
        if word != u64::MAX {
            return 64 * place as u64 + u64::from(word.trailing_ones());
        }
    }
    64 * words.len() as u64
}

/// The least unit from the first one on that is not set. Whole words of taken units are passed over.
pub fn first_clear(words: &[u64], first: u64) -> u64
    requires short { length words.now ≤ 2 ^ 26 }
    ensures { IsLeastFree (is_set words.now) first result }
{
    let place = (first / 64) as usize;
    if place >= words.len() {
        return first;
    }
    // Units of this word before the first one count as taken.
    let word = words[place] | ((1 << (first % 64)) - 1);
    if word == u64::MAX {
        first_clear_from(words, place + 1)
    } else {
        64 * place as u64 + u64::from(word.trailing_ones())
    }
}
