ghost use Rattle.std.specs.Prelude.{◌≡◌, ◌<◌, ◌∷◌, IfSome, bytes_eq, codes, drop, length, map, not, option_map, take_while};
ghost use Rattle.std.specs.List.{after_first, before_first};
ghost use Rattle.config_rules.specs.Form.{is_mark, parted, parted_at};
ghost use Rattle.cf_words.specs.Words.{parts_left, piece_of};

use cf_types::TokenKind;

/// A token of a statement with its bytes, borrowed from the text.
#[derive(Clone, Copy, Debug)]
pub struct Word<'a> {
    pub kind: TokenKind,
    pub text: &'a [u8],
}

/// Whether two texts are the same. Those of two bytes or fewer are compared without a call.
#[inline(always)]
fn has_few_bytes(text: &[u8], other: &[u8]) -> bool
    ensures { result ≡ bytes_eq text.now other.now }
{
    match (text, other) {
        ([], []) => true,
        ([byte], [wanted]) => *byte == *wanted,
        ([first, second], [one, two]) => *first == *one && *second == *two,
        _ => text == other,
    }
}

/// Whether two texts are the same. Those of four to six bytes are compared without a call, too.
#[inline(always)]
fn has_bytes(text: &[u8], other: &[u8]) -> bool
    ensures { result ≡ bytes_eq text.now other.now }
{
    match (text, other) {
        ([a, b, c, d, rest @ ..], [e, f, g, h, other_rest @ ..]) => {
            *a == *e && *b == *f && *c == *g && *d == *h && has_few_bytes(rest, other_rest)
        }
        _ => has_few_bytes(text, other),
    }
}

/// Whether two texts are the same. Texts of different lengths are not.
#[tactic(auto, using(crate::proofs::SameLemmas::long_differs))]
#[inline(always)]
pub fn is_same(text: &[u8], other: &[u8]) -> bool
    ensures { result ≡ bytes_eq text.now other.now }
{
    text.len() == other.len() && has_bytes(text, other)
}

impl<'a> Word<'a> {
    ghost use Rattle.config_rules.specs.Form.{is_chunk, is_text, is_word};

    /// Whether it is a chunk.
    #[inline(always)]
    pub fn is_chunk(self) -> bool
        ensures { result ≡ is_chunk (piece_of self.entry) }
    {
        self.kind == TokenKind::Chunk
    }

    /// Whether it is a string.
    #[inline(always)]
    pub fn is_text(self) -> bool
        ensures { result ≡ is_text (piece_of self.entry) }
    {
        self.kind == TokenKind::Text
    }

    /// Whether it is this mark.
    #[inline(always)]
    pub fn is_mark(self, mark: &[u8]) -> bool
        ensures { result ≡ is_mark mark.now (piece_of self.entry) }
    {
        self.kind == TokenKind::Mark && is_same(self.text, mark)
    }

    /// Whether it is a chunk with this spelling.
    #[inline(always)]
    pub fn is_word(self, spelling: &[u8]) -> bool
        ensures { result ≡ is_word spelling.now (piece_of self.entry) }
    {
        self.is_chunk() && is_same(self.text, spelling)
    }
}

#[inline(always)]
fn is_comma(word: Word) -> bool
    ensures { result ≡ is_mark (codes ",") (piece_of word.entry) }
{
    word.is_mark(b",")
}

/// How many words come before the first of these marks; all of them if there is none.
#[inline(always)]
fn count_before(words: &[Word], mark: &[u8]) -> usize
    ensures { result ≡ length (take_while (λ word. not (is_mark mark.now (piece_of word))) words.now) }
{
    let mut count = 0;
    for word in words {
        if word.is_mark(mark) {
            return count;
        }
        count += 1;
    }
    count
}

/// The words before the first of these marks, and those from it on.
#[inline(always)]
pub fn split_before<'w, 'a>(words: &'w [Word<'a>], mark: &[u8]) -> (&'w [Word<'a>], &'w [Word<'a>])
    ensures before { map piece_of result.0.now ≡ before_first (is_mark mark.now) (map piece_of words.now) }
    ensures from { map piece_of result.1.now ≡ drop (length (before_first (is_mark mark.now) (map piece_of words.now))) (map piece_of words.now) }
{
    words.split_at(count_before(words, mark))
}

/// The words before the first of these marks and those after it; `None` if there is none.
#[inline(always)]
pub fn parted_at<'w, 'a>(
    words: &'w [Word<'a>],
    mark: &[u8],
) -> Option<(&'w [Word<'a>], &'w [Word<'a>])>
    ensures { option_map (λ parts. (map piece_of parts.0.now, map piece_of parts.1.now)) result ≡ parted_at mark.now (map piece_of words.now) }
{
    let (before, from) = split_before(words, mark);
    match from {
        [_, behind @ ..] => Some((before, behind)),
        [] => None,
    }
}

/// The words after the first of these marks; none if there is no mark.
#[inline(always)]
pub fn behind_first<'w, 'a>(words: &'w [Word<'a>], mark: &[u8]) -> &'w [Word<'a>]
    ensures { map piece_of result.now ≡ after_first (is_mark mark.now) (map piece_of words.now) }
{
    let (_, from) = split_before(words, mark);
    match from {
        [_, behind @ ..] => behind,
        [] => from,
    }
}

/// The words before the first comma, and those after it, if there is one.
#[inline(always)]
pub fn first_part<'w, 'a>(words: &'w [Word<'a>]) -> (&'w [Word<'a>], Option<&'w [Word<'a>]>)
    ensures parts { parted (map piece_of words.now) ≡ map piece_of result.0.now ∷ parts_left result.1 }
    ensures shorter { IfSome result.1 (λ rest. length rest.now < length words.now) }
{
    let (part, from) = split_before(words, b",");
    match from {
        [_, behind @ ..] => (part, Some(behind)),
        [] => (part, None),
    }
}

/// How many parts there are between commas.
pub fn count_parts(words: &[Word]) -> usize {
    let commas = words.iter().filter(|&&word| is_comma(word)).count();
    commas.saturating_add(1)
}
