ghost use Rattle.std.specs.Prelude.{◌≡◌, ◌+◌, ◌==◌, ◌&&◌, slice_index, ◌≤◌, length, drop, min, take_while, Some, IfOk};
ghost use Rattle.std.specs.List.{prefix_len};
ghost use Rattle.config_rules.specs.Cut.{is_chunk_byte, is_space, is_text_byte, is_mark_byte};
ghost use Rattle.cf_lexer.specs.Front.{IsWithin, front, front_at, is_plain_byte, quoted_front, span};
ghost use Rattle.cf_lexer.specs.Lines.{first_of};

use cf_types::TokenKind;
use cf_types::code::configuration as code;
use memchr::memchr;

/// A token by its place in its part of the line.
#[derive(Clone, Copy)]
pub struct Span {
    pub kind: TokenKind,
    pub start: usize,
    pub end: usize,
}

/// The first part of a line: its length, and its token, if it has one.
#[derive(Clone, Copy)]
pub struct Front {
    pub len: usize,
    pub token: Option<Span>,
}

/// What a byte may begin or be a part of: `c` a chunk, `M` a mark, `_` a blank; `~` for every other byte.
static CLASSES: [u8; 256] = *b"\
    ~~~~~~~~~_~~~~~~~~~~~~~~~~~~~~~~\
    _M~~c~M~MMc~McccccccccccccM~~M~c\
    ~ccccccccccccccccccccccccccM~M~c\
    ~ccccccccccccccccccccccccccMMM~~\
    ~~~~~~~~~~~~~~~~~~~~~~~~~~~~~~~~\
    ~~~~~~~~~~~~~~~~~~~~~~~~~~~~~~~~\
    ~~~~~~~~~~~~~~~~~~~~~~~~~~~~~~~~\
    ~~~~~~~~~~~~~~~~~~~~~~~~~~~~~~~~";

/// Whether a byte may be part of a chunk.
#[inline(always)]
pub fn is_chunk_byte(byte: u8) -> bool
    ensures { result ≡ is_chunk_byte byte }
{
    CLASSES[byte as usize] == b'c'
}

/// Whether a byte is a space or a tab.
#[inline(always)]
pub fn is_blank_byte(byte: u8) -> bool
    ensures { result ≡ is_space byte }
{
    CLASSES[byte as usize] == b'_'
}

/// Whether a byte is a mark.
#[inline(always)]
pub fn is_mark_byte(byte: u8) -> bool
    ensures { result ≡ is_mark_byte byte }
{
    CLASSES[byte as usize] == b'M'
}

/// Whether a byte outside strings and comments is allowed, whatever is next to it: a blank, a mark or a byte of a chunk.
#[inline(always)]
pub fn is_plain_byte(byte: u8) -> bool
    ensures { result ≡ is_plain_byte byte }
{
    CLASSES[byte as usize] != b'~'
}

#[inline(always)]
fn is_text_byte(byte: u8) -> bool
    ensures { result ≡ is_text_byte byte }
{
    matches!(byte, b'\t' | b' '..=b'~') && byte != b'"'
}

/// How many of the four bytes that begin there make a chunk: all up to the first that may not be part of one.
#[inline(always)]
fn four_len(text: &[u8], place: usize) -> usize
    requires { place + 4 ≤ length text.now }
    ensures { result ≡ min 4 (prefix_len is_chunk_byte (drop place text.now)) }
{
    if !is_chunk_byte(text[place]) {
        0
    } else if !is_chunk_byte(text[place + 1]) {
        1
    } else if !is_chunk_byte(text[place + 2]) {
        2
    } else if !is_chunk_byte(text[place + 3]) {
        3
    } else {
        4
    }
}

/// Where the chunk ends whose bytes from this place on are looked at. Four at a time take less than one after the other.
#[inline(always)]
pub fn chunk_end(text: &[u8], start: usize) -> usize
    requires start { start ≤ length text.now }
    requires short { length text.now ≤ 1048576 }
    ensures end { result ≡ start + prefix_len is_chunk_byte (drop start text.now) }
    ensures within { result ≤ length text.now }
{
    let mut end = start;
    while end + 4 <= text.len() {
        let more = four_len(text, end);
        end += more;
        if more < 4 {
            return end;
        }
    }
    end + chunk_len(&text[end..])
}

/// The length in bytes of the chunk at the beginning.
#[inline(always)]
pub fn chunk_len(bytes: &[u8]) -> usize
    ensures len { result ≡ prefix_len is_chunk_byte bytes.now }
    ensures within { result ≤ length bytes.now }
{
    bytes
        .iter()
        .take_while(|&&byte| is_chunk_byte(byte))
        .count()
}

/// How many bytes of a string are at the beginning.
#[inline(always)]
fn text_len(bytes: &[u8]) -> usize
    ensures { result ≡ prefix_len is_text_byte bytes.now }
{
    bytes.iter().take_while(|&&byte| is_text_byte(byte)).count()
}

/// The first line of a text, without its newline.
fn first_line(text: &[u8]) -> &[u8]
    ensures { result.now ≡ first_of text.now }
{
    match memchr(b'\n', text) {
        Some(place) => &text[..place],
        None => text,
    }
}

/// The string after its first quote, up to its second quote on the same line, or the code of what is there instead of
/// that.
#[inline(always)]
fn quoted(text: &[u8]) -> Result<Front, u8>
    ensures front { result ≡ quoted_front (first_of text.now) }
    ensures within { IfOk result (λ f. IsWithin f (length (first_of text.now) + 1)) }
{
    let len = text_len(text);
    match text.get(len) {
        None | Some(b'\n') => Err(code::OPEN_STRING),
        Some(b'"') => Ok(Front {
            len: len + 2,
            token: Some(Span {
                kind: TokenKind::Text,
                start: 1,
                end: len + 1,
            }),
        }),
        Some(_) => Err(code::BAD_BYTE),
    }
}

/// A part that is a token as a whole.
#[inline(always)]
fn token(kind: TokenKind, len: usize) -> Front
    ensures { result ≡ front len (Some (span kind 0 len)) }
{
    Front {
        len,
        token: Some(Span {
            kind,
            start: 0,
            end: len,
        }),
    }
}

/// Whether these begin with `+=`.
#[inline(always)]
fn is_plus_equals(first: u8, more: &[u8]) -> bool
    ensures { result ≡ (first == 43 && slice_index (first_of more.now) 0 == 61) }
{
    first == b'+' && !more.is_empty() && more[0] == b'='
}

/// The first part of the rest of a line, from its first byte and the bytes of the text after it, or the code of that
/// byte.
#[tactic(auto, using(crate::proofs::FrontLemmas::length_chunk))]
#[inline(always)]
pub fn front_part(first: u8, more: &[u8]) -> Result<Front, u8>
    ensures front { result ≡ front_at first (first_of more.now) }
    ensures within { IfOk result (λ f. IsWithin f (length (first_of more.now) + 1)) }
{
    if is_blank_byte(first) {
        return Ok(Front {
            len: 1,
            token: None,
        });
    }
    if first == b'#' {
        return Ok(Front {
            len: first_line(more).len() + 1,
            token: None,
        });
    }
    if first == b'"' {
        return quoted(more);
    }
    if is_chunk_byte(first) {
        return Ok(token(TokenKind::Chunk, chunk_len(more) + 1));
    }
    if is_mark_byte(first) {
        return Ok(token(TokenKind::Mark, 1));
    }
    if is_plus_equals(first, more) {
        return Ok(token(TokenKind::Mark, 2));
    }
    Err(code::BAD_BYTE)
}
