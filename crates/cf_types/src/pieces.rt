//! The tokens of a statement, in one text.
ghost use Rattle.std.specs.Prelude.{◌≡◌, ◌+◌, ◌≤◌, [], ◌∷◌, ◌++◌, length, map, slice_range, All, IfOk, IsTrue, OnErr, OnOk};
ghost use Rattle.cf_types.specs.Pieces.{AreBetween, AreIn, IsFrom, IsWithin, piece_at, span_from, token_in};

use crate::{Memory, Token, TokenKind};
use std::alloc::Global;
use std::marker::Model;

/// A token by its place in the text of its statement.
#[derive(Clone, Copy, Debug)]
pub struct PieceSpan {
    pub kind: TokenKind,
    pub start: u32,
    pub end: u32,
}

/// A token that lends its bytes. Contracts see it as the token with its bytes.
#[derive(Drop)]
pub struct PieceView<'a> {
    pub kind: TokenKind,
    pub text: &'a [u8],
}

impl<'a> Model for PieceView<'a> {
    ghost use Rattle.cf_types.specs.declared.stmt.Piece.{Piece};

    ghost Value = { Piece };

    ghost view = { λ it. record { kind = it.kind; text = it.text.now } };
}

/// Tokens that are put together, which share one text: they take two blocks of memory, however many they are. Contracts
/// see the list of the tokens.
#[derive(Drop)]
pub struct PieceList {
    text: Vec<u8>,
    spans: Vec<PieceSpan>,
}

impl Model for PieceList {
    ghost use Rattle.std.specs.Prelude.{All, List as Items, length, map};
    ghost use Rattle.cf_types.specs.Pieces.{IsWithin, piece_at};
    ghost use Rattle.cf_types.specs.declared.stmt.Piece.{Piece};

    ghost Value = { Items Piece };

    ghost view = { λ it. map (piece_at it.text.items) it.spans.items };

    ghost invariant = { λ it. All (IsWithin (length it.text.items)) it.spans.items };
}

/// Appends the bytes of a token, and returns where they are. If memory runs out, the text is as before.
fn add_bytes(text: &mut Vec<u8>, kind: TokenKind, bytes: &[u8]) -> Result<PieceSpan, Memory>
    ensures err { OnErr result (text.new.items ≡ text.old.items) }
    ensures ok { OnOk result (text.new.items ≡ text.old.items ++ bytes.now) }
    ensures span { IfOk result (λ s. s ≡ record { kind = kind; start = length text.old.items; end = length text.new.items }) }
{
    let Ok(start) = u32::try_from(text.len()) else {
        return Err(Memory);
    };
    let Ok(end) = u32::try_from(text.len() + bytes.len()) else {
        return Err(Memory);
    };
    text.extend_from_slice(bytes)?;
    Ok(PieceSpan { kind, start, end })
}

/// The part of a text that holds these tokens, and where it begins.
#[inline(always)]
fn part_of<'a>(text: &'a [u8], tokens: &[Token]) -> (u32, &'a [u8])
    requires { AreIn (length text.now) tokens.now }
    ensures between { AreBetween result.0 (result.0 + length result.1.now) tokens.now }
    ensures part { result.1.now ≡ slice_range text.now result.0 (result.0 + length result.1.now) }
{
    let Some(first) = tokens.first() else {
        return (0, &text[..0]);
    };
    let mut start = first.start;
    let mut end = first.end;
    for token in tokens {
        start = start.min(token.start);
        end = end.max(token.end);
    }
    (start, &text[start as usize..end as usize])
}

/// The places of the tokens of a text in the part of it that begins at `start`.
#[inline(always)]
fn spans_from(alloc: Global, start: u32, tokens: &[Token]) -> Result<Vec<PieceSpan>, Memory>
    requires { All (IsFrom start) tokens.now }
    ensures { IfOk result (λ spans. spans.items ≡ map (span_from start) tokens.now) }
{
    let mut spans = Vec::with_capacity(alloc, tokens.len())?;
    for token in tokens {
        spans.push_reserved(PieceSpan {
            kind: token.kind,
            start: token.start - start,
            end: token.end - start,
        });
    }
    Ok(spans)
}

/// The token at this place, where it stands.
#[inline(always)]
fn view_at(text: &[u8], span: PieceSpan) -> PieceView<'_>
    requires { IsWithin (length text.now) span }
    ensures { result ≡ piece_at text.now span }
{
    PieceView {
        kind: span.kind,
        text: &text[..span.end as usize][span.start as usize..],
    }
}

/// Whether two tokens are of one kind.
#[inline(always)]
fn is_same_kind(one: TokenKind, other: TokenKind) -> bool
    ensures { IsTrue result → one ≡ other }
{
    match one {
        TokenKind::Chunk => matches!(other, TokenKind::Chunk),
        TokenKind::Text => matches!(other, TokenKind::Text),
        TokenKind::Mark => matches!(other, TokenKind::Mark),
        TokenKind::Stop => matches!(other, TokenKind::Stop),
    }
}

/// Whether two tokens are of one kind and in one place.
#[inline(always)]
fn is_same_span(one: PieceSpan, other: PieceSpan) -> bool
    ensures { IsTrue result → one ≡ other }
{
    is_same_kind(one.kind, other.kind) && one.start == other.start && one.end == other.end
}

/// Whether these are the same tokens, in the same places.
fn are_same(ones: &[PieceSpan], others: &[PieceSpan]) -> bool
    ensures { IsTrue result → ones.now ≡ others.now }
{
    if ones.len() != others.len() {
        return false;
    }
    for place in 0..ones.len() {
        if !is_same_span(ones[place], others[place]) {
            return false;
        }
    }
    true
}

/// Whether a token is at this place in the part of its text that begins at `start`.
#[inline(always)]
fn is_there(start: u32, span: PieceSpan, token: Token) -> bool
    ensures from { IsTrue result → IsFrom start token }
    ensures place { IsTrue result → span ≡ span_from start token }
{
    is_same_kind(span.kind, token.kind)
        && start <= token.start
        && start <= token.end
        && span.start == token.start - start
        && span.end == token.end - start
}

/// Whether tokens are at these places in the part of their text that begins at `start`.
fn are_there(start: u32, spans: &[PieceSpan], tokens: &[Token]) -> bool
    ensures from { IsTrue result → All (IsFrom start) tokens.now }
    ensures places { IsTrue result → spans.now ≡ map (span_from start) tokens.now }
{
    if spans.len() != tokens.len() {
        return false;
    }
    for place in 0..spans.len() {
        if !is_there(start, spans[place], tokens[place]) {
            return false;
        }
    }
    true
}

/// Whether a text has this part from there on.
#[inline(always)]
fn has_part(text: &[u8], start: usize, part: &[u8]) -> bool
    ensures { IsTrue result → part.now ≡ slice_range text.now start (start + length part.now) }
{
    start <= text.len()
        && part.len() <= text.len() - start
        && &text[start..start + part.len()] == part
}

impl PieceList {
    /// No token. It takes no memory.
    pub fn make(alloc: Global) -> PieceList
        ensures { result ≡ [] }
    {
        PieceList {
            text: Vec::new(alloc),
            spans: Vec::new(alloc),
        }
    }

    /// No token, with room for this many tokens and bytes.
    pub fn with_room(alloc: Global, tokens: usize, bytes: usize) -> Result<PieceList, Memory>
        ensures { IfOk result (λ pieces. pieces ≡ []) }
    {
        Ok(PieceList {
            text: Vec::with_capacity(alloc, bytes)?,
            spans: Vec::with_capacity(alloc, tokens)?,
        })
    }

    /// The tokens of a text. The part of the text that holds them is copied at once.
    #[inline(always)]
    pub fn of_tokens(alloc: Global, text: &[u8], tokens: &[Token]) -> Result<PieceList, Memory>
        requires { AreIn (length text.now) tokens.now }
        ensures { IfOk result (λ pieces. pieces ≡ map (token_in text.now) tokens.now) }
    {
        let (start, part) = part_of(text, tokens);
        let spans = spans_from(alloc, start, tokens)?;
        let copy = Vec::from_slice(alloc, part)?;
        Ok(PieceList { text: copy, spans })
    }

    /// How many tokens there are.
    pub fn len(&self) -> usize
        ensures { result ≡ length self.now }
    {
        self.spans.len()
    }

    /// Appends a token. If memory runs out, or the text would be too long to be counted, the tokens are as before.
    pub fn push(&mut self, kind: TokenKind, bytes: &[u8]) -> Result<(), Memory>
        ensures ok { OnOk result (self.new ≡ self.old ++ record { kind = kind; text = bytes.now } ∷ []) }
        ensures err { OnErr result (self.new ≡ self.old) }
    {
        self.spans.reserve(1)?;
        let span = add_bytes(&mut self.text, kind, bytes)?;
        self.spans.push_reserved(span);
        Ok(())
    }

    /// Whether these are the tokens of a text, if the part of it that holds them is the same, too. It makes no list of them.
    #[tactic(auto, using(crate::proofs::PieceLemmas::tokens_there))]
    pub fn is_of(&self, text: &[u8], tokens: &[Token]) -> bool
        ensures { IsTrue result → self.now ≡ map (token_in text.now) tokens.now }
    {
        let (Some(span), Some(token)) = (self.spans.first(), tokens.first()) else {
            return false;
        };
        if token.start < span.start {
            return false;
        }
        let start = token.start - span.start;
        has_part(text, start as usize, &self.text) && are_there(start, &self.spans, tokens)
    }

    /// Whether these are the same tokens, in texts that are the same, too.
    pub fn is_same(&self, other: &PieceList) -> bool
        ensures { IsTrue result → self.now ≡ other.now }
    {
        self.text == other.text && are_same(&self.spans, &other.spans)
    }

    /// The tokens where they stand.
    pub fn views(&self, alloc: Global) -> Result<Vec<PieceView<'_>>, Memory>
        ensures { IfOk result (λ views. views.items ≡ self.now) }
    {
        let mut views = Vec::with_capacity(alloc, self.spans.len())?;
        for &span in &self.spans {
            views.push_reserved(view_at(&self.text, span));
        }
        Ok(views)
    }
}
