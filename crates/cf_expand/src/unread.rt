//! The tokens of a file while it is read; the memory of those that have been read is given back. Behind the first
//! condition a text is cut statement by statement, and what is left out is not cut.
ghost use Rattle.std.specs.Prelude.{◌≡◌, ◌++◌, ◌-◌, ◌≤◌, [], true, IfOk, MatchOption, OnOk, Some, drop, length};
ghost use Rattle.cf_lexer.specs.Rest.{IsRest, MayRest, is_closed, rest_tokens};
ghost use Rattle.cf_expand.specs.Lines.{Parts};
ghost use Rattle.cf_expand.specs.Unread.{PassesTo, Refills};

use crate::lines::first_statement;
use cf_lexer::{Cutting, Rest, cut_statement, skip};
use cf_types::{Memory, Token};
use std::marker::Model;

/// The least number of tokens whose memory is given back at once.
const MANY: usize = 65_536;

/// The tokens of a file that are not read yet: those that are cut, and the rest of the text. Contracts see the tokens of
/// both.
#[derive(Drop)]
pub struct Unread<'a> {
    text: &'a [u8],
    tokens: Vec<Token>,
    read: usize,
    rest: Option<Rest>,
}

impl<'a> Model for Unread<'a> {
    ghost use Rattle.std.specs.Prelude.{◌≤◌, drop, length};
    ghost use Rattle.cf_lexer.specs.Rest.{MayRest, rest_tokens};
    ghost use Rattle.cf_expand.specs.Unread.{Uncut};

    ghost Value = { Uncut };

    ghost view = { λ it. record { text = it.text.now; kept = drop it.read it.tokens.items; more = rest_tokens it.text.now it.rest } };

    ghost invariant = { λ it. (it.read ≤ length it.tokens.items) × MayRest it.text.now it.rest };
}

/// Moves the tokens from this place on to the beginning, and gives back the memory of all others.
#[tactic(auto, using(crate::proofs::UnreadLemmas::moved_all))]
fn keep_from(tokens: &mut Vec<Token>, from: usize)
    requires { from ≤ length tokens.old.items }
    ensures { tokens.new.items ≡ drop from tokens.old.items }
{
    let count = tokens.len() - from;
    for place in 0..count {
        tokens[place] = tokens[from + place];
    }
    tokens.truncate(count);
    tokens.shrink_to_fit();
}

/// The rest from its first statement on, or, in a part that is left out, from the first that begins with a condition word.
fn wanted(text: &[u8], rest: Rest, is_live: bool) -> Option<Rest>
    requires { IsRest text.now rest }
    ensures rest { MayRest text.now result }
    ensures passes { PassesTo is_live text.now (rest_tokens text.now (Some rest)) (rest_tokens text.now result) }
{
    if is_live {
        Some(rest)
    } else {
        skip(text, rest)
    }
}

/// Replaces the tokens by those of the first statement that is wanted, and returns what is left after it.
fn cut_wanted(
    tokens: &mut Vec<Token>,
    text: &[u8],
    rest: Rest,
    is_live: bool,
) -> Result<Option<Rest>, Memory>
    requires { IsRest text.now rest }
    ensures rest { IfOk result (MayRest text.now) }
    ensures closed { OnOk result (is_closed tokens.new.items ≡ true) }
    ensures ready { IfOk result (λ left. tokens.new.items ≡ [] → rest_tokens text.now left ≡ []) }
    ensures passes { IfOk result (λ left. PassesTo is_live text.now (rest_tokens text.now (Some rest)) (tokens.new.items ++ rest_tokens text.now left)) }
{
    match wanted(text, rest, is_live) {
        Some(next) => cut_statement(tokens, text, next),
        None => {
            tokens.clear();
            Ok(None)
        }
    }
}

impl<'a> Unread<'a> {
    /// None of the tokens of this text is read yet.
    pub fn make(text: &'a [u8], cutting: Cutting) -> Unread<'a>
        requires { MayRest text.now cutting.rest }
        ensures { result ≡ record { text = text.now; kept = cutting.tokens; more = rest_tokens text.now cutting.rest } }
    {
        let Cutting { tokens, rest } = cutting;
        Unread {
            text,
            tokens: tokens.into_vec(),
            read: 0,
            rest,
        }
    }

    /// The tokens of the first statement, and those after its stop, as far as they are cut; `None` if no token is cut.
    #[inline(always)]
    pub fn first(&self) -> Option<(&[Token], &[Token])>
        ensures { MatchOption result (self.now.kept ≡ []) (λ parts. Parts self.now.kept parts.0.now parts.1.now) }
    {
        let (_, left) = self.tokens.split_at(self.read);
        first_statement(left)
    }

    /// Of the tokens that are cut only this many at the end are still unread. Once a third of the tokens kept have been
    /// read, their memory is given back.
    #[tactic(auto, using(crate::proofs::UnreadLemmas::unread_last, crate::proofs::UnreadLemmas::last_many))]
    #[inline(always)]
    pub fn keep_last(&mut self, count: usize)
        requires { count ≤ length self.old.kept }
        ensures left { self.new ≡ record self.old { kept = drop (length self.old.kept - count) self.old.kept } }
        ensures len { length self.new.kept ≡ count }
    {
        self.read = self.tokens.len() - count;
        if self.read >= MANY && self.read >= count / 2 {
            keep_from(&mut self.tokens, self.read);
            self.read = 0;
        }
    }

    /// Cuts the next statement if all tokens that are cut have been read; in a part that is left out, the next one that
    /// begins with a condition word.
    #[inline(always)]
    pub fn refill(&mut self, is_live: bool) -> Result<(), Memory>
        ensures { OnOk result (Refills is_live self.old self.new) }
    {
        if self.read < self.tokens.len() {
            return Ok(());
        }
        let Some(rest) = self.rest else {
            return Ok(());
        };
        self.read = 0;
        self.rest = cut_wanted(&mut self.tokens, self.text, rest, is_live)?;
        Ok(())
    }
}
