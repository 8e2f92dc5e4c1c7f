//! The statement `file`, the most common one of a large configuration: it is read directly from its tokens.
ghost use Rattle.std.specs.Prelude.{◌≡◌, IfOk, IfSome, codes, length, nat_le};
ghost use Rattle.std.specs.List.{list_all};
ghost use Rattle.config_rules.specs.Cut.{piece, pieces};
ghost use Rattle.config_rules.specs.Form.{Form, is_word};
ghost use Rattle.cf_grammar.specs.Statement.{AreWithin, IsWithin};

use crate::grammar::{MAX_TOKEN, word_of};
use crate::keyword::spelling;
use cf_types::{Keyword, Memory, Stmt, Token};
use cf_words::Known;

/// Whether a token is this word.
#[inline(always)]
fn is_file_word(text: &[u8], token: Token) -> bool
    requires { IsWithin text.now token }
    ensures { result ≡ is_word (codes "file") (piece text.now token) }
{
    word_of(text, token).is_word(b"file")
}

/// Whether no token is longer than one may be.
#[inline(always)]
fn are_short(text: &[u8], tokens: &[Token]) -> bool
    requires { AreWithin text.now tokens.now }
    ensures { result ≡ list_all (λ q. nat_le (length q.text) 1023) (pieces text.now tokens.now) }
{
    for token in tokens {
        if word_of(text, *token).text.len() > MAX_TOKEN {
            return false;
        }
    }
    true
}

/// The statement that these tokens are, if they are `file` followed by one or more tokens, none of which is too long.
#[inline(always)]
pub fn file(known: &mut Known, text: &[u8], tokens: &[Token]) -> Result<Option<Stmt>, Memory>
    requires { AreWithin text.now tokens.now }
    ensures { IfOk result (λ found. IfSome found (Form (pieces text.now tokens.now))) }
{
    let [first, rest @ ..] = tokens else {
        return Ok(None);
    };
    if rest.is_empty() || !is_file_word(text, *first) || !are_short(text, rest) {
        return Ok(None);
    }
    let rest = known.share_tokens(text, rest)?;
    let word = known.name(spelling(Keyword::File))?;
    Ok(Some(Stmt::Free { word, rest }))
}
