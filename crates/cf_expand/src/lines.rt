ghost use Rattle.std.specs.Prelude.{◌≡◌, [], MatchOption};
ghost use Rattle.std.specs.List.{position_or_len};
ghost use Rattle.config_rules.specs.Cut.{is_stop};
ghost use Rattle.cf_expand.specs.Lines.{Parts};

use cf_types::{Token, TokenKind};

#[inline(always)]
fn count_before_stop(tokens: &[Token]) -> usize
    ensures { result ≡ position_or_len is_stop tokens.now }
{
    tokens
        .iter()
        .take_while(|token| token.kind != TokenKind::Stop)
        .count()
}

/// The tokens of the first statement, and those after its stop; `None` if there is no token.
#[inline(always)]
pub fn first_statement(tokens: &[Token]) -> Option<(&[Token], &[Token])>
    ensures { MatchOption result (tokens.now ≡ []) (λ parts. Parts tokens.now parts.0.now parts.1.now) }
{
    if tokens.is_empty() {
        return None;
    }
    let (statement, from) = tokens.split_at(count_before_stop(tokens));
    match from {
        [_, rest @ ..] => Some((statement, rest)),
        [] => Some((statement, from)),
    }
}
