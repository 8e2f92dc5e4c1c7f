ghost use Rattle.std.specs.Prelude.{◌≡◌, [], ◌++◌, ◌≤◌, IsTrue, cond, drop, length, true, IfOk, IfErr, OnOk};
ghost use Rattle.config_rules.specs.Cut.{Cut, cut_of, stop_behind};
ghost use Rattle.cf_lexer.specs.Line.{IsFaultOf, Shows};
ghost use Rattle.cf_lexer.specs.Lines.{begins, first_of};
ghost use Rattle.cf_lexer.specs.Rest.{MayRest, all_result, all_tokens, is_closed};

use crate::check::check;
use crate::line::{LexStop, cut_line};
use crate::rest::{Cutting, Rest, begins, push_stop};
use cf_types::{List, Memory as NoMemory, Token};
use std::alloc::Global;

/// Ends the statement so far if the line of a text that begins there begins another one.
#[inline(always)]
fn end_statement(tokens: &mut Vec<Token>, text: &[u8], start: usize) -> Result<(), NoMemory>
    requires { start ≤ length text.now }
    ensures { OnOk result (tokens.new.items ≡ cond (begins (first_of (drop start text.now)))
        (tokens.old.items ++ stop_behind tokens.old.items) tokens.old.items) }
{
    if begins(text, start) {
        push_stop(tokens)?;
    }
    Ok(())
}

/// Whether a statement begins there that probably opens a condition, so that what follows may be left out.
#[inline(always)]
fn opens(text: &[u8], start: usize) -> bool
    requires { start ≤ length text.now }
    ensures { IsTrue result → begins (first_of (drop start text.now)) ≡ true }
{
    match &text[start..] {
        [b'i', b'f', b'd' | b'n', ..] => true,
        _ => false,
    }
}

/// No token, with room for as many as most files of this size have, so that few are moved as the list grows. Room that
/// no token fills is never touched.
fn room_for(alloc: Global, bytes: usize) -> Result<Vec<Token>, NoMemory>
    ensures { IfOk result (λ tokens. tokens.items ≡ []) }
{
    Ok(Vec::with_capacity(alloc, bytes / 2)?)
}

/// The tokens of a configuration file of at most 1,048,576 bytes, with a `Stop` after those of each statement, or the
/// fault of the first byte that is part of no token, comment or blank. From the first statement on that opens a
/// condition the text is only checked: that is the rest. See config(5).
pub fn cut(alloc: Global, text: &[u8]) -> Result<Cutting, LexStop>
    requires { length text.now ≤ 1048576 }
    ensures cut { IfOk result (λ cutting. Cut text.now (all_tokens text.now cutting)) }
    ensures fault { IfErr result (λ stop. IsFaultOf text.now stop) }
    ensures exact { Shows (cut_of text.now) (all_result text.now result) }
    ensures closed { IfOk result (λ cutting. is_closed cutting.tokens ≡ true) }
    ensures rest { IfOk result (λ cutting. MayRest text.now cutting.rest) }
{
    let mut tokens = room_for(alloc, text.len())?;
    let mut number = 1;
    let mut left = Some(0);
    while let Some(start) = left {
        end_statement(&mut tokens, text, start)?;
        if opens(text, start) {
            check(text, number, start)?;
            return Ok(Cutting {
                tokens: List::from_vec(tokens),
                rest: Some(Rest {
                    line: number,
                    place: start,
                }),
            });
        }
        left = cut_line(&mut tokens, number, text, start)?;
        number += 1;
    }
    push_stop(&mut tokens)?;
    Ok(Cutting {
        tokens: List::from_vec(tokens),
        rest: None,
    })
}
