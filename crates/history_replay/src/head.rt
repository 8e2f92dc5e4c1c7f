//! How the lines of a command begin, kept for the next line of the same command.
ghost use Rattle.std.specs.Prelude.{◌≡◌, ◌++◌, IfOk, OnOk, bytes_eq};
ghost use Rattle.history_replay.specs.Heads.{head_text};

use crate::cut::is;
use cf_types::{Memory, put_bytes, put_decimal};
use std::alloc::Global;

/// How many callers there may be, with the one that boots.
const CALLERS: u8 = 17;

/// How many bytes are enough for most heads.
const USUAL: usize = 8;

/// How the lines of a command begin: who gave it, and its number.
#[derive(Drop)]
struct Head {
    caller: u8,
    number: u32,
    text: Vec<u8>,
    ghost spelled: { text.items ≡ head_text caller number },
}

/// The head of a command's lines.
fn head_of(alloc: Global, caller: u8, number: u32) -> Result<Head, Memory>
    ensures { IfOk result (λ head. (head.caller ≡ caller) × (head.number ≡ number)) }
{
    let mut text = Vec::with_capacity(alloc, USUAL)?;
    put_decimal(&mut text, i64::from(caller))?;
    put_bytes(&mut text, b".")?;
    put_decimal(&mut text, i64::from(number))?;
    put_bytes(&mut text, b" ")?;
    Ok(Head {
        caller,
        number,
        text,
    })
}

/// Makes a head that of a command's lines.
#[inline(always)]
fn turn_to(head: &mut Head, alloc: Global, caller: u8, number: u32) -> Result<(), Memory>
    ensures { OnOk result ((head.new.caller ≡ caller) × (head.new.number ≡ number)) }
{
    if head.caller == caller && head.number == number {
        return Ok(());
    }
    *head = head_of(alloc, caller, number)?;
    Ok(())
}

/// Whether a line is a text with another one after it.
#[inline(always)]
fn is_joined(first: &[u8], second: &[u8], line: &[u8]) -> bool
    ensures { result ≡ bytes_eq (first.now ++ second.now) line.now }
{
    if line.len() < first.len() {
        return false;
    }
    let parts = line.split_at(first.len());
    is(first, parts.0) && is(second, parts.1)
}

/// Whether a line is the head of a command's lines with a text after it.
#[inline(always)]
fn begins(
    head: &mut Head,
    alloc: Global,
    caller: u8,
    number: u32,
    text: &[u8],
    line: &[u8],
) -> Result<bool, Memory>
    ensures { IfOk result (λ is. is ≡ bytes_eq (head_text caller number ++ text.now) line.now) }
{
    turn_to(head, alloc, caller, number)?;
    Ok(is_joined(&head.text, text, line))
}

/// For each caller the head of its last lines.
#[derive(Drop)]
pub struct Heads {
    alloc: Global,
    heads: Vec<Head>,
}

impl Heads {
    /// Before any line.
    pub fn make(alloc: Global) -> Result<Heads, Memory> {
        let mut heads = Vec::with_capacity(alloc, CALLERS as usize)?;
        for caller in 0..CALLERS {
            heads.push(head_of(alloc, caller, 0)?)?;
        }
        Ok(Heads { alloc, heads })
    }

    /// Whether a line is that of a caller's command of a number, with a text after its head.
    #[inline(always)]
    pub fn is_line(
        &mut self,
        caller: u8,
        number: u32,
        text: &[u8],
        line: &[u8],
    ) -> Result<bool, Memory>
        ensures { IfOk result (λ is. is ≡ bytes_eq (head_text caller number ++ text.now) line.now) }
    {
        match self.heads.get_mut(caller as usize) {
            Some(head) => begins(head, self.alloc, caller, number, text, line),
            None => {
                let mut head = head_of(self.alloc, caller, number)?;
                begins(&mut head, self.alloc, caller, number, text, line)
            }
        }
    }
}
