ghost use Rattle.std.specs.Prelude.{◌≡◌, ◌≤◌, ◌↔◌, ℕ, IfOk, IsTrue, MatchOption, bytes_eq, decimal};
ghost use Rattle.dev_event.specs.Reading as reading;
ghost use Rattle.dev_event.specs.Spelled.{IsSpelling, Keeps, NamesCaller, Spells};

use crate::cut::{before, behind, is, number_in};
use crate::formed::is_formed;
use crate::read_act::act_in;
use cf_types::Memory;
use event_line::put_event;
use run_rules::{Event, SharedAct};
use std::alloc::Global;

/// The greatest caller.
const MAX_CALLER: u32 = 16;

/// The event that a line may spell. Any other is spelled otherwise.
#[tactic(auto, unfolding(crate::specs::Reading::event_in))]
fn event_in(alloc: Global, line: &[u8]) -> Result<Option<Event>, Memory>
    ensures { IfOk result (λ event. event ≡ reading.event_in line.now) }
{
    let caller = (number_in(before(line, b'.')) % 256) as u8;
    let rest = behind(line, b'.');
    let number = number_in(before(rest, b' '));
    let Some(act) = act_in(alloc, behind(rest, b' '))? else {
        return Ok(None);
    };
    Ok(Some(Event {
        caller,
        number,
        act: SharedAct::make(alloc, act)?,
    }))
}

/// Whether an event is formed and spelled so.
fn is_spelling(alloc: Global, event: &Event, line: &[u8]) -> Result<bool, Memory>
    ensures { IfOk result (λ is. IsTrue is ↔ IsSpelling event.now line.now) }
{
    if !is_formed(event) {
        return Ok(false);
    }
    let mut spelling = Vec::new(alloc);
    put_event(event, &mut spelling)?;
    Ok(is(&spelling, line))
}

/// The event, if it is formed and spelled so.
fn kept(alloc: Global, event: Event, line: &[u8]) -> Result<Option<Event>, Memory>
    ensures { IfOk result (Keeps event line.now) }
{
    match is_spelling(alloc, &event, line) {
        Ok(true) => Ok(Some(event)),
        Ok(false) => {
            drop(event);
            Ok(None)
        }
        Err(stop) => {
            drop(event);
            Err(stop)
        }
    }
}

/// Reads a line of a history of format 2, without its newline: the formed event that has this spelling, `None` exactly
/// if no formed event has it.
pub fn read_event(alloc: Global, line: &[u8]) -> Result<Option<Event>, Memory>
    ensures { IfOk result (Spells line.now) }
{
    match event_in(alloc, line)? {
        Some(event) => kept(alloc, event, line),
        None => Ok(None),
    }
}

/// Whether digits are the number of a caller.
fn spells_caller(digits: &[u8], caller: u8) -> bool
    requires { caller ≤ 16 }
    ensures { result ≡ bytes_eq digits.now (decimal caller) }
{
    if caller < 10 {
        is(digits, &[b'0' + caller])
    } else {
        is(digits, &[b'1', b'0' + (caller - 10)])
    }
}

/// The caller whose number the digits are, from 0 to 16.
fn caller_in(digits: &[u8]) -> Option<u8>
    ensures { MatchOption result ((c : ℕ) → c ≤ 16 → decimal c ≡ digits.now → ⊥) (λ c. (c ≤ 16) × (decimal c ≡ digits.now)) }
{
    let number = number_in(digits);
    if number <= MAX_CALLER && spells_caller(digits, number as u8) {
        Some(number as u8)
    } else {
        None
    }
}

/// The caller that a line names, of either format: `Some` exactly if the line begins with a number from 0 to 16, in
/// decimal, and a dot. It takes no memory.
pub fn read_caller(line: &[u8]) -> Option<u8>
    ensures { MatchOption result ((c : ℕ) → NamesCaller line.now c → ⊥) (NamesCaller line.now) }
{
    let digits = before(line, b'.');
    if digits.len() == line.len() {
        return None;
    }
    caller_in(digits)
}
