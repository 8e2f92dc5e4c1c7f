ghost use Rattle.std.specs.Prelude.{◌≡◌, ◌≤◌, ◌==◌, ◌||◌, All, IfOk, if◌then◌else◌, length};
ghost use Rattle.std.specs.List.{list_all};
ghost use Rattle.cf_types.specs.declared.code.script.TheConstants.{OUT_OF_RANGE, WRONG_WORDS};
ghost use Rattle.config_rules.specs.ScriptText.{spells_number, order_of};
ghost use Rattle.machine_text.specs.Words.{parted};
ghost use Rattle.script_text.specs.Left.{AddsTurns, AddsWords, Gives};

use crate::operand::{caller_number, spells_number};
use crate::stop::ScriptStop;
use cf_text::is_space;
use cf_types::List;
use cf_types::code::script as code;
use machine_text::{LineStop, has_bad_byte, uncommented};
use std::alloc::Global;

/// Whether a part between spaces is empty or spells a number.
fn is_fine(part: &[u8]) -> bool
    ensures { result ≡ (length part.now == 0 || spells_number part.now) }
{
    part.is_empty() || spells_number(part)
}

/// Whether each word between spaces and tabs spells a number.
fn are_numbers(bytes: &[u8]) -> bool
    ensures { result ≡ list_all spells_number (parted bytes.now) }
{
    for part in bytes.split(|&byte| is_space(byte)) {
        if !is_fine(part) {
            return false;
        }
    }
    true
}

/// Adds the callers that the words between spaces and tabs name, up to the first word that names none.
fn add_words(turns: &mut List<u8>, callers: u8, bytes: &[u8]) -> Result<(), LineStop>
    ensures { AddsWords callers (parted bytes.now) turns.old turns.new result }
{
    for part in bytes.split(|&byte| is_space(byte)) {
        if !part.is_empty() {
            turns.push(caller_number(callers, part)?)?;
        }
    }
    Ok(())
}

/// The code of words of which one names no caller. It depends on whether a word is no number at all.
fn code_of(bytes: &[u8]) -> u8
    ensures { result ≡ (if list_all spells_number (parted bytes.now) then OUT_OF_RANGE else WRONG_WORDS) }
{
    if are_numbers(bytes) {
        code::OUT_OF_RANGE
    } else {
        code::WRONG_WORDS
    }
}

/// Adds the turns of a line. Only if a word names no caller, the words are read once more, for their code.
fn add_line(turns: &mut List<u8>, callers: u8, line: &[u8]) -> Result<(), LineStop>
    ensures { AddsTurns callers line.now turns.old turns.new result }
{
    if has_bad_byte(line) {
        return Err(LineStop::Code(code::WRONG_WORDS));
    }
    let bytes = uncommented(line);
    match add_words(turns, callers, bytes) {
        Ok(()) => Ok(()),
        Err(LineStop::Code(_)) => Err(LineStop::Code(code_of(bytes))),
        Err(LineStop::Memory) => Err(LineStop::Memory),
    }
}

/// Reads an order file of at most 1,048,576 bytes for this many callers: the callers of the turns, each from 1 to
/// `callers`, or the first bad line and its code, `WRONG_WORDS` or `OUT_OF_RANGE`. An empty file has no turns. The
/// format is this project's own.
pub fn read_order(alloc: Global, text: &[u8], callers: u8) -> Result<List<u8>, ScriptStop>
    requires { length text.now ≤ 1048576 }
    ensures gives { Gives (order_of callers text.now) result }
    ensures turns { IfOk result (λ turns. All (λ turn. (1 ≤ turn) × (turn ≤ callers)) turns) }
{
    let mut turns = List::make(alloc);
    let mut number = 1;
    for line in text.split(|&byte| byte == b'\n') {
        if let Err(stop) = add_line(&mut turns, callers, line) {
            return Err(ScriptStop::at(number, stop));
        }
        number += 1;
    }
    Ok(turns)
}
