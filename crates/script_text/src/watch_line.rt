//! One line of a watch file.
ghost use Rattle.std.specs.Prelude.{◌≡◌, ◌≤◌, ◌∷◌, [], All, IfOk, IfSome};
ghost use Rattle.machine_text.specs.Words.{seen};
ghost use Rattle.script_text.specs.Left.{Leaves, Says};
ghost use Rattle.script_text.specs.WatchText.{FormedWatchLine, boot_line, subscriber_in, subscriber_of, turn_line, watch_by, watch_verb, watch_word, watch_words};

use crate::operand::{number_between, spells_number};
use cf_types::code::script as code;
use machine_text::LineStop;

/// The most subscribers of a watch file.
const MAX_SUBSCRIBERS: u8 = 16;

/// The most notes that a subscriber keeps, or that it reads at once.
const MAX_NOTES: u8 = 64;

/// A line of a watch file, its numbers in the order of the line.
#[derive(Clone, Copy, Debug, PartialEq, Eq)]
pub enum WatchLine {
    /// The boot goes on until it is over.
    Boot,
    /// One turn of a caller, of which 0 is that of the boot.
    Turn(u8),
    /// A subscriber, 1 to 16, begins, and keeps so many notes, 1 to 64.
    Sub(u8, u8),
    /// A subscriber reads so many notes, 1 to 64, or those that there are.
    Read(u8, u8),
}

const BOOT: &[u8] = b"boot";

const TURN: &[u8] = b"turn";

const SUB: &[u8] = b"sub";

const READ: &[u8] = b"read";

/// The first word of a line.
#[derive(Clone, Copy)]
pub enum WatchVerb {
    Boot,
    Turn,
    Sub,
    Read,
}

fn watch_verb(word: &[u8]) -> Option<WatchVerb>
    ensures { result ≡ watch_verb word.now }
{
    if word == BOOT {
        Some(WatchVerb::Boot)
    } else if word == TURN {
        Some(WatchVerb::Turn)
    } else if word == SUB {
        Some(WatchVerb::Sub)
    } else if word == READ {
        Some(WatchVerb::Read)
    } else {
        None
    }
}

/// Reads what stands behind `boot`.
fn boot_line(words: &[&[u8]]) -> Result<WatchLine, LineStop>
    ensures leaves { Leaves (boot_line (seen words.now)) result }
    ensures formed { IfOk result (λ line. line ≡ WatchLine.Boot) }
{
    if !words.is_empty() {
        return Err(LineStop::Code(code::WRONG_WORDS));
    }
    Ok(WatchLine::Boot)
}

/// Reads what stands behind `turn`.
fn turn_line(callers: u8, words: &[&[u8]]) -> Result<WatchLine, LineStop>
    ensures leaves { Leaves (turn_line callers (seen words.now)) result }
    ensures formed { IfOk result (FormedWatchLine callers) }
{
    match words {
        [caller] => Ok(WatchLine::Turn(number_between(0, callers, *caller)?)),
        _ => Err(LineStop::Code(code::WRONG_WORDS)),
    }
}

/// Reads a subscriber and a number of notes.
fn subscriber_of(who: &[u8], many: &[u8]) -> Result<(u8, u8), LineStop>
    ensures leaves { Leaves (subscriber_of who.now many.now) result }
    ensures who { IfOk result (λ pair. (1 ≤ pair.0) × (pair.0 ≤ 16)) }
    ensures many { IfOk result (λ pair. (1 ≤ pair.1) × (pair.1 ≤ 64)) }
{
    if !spells_number(who) || !spells_number(many) {
        return Err(LineStop::Code(code::WRONG_WORDS));
    }
    let who = number_between(1, MAX_SUBSCRIBERS, who)?;
    let many = number_between(1, MAX_NOTES, many)?;
    Ok((who, many))
}

/// Reads what stands behind `sub` and `read`.
fn subscriber_in(words: &[&[u8]]) -> Result<(u8, u8), LineStop>
    ensures leaves { Leaves (subscriber_in (seen words.now)) result }
    ensures who { IfOk result (λ pair. (1 ≤ pair.0) × (pair.0 ≤ 16)) }
    ensures many { IfOk result (λ pair. (1 ≤ pair.1) × (pair.1 ≤ 64)) }
{
    match words {
        [who, many] => subscriber_of(*who, *many),
        _ => Err(LineStop::Code(code::WRONG_WORDS)),
    }
}

/// Reads what stands behind the first word.
fn watch_by(callers: u8, verb: WatchVerb, words: &[&[u8]]) -> Result<WatchLine, LineStop>
    ensures leaves { Leaves (watch_by callers verb (seen words.now)) result }
    ensures formed { IfOk result (FormedWatchLine callers) }
{
    match verb {
        WatchVerb::Boot => boot_line(words),
        WatchVerb::Turn => turn_line(callers, words),
        WatchVerb::Sub => {
            let (who, room) = subscriber_in(words)?;
            Ok(WatchLine::Sub(who, room))
        }
        WatchVerb::Read => {
            let (who, most) = subscriber_in(words)?;
            Ok(WatchLine::Read(who, most))
        }
    }
}

/// Reads a line by its first word and the others. Where a byte of the line is not allowed, the first word alone counts.
fn watch_word(callers: u8, bad: bool, word: &[u8], words: &[&[u8]]) -> Result<WatchLine, LineStop>
    ensures leaves { Leaves (watch_word callers bad word.now (seen words.now)) result }
    ensures formed { IfOk result (FormedWatchLine callers) }
{
    match watch_verb(word) {
        Some(_) if bad => Err(LineStop::Code(code::WRONG_WORDS)),
        Some(verb) => watch_by(callers, verb, words),
        None => Err(LineStop::Code(code::NO_COMMAND)),
    }
}

/// What the words of a line say, for so many callers: `None` where there are none.
pub fn watch_words(callers: u8, bad: bool, words: &[&[u8]]) -> Result<Option<WatchLine>, LineStop>
    ensures says { Says (watch_words callers bad (seen words.now)) result }
    ensures formed { IfOk result (λ said. IfSome said (FormedWatchLine callers)) }
{
    match words.split_first() {
        Some((word, rest)) => Ok(Some(watch_word(callers, bad, *word, rest)?)),
        None => Ok(None),
    }
}
