ghost use Rattle.std.specs.Prelude.{◌≡◌, IsTrue};
ghost use Rattle.config_rules.specs.ScriptText.{are_pairs, given_in, pairs_of};
ghost use Rattle.machine_text.specs.Words.{seen};
ghost use Rattle.script_text.specs.Left.{Leaves};

use crate::operand::{is_operand, operand, spells_number, written_value};
use cf_types::code::script as code;
use cf_types::{Given, List};
use machine_text::LineStop;
use std::alloc::Global;

/// The most words after `rescan D A`: 16 pairs.
const MAX_PAIR_WORDS: usize = 32;

/// Whether the words are pairs of a name and a number.
fn are_pairs(words: &[&[u8]]) -> bool
    ensures { result ≡ are_pairs (seen words.now) }
{
    let mut rest = words;
    while let [name, value, more @ ..] = rest {
        if !is_operand(*name) || !spells_number(*value) {
            return false;
        }
        rest = more;
    }
    rest.is_empty()
}

/// The locators that pairs give, with their values.
fn given_in(alloc: Global, words: &[&[u8]]) -> Result<List<Given>, LineStop>
    requires { IsTrue (are_pairs (seen words.now)) }
    ensures { Leaves (given_in (seen words.now)) result }
{
    let mut given = List::make(alloc);
    let mut rest = words;
    while let [name, value, more @ ..] = rest {
        let value = written_value(*value)?;
        let name = operand(alloc, *name)?;
        given.push(Given { name, value })?;
        rest = more;
    }
    Ok(given)
}

/// Reads up to 16 pairs of a locator and its value.
pub fn pairs_of(alloc: Global, words: &[&[u8]]) -> Result<List<Given>, LineStop>
    ensures { Leaves (pairs_of (seen words.now)) result }
{
    if words.len() > MAX_PAIR_WORDS || !are_pairs(words) {
        return Err(LineStop::Code(code::WRONG_WORDS));
    }
    given_in(alloc, words)
}
