//! The words with which the lines of a plan begin.
ghost use Rattle.script_text.specs.Left.{Leaves};
ghost use Rattle.live_tables.specs.Reading.{verb_or_code};

use cf_types::code::script as code;
use machine_text::LineStop;

/// What a line of a plan does.
#[derive(Clone, Copy)]
pub enum Verb {
    Group,
    Add,
    Remove,
    Scan,
}

const GROUP: &[u8] = b"group";

const ADD: &[u8] = b"add";

const REMOVE: &[u8] = b"remove";

const SCAN: &[u8] = b"scan";

/// The verb that a word is.
pub fn verb_of(word: &[u8]) -> Result<Verb, LineStop>
    ensures { Leaves (verb_or_code word.now) result }
{
    if word == GROUP {
        Ok(Verb::Group)
    } else if word == ADD {
        Ok(Verb::Add)
    } else if word == REMOVE {
        Ok(Verb::Remove)
    } else if word == SCAN {
        Ok(Verb::Scan)
    } else {
        Err(LineStop::Code(code::NO_COMMAND))
    }
}
