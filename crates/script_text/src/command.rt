ghost use Rattle.std.specs.Prelude.{◌≡◌, ◌∷◌, []};
ghost use Rattle.config_rules.specs.ScriptText.{command_of, io_form, open_form, rescan_form, rescan_on, sole_form};
ghost use Rattle.machine_text.specs.Words.{seen};
ghost use Rattle.script_text.specs.Left.{Leaves};
ghost use Rattle.script_text.specs.Verbs.{form_by};

use crate::operand::{one_operand, operand, operand_or_none, transfer_value};
use crate::pairs::pairs_of;
use crate::verb::{Verb, verb_of};
use cf_types::code::script as code;
use cf_types::{Command, List};
use machine_text::LineStop;
use std::alloc::Global;

/// The word after `open` that asks for sole use.
const SOLE: &[u8] = b"-x";

/// Reads `-x D` after `open`.
fn sole_command(alloc: Global, option: &[u8], device: &[u8]) -> Result<Command, LineStop>
    ensures { Leaves (sole_form option.now device.now) result }
{
    if option != SOLE {
        return Err(LineStop::Code(code::WRONG_WORDS));
    }
    Ok(Command::OpenSole(operand(alloc, device)?))
}

/// Reads what follows `open`.
fn open_command(alloc: Global, words: &[&[u8]]) -> Result<Command, LineStop>
    ensures { Leaves (open_form (seen words.now)) result }
{
    match words {
        [device] => Ok(Command::OpenDev(operand(alloc, *device)?)),
        [option, device] => sole_command(alloc, *option, *device),
        _ => Err(LineStop::Code(code::WRONG_WORDS)),
    }
}

/// Reads `io D V`.
fn transfer_command(alloc: Global, device: &[u8], value: &[u8]) -> Result<Command, LineStop>
    ensures { Leaves (io_form (device.now ∷ value.now ∷ [])) result }
{
    let device = operand(alloc, device)?;
    let value = transfer_value(value)?;
    Ok(Command::Io(device, value))
}

/// Reads what follows `io`.
fn io_command(alloc: Global, words: &[&[u8]]) -> Result<Command, LineStop>
    ensures { Leaves (io_form (seen words.now)) result }
{
    match words {
        [device, value] => transfer_command(alloc, *device, *value),
        _ => Err(LineStop::Code(code::WRONG_WORDS)),
    }
}

/// Reads `rescan D A` and the words after it.
fn rescan_on(
    alloc: Global,
    device: &[u8],
    attr: &[u8],
    words: &[&[u8]],
) -> Result<Command, LineStop>
    ensures { Leaves (rescan_on device.now attr.now (seen words.now)) result }
{
    let device = operand(alloc, device)?;
    let attr = operand(alloc, attr)?;
    let given = pairs_of(alloc, words)?;
    Ok(Command::Rescan {
        device,
        attr: Some(attr),
        given,
    })
}

/// Reads what follows `rescan`.
fn rescan_command(alloc: Global, words: &[&[u8]]) -> Result<Command, LineStop>
    ensures { Leaves (rescan_form (seen words.now)) result }
{
    match words {
        [device] => {
            let device = operand(alloc, *device)?;
            Ok(Command::Rescan {
                device,
                attr: None,
                given: List::make(alloc),
            })
        }
        [device, attr, more @ ..] => rescan_on(alloc, *device, *attr, more),
        [] => Err(LineStop::Code(code::WRONG_WORDS)),
    }
}

/// Reads what follows a verb.
fn command_by(alloc: Global, verb: Verb, words: &[&[u8]]) -> Result<Command, LineStop>
    ensures { Leaves (form_by verb (seen words.now)) result }
{
    match verb {
        Verb::Open => open_command(alloc, words),
        Verb::Close => Ok(Command::CloseDev(one_operand(alloc, words)?)),
        Verb::Io => io_command(alloc, words),
        Verb::Detach => Ok(Command::Detach(one_operand(alloc, words)?)),
        Verb::Rescan => rescan_command(alloc, words),
        Verb::List => Ok(Command::ListDev(operand_or_none(alloc, words)?)),
        Verb::Tree => Ok(Command::TreeDev(operand_or_none(alloc, words)?)),
        Verb::Suspend => Ok(Command::Suspend(one_operand(alloc, words)?)),
        Verb::Resume => Ok(Command::Resume(one_operand(alloc, words)?)),
        Verb::ResumeTree => Ok(Command::ResumeTree(one_operand(alloc, words)?)),
        Verb::Plug => Ok(Command::Plug(one_operand(alloc, words)?)),
        Verb::Unplug => Ok(Command::Unplug(one_operand(alloc, words)?)),
    }
}

/// Reads a command from its first word and the words after it.
pub fn command_of(alloc: Global, word: &[u8], words: &[&[u8]]) -> Result<Command, LineStop>
    ensures { Leaves (command_of word.now (seen words.now)) result }
{
    match verb_of(word) {
        Some(verb) => command_by(alloc, verb, words),
        None => Err(LineStop::Code(code::NO_COMMAND)),
    }
}
