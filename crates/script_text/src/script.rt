ghost use Rattle.std.specs.Prelude.{◌≡◌, ◌≤◌, IfOk, length};
ghost use Rattle.config_rules.specs.ScriptText.{FormedScript, commands_of, line_says, words_say};
ghost use Rattle.machine_text.specs.Words.{seen};
ghost use Rattle.script_text.specs.Left.{Adds, Gives, Says};

use crate::command::command_of;
use crate::stop::ScriptStop;
use cf_types::code::script as code;
use cf_types::{Command, List};
use machine_text::{LineStop, cut_words, has_bad_byte};
use std::alloc::Global;

/// The most commands of a script.
const MAX_COMMANDS: usize = 500;

/// The command that the words of a line spell; `None` if there are no words.
fn words_say(alloc: Global, words: &[&[u8]]) -> Result<Option<Command>, LineStop>
    ensures { Says (words_say (seen words.now)) result }
{
    match words.split_first() {
        Some((word, rest)) => Ok(Some(command_of(alloc, *word, rest)?)),
        None => Ok(None),
    }
}

/// The command that a line spells; `None` if it has no words. The words are borrowed from the line, and their room is
/// reused.
fn line_says<'t>(
    alloc: Global,
    words: &mut Vec<&'t [u8]>,
    line: &'t [u8],
) -> Result<Option<Command>, LineStop>
    ensures { Says (line_says line.now) result }
{
    if has_bad_byte(line) {
        return Err(LineStop::Code(code::WRONG_WORDS));
    }
    cut_words(words, line)?;
    words_say(alloc, words)
}

/// Adds the command of a line, if it has one, to those before it.
fn add_line<'t>(
    alloc: Global,
    words: &mut Vec<&'t [u8]>,
    commands: &mut List<Command>,
    line: &'t [u8],
) -> Result<(), LineStop>
    ensures { Adds (line_says line.now) commands.old commands.new result }
{
    let Some(command) = line_says(alloc, words, line)? else {
        return Ok(());
    };
    if MAX_COMMANDS <= commands.len() {
        return Err(LineStop::Code(code::TOO_MANY_COMMANDS));
    }
    commands.push(command)?;
    Ok(())
}

/// Reads a script of at most 1,048,576 bytes: its commands, at most 500, or the first bad line and its code. A
/// line has one command, as drvctl(8) has them, and `#` begins a comment. The format is this project's own.
pub fn read_script(alloc: Global, text: &[u8]) -> Result<List<Command>, ScriptStop>
    requires { length text.now ≤ 1048576 }
    ensures gives { Gives (commands_of text.now) result }
    ensures formed { IfOk result FormedScript }
{
    let mut words = Vec::new(alloc);
    let mut commands = List::make(alloc);
    let mut number = 1;
    for line in text.split(|&byte| byte == b'\n') {
        if let Err(stop) = add_line(alloc, &mut words, &mut commands, line) {
            return Err(ScriptStop::at(number, stop));
        }
        number += 1;
    }
    Ok(commands)
}
