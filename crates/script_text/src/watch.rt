//! Reads watch files.
ghost use Rattle.std.specs.Prelude.{◌≡◌, ◌≤◌, All, IfOk, IfSome, OnOk, length};
ghost use Rattle.script_text.specs.Left.{Gives, Says};
ghost use Rattle.script_text.specs.WatchLeft.{AddsLine, KeepsFormed};
ghost use Rattle.script_text.specs.WatchText.{FormedWatchLine, has_subscribed, is_sub_of, subscription_code, watch_of, watch_says};

use crate::stop::ScriptStop;
use crate::watch_code as code;
use crate::watch_line::{WatchLine, watch_words};
use cf_types::List;
use machine_text::{LineStop, cut_words, has_bad_byte};
use std::alloc::Global;

/// The most lines of a watch file.
const MAX_LINES: usize = 10_000;

/// What a line says for so many callers: `None` where it has no words. They are lent, and stand in room that is used again.
fn watch_says<'t>(
    callers: u8,
    words: &mut Vec<&'t [u8]>,
    line: &'t [u8],
) -> Result<Option<WatchLine>, LineStop>
    ensures says { Says (watch_says callers line.now) result }
    ensures formed { IfOk result (λ said. IfSome said (FormedWatchLine callers)) }
{
    cut_words(words, line)?;
    watch_words(callers, has_bad_byte(line), words)
}

fn is_sub_of(who: u8, line: WatchLine) -> bool
    ensures { result ≡ is_sub_of who line }
{
    matches!(line, WatchLine::Sub(subscribed, _) if subscribed == who)
}

/// Whether one of these lines subscribes who.
fn has_subscribed(who: u8, lines: &[WatchLine]) -> bool
    ensures { result ≡ has_subscribed who lines.now }
{
    lines.iter().any(|&line| is_sub_of(who, line))
}

/// The code of a line behind others, where it has one: nobody subscribes twice, and who reads has subscribed.
fn subscription_code(before: &[WatchLine], line: WatchLine) -> Option<u8>
    ensures { result ≡ subscription_code before.now line }
{
    match line {
        WatchLine::Sub(who, _) if has_subscribed(who, before) => Some(code::SUBSCRIBED_TWICE),
        WatchLine::Read(who, _) if !has_subscribed(who, before) => Some(code::NOT_SUBSCRIBED),
        _ => None,
    }
}

/// Adds what a line says to the lines before it, if it says anything.
fn add_line<'t>(
    callers: u8,
    words: &mut Vec<&'t [u8]>,
    lines: &mut List<WatchLine>,
    line: &'t [u8],
) -> Result<(), LineStop>
    ensures adds { AddsLine (watch_says callers line.now) lines.old lines.new result }
    ensures formed { OnOk result (KeepsFormed callers lines.old lines.new) }
{
    let Some(said) = watch_says(callers, words, line)? else {
        return Ok(());
    };
    if let Some(code) = subscription_code(lines.items(), said) {
        return Err(LineStop::Code(code));
    }
    if MAX_LINES <= lines.len() {
        return Err(LineStop::Code(code::TOO_MANY_LINES));
    }
    lines.push(said)?;
    Ok(())
}

/// Reads a watch file of at most 1,048,576 bytes for so many scripts: its lines, at most 10,000, or the first bad line and its code. A
/// turn is that of a caller, 0 to `callers`; each subscriber subscribes once, before it reads. The format is this project's own.
pub fn read_watch(alloc: Global, text: &[u8], callers: u8) -> Result<List<WatchLine>, ScriptStop>
    requires { length text.now ≤ 1048576 }
    ensures gives { Gives (watch_of callers text.now) result }
    ensures formed { IfOk result (All (FormedWatchLine callers)) }
{
    let mut words = Vec::new(alloc);
    let mut lines = List::make(alloc);
    let mut number = 1;
    for line in text.split(|&byte| byte == b'\n') {
        if let Err(stop) = add_line(callers, &mut words, &mut lines, line) {
            return Err(ScriptStop::at(number, stop));
        }
        number += 1;
    }
    Ok(lines)
}
