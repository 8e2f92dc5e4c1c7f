ghost use Rattle.std.specs.Prelude.{◌≡◌, ◌++◌, [], OnOk, OnErr, codes, decimal};
ghost use Rattle.run_rules.specs.Lines.{line_of, line_of_1};

use crate::act::{put_act, put_act_1};
use crate::parts::put_marked;
use cf_types::{Memory, put_bytes};
use run_rules::Event;

/// How many bytes are enough for most lines.
const USUAL: usize = 96;

/// Appends who did the event, and the number of its command.
#[inline(always)]
fn put_head(out: &mut Vec<u8>, event: &Event) -> Result<(), Memory>
    ensures { OnOk result (out.new.items ≡ out.old.items ++ (decimal event.now.caller ++ codes "." ++ decimal event.now.number ++ codes " ")) }
{
    put_marked(out, u32::from(event.caller), b'.')?;
    put_marked(out, event.number, b' ')
}

/// Appends the line of an event. If memory runs out, some of it may have been appended.
#[tactic(auto, unfolding(run_rules::specs::Lines::line_of))]
#[inline(always)]
fn put_line(out: &mut Vec<u8>, event: &Event) -> Result<(), Memory>
    ensures { OnOk result (out.new.items ≡ out.old.items ++ line_of event.now) }
{
    put_head(out, event)?;
    match event.act.text() {
        Some(text) => put_bytes(out, text),
        None => put_act(out, event.act.get()),
    }
}

/// Puts the line of an event into an empty buffer. If memory runs out, the buffer is empty again.
#[inline(always)]
fn put_alone(out: &mut Vec<u8>, event: &Event) -> Result<(), Memory>
    requires empty { out.old.items ≡ [] }
    ensures ok { OnOk result (out.new.items ≡ line_of event.now) }
    ensures err { OnErr result (out.new.items ≡ []) }
{
    match put_line(out, event) {
        Ok(()) => Ok(()),
        Err(_) => {
            out.clear();
            Err(Memory)
        }
    }
}

/// Appends the line of an event, without its newline: format 2. If memory runs out, nothing is appended.
#[inline(always)]
pub fn put_event(event: &Event, out: &mut Vec<u8>) -> Result<(), Memory>
    ensures ok { OnOk result (out.new.items ≡ out.old.items ++ line_of event.now) }
    ensures err { OnErr result (out.new.items ≡ out.old.items) }
{
    if out.is_empty() {
        return put_alone(out, event);
    }
    let mut line = Vec::with_capacity(*out.allocator(), USUAL)?;
    put_line(&mut line, event)?;
    out.extend_from_slice(&line)?;
    Ok(())
}

/// Appends the line that an event has in a history of format 1, without its newline: there, a search names no spot and
/// an attachment no row. If memory runs out, nothing is appended.
#[tactic(auto, unfolding(run_rules::specs::Lines::line_of_1))]
pub fn put_event_1(event: &Event, out: &mut Vec<u8>) -> Result<(), Memory>
    ensures ok { OnOk result (out.new.items ≡ out.old.items ++ line_of_1 event.now) }
    ensures err { OnErr result (out.new.items ≡ out.old.items) }
{
    let mut line = Vec::with_capacity(*out.allocator(), USUAL)?;
    put_head(&mut line, event)?;
    put_act_1(&mut line, event.act.get())?;
    out.extend_from_slice(&line)?;
    Ok(())
}
