//! The lines of a history, each compared with that of the event that its caller does next.
ghost use Rattle.std.specs.Prelude.{◌≡◌, ◌<◌, ◌≤◌, ◌+◌, ◌-◌, ◌^◌, ◌++◌, [], ℕ, IfOk, IfSome, OnOk, length, bytes_eq};
ghost use Rattle.run_rules.specs.Next as rules;
ghost use Rattle.run_rules.specs.Reread as rule;
ghost use Rattle.run_rules.specs.Run.{printed};
ghost use Rattle.run_rules.specs.declared.event.Format.TheVariants.{Second};
ghost use Rattle.run_rules.specs.declared.world.Setup.{Setup};
ghost use Rattle.plain_search.specs.Open.{Follows};
ghost use Rattle.plain_world.specs.Plain.{HasCaller, IsReady, world_of};
ghost use Rattle.history_replay.specs.Going.{GoesOn, IsDue, IsGoing};
ghost use Rattle.history_replay.specs.Readers.{IsSame, setup_in, world_in};
ghost use Rattle.history_replay.specs.Steps.{ReadsHistory, ReadsLines, TellsDeed, TellsNext, TellsStep, event_as, event_in, given};

use crate::cut::{first_line, format_of, is};
use crate::head::Heads;
use crate::history::ReplayStop;
use crate::means::{Reader, reader_by};
use cf_types::{List, Memory};
use dev_event::{put_event, put_event_1, read_caller};
use plain_choice::next;
use plain_effect::apply;
use plain_event::{KnownAct, Teller, event_of, number_of, told_before};
use plain_world::{Plain, Rules};
use run_rules::{Choice, Deed, Event, Format};
use std::alloc::Global;

/// Appends the line of an event.
fn put_line(format: Format, event: &Event, out: &mut Vec<u8>) -> Result<(), Memory>
    ensures { OnOk result (out.new.items ≡ out.old.items ++ rule.line_in format event.now) }
{
    match format {
        Format::First => put_event_1(event, out),
        Format::Second => put_event(event, out),
    }
}

/// Whether a line is that of an event, which is put into this room.
fn is_line_of(due: &mut Vec<u8>, format: Format, event: &Event, line: &[u8]) -> Result<bool, Memory>
    ensures { IfOk result (λ is. is ≡ bytes_eq (rule.line_in format event.now) line.now) }
{
    due.clear();
    put_line(format, event, due)?;
    Ok(is(due, line))
}

/// An event, if the test has passed.
fn where_so(is: bool, event: Event) -> Option<Event>
    ensures { given is event ≡ result }
{
    if is {
        return Some(event);
    }
    drop(event);
    None
}

/// An event, if a line is that of it.
fn event_if(
    due: &mut Vec<u8>,
    format: Format,
    event: Event,
    line: &[u8],
) -> Result<Option<Event>, Memory>
    ensures { IfOk result (λ e. given (bytes_eq (rule.line_in format event) line.now) event ≡ e) }
{
    match is_line_of(due, format, &event, line) {
        Ok(is) => Ok(where_so(is, event)),
        Err(memory) => {
            drop(event);
            Err(memory)
        }
    }
}

/// The event of an act that was kept, if a line is that of it: only its head is made again.
fn event_again(
    heads: &mut Heads,
    plain: &Plain,
    caller: u8,
    kept: &KnownAct,
    line: &[u8],
) -> Result<Option<Event>, Memory>
    requires { HasCaller plain.now caller 500 }
    ensures { (s : Setup) → IfOk result (λ e. event_as (world_of s plain.now) caller kept.now.act line.now ≡ e) }
{
    let number = number_of(plain, caller);
    if !heads.is_line(caller, number, &kept.text, line)? {
        return Ok(None);
    }
    let act = kept.act.clone()?;
    Ok(Some(Event {
        caller,
        number,
        act,
    }))
}

/// The act of a deed that was kept, for lines of format 2. A line of format 1 says less than a kept text.
fn kept_in<'a>(
    teller: &'a Teller,
    format: Format,
    plain: &Plain,
    deed: &Deed,
) -> Option<&'a KnownAct>
    ensures format { IfSome result (λ kept. format ≡ Second) }
    ensures act { (k : ℕ) → IfSome result (λ kept. kept.now.act ≡ printed (world_of teller.now.rules.now plain.now) k deed.now) }
{
    match format {
        Format::First => None,
        Format::Second => told_before(teller, plain, deed),
    }
}

/// The event of what a caller does next, if a line is that of it.
fn event_told(
    reader: &mut Reader,
    plain: &Plain,
    caller: u8,
    deed: &Deed,
    line: &[u8],
) -> Result<Option<Event>, Memory>
    requires going { IsGoing (setup_in reader.old) plain.now }
    requires due { IsDue (setup_in reader.old) plain.now caller deed.now }
    ensures told { IfOk result (λ e. event_in reader.old.format (world_in reader.old plain.now) caller deed.now line.now ≡ e) }
    ensures same { IsSame reader.old reader.new }
    ensures seeker { reader.new.seeker ≡ reader.old.seeker }
{
    reader.teller.rules.stands();
    if let Some(kept) = kept_in(&reader.teller, reader.format, plain, deed) {
        return event_again(&mut reader.heads, plain, caller, kept, line);
    }
    match event_of(&mut reader.teller, plain, caller, deed) {
        Ok(event) => event_if(&mut reader.due, reader.format, event, line),
        Err(memory) => Err(memory),
    }
}

/// Does what a caller does next, and counts the devices as they are then.
fn perform(reader: &mut Reader, plain: &mut Plain, caller: u8, deed: &Deed) -> Result<(), Memory>
    requires going { IsGoing (setup_in reader.old) plain.old }
    requires next { plain.old.live.next < 2 ^ 64 - 1 }
    requires due { IsDue (setup_in reader.old) plain.old caller deed.now }
    requires follows { Follows reader.old.seeker plain.old.live.devices }
    ensures goes { OnOk result (GoesOn (setup_in reader.old) plain.old caller deed.now plain.new) }
    ensures same { IsSame reader.old reader.new }
    ensures follows { OnOk result (Follows reader.new.seeker plain.new.live.devices) }
{
    reader.teller.rules.stands();
    reader.seeker.heed(&plain.live, deed);
    apply(
        reader.teller.alloc,
        reader.teller.rules,
        plain,
        caller,
        deed,
    )
}

/// Does what a caller does next, if a line is that of its event.
fn take(
    reader: &mut Reader,
    plain: &mut Plain,
    caller: u8,
    deed: &Deed,
    line: &[u8],
) -> Result<Option<Event>, Memory>
    requires going { IsGoing (setup_in reader.old) plain.old }
    requires follows { Follows reader.old.seeker plain.old.live.devices }
    requires next { plain.old.live.next < 2 ^ 64 - 1 }
    requires due { IsDue (setup_in reader.old) plain.old caller deed.now }
    ensures told { IfOk result (TellsDeed (setup_in reader.old) reader.old.format plain.old caller line.now deed.now plain.new) }
    ensures same { IsSame reader.old reader.new }
    ensures follows { OnOk result (Follows reader.new.seeker plain.new.live.devices) }
{
    match event_told(reader, plain, caller, deed, line) {
        Ok(Some(event)) => match perform(reader, plain, caller, deed) {
            Ok(()) => Ok(Some(event)),
            Err(memory) => {
                drop(event);
                Err(memory)
            }
        },
        Ok(None) => Ok(None),
        Err(memory) => Err(memory),
    }
}

/// What a caller does next.
fn next_by(reader: &Reader, plain: &Plain, caller: u8) -> Result<Choice, Memory>
    requires ready { IsReady plain.now }
    requires follows { Follows reader.now.seeker plain.now.live.devices }
    ensures { IfOk result (λ does. rules.next (world_in reader.now plain.now) caller ≡ does) }
{
    next(reader.teller.alloc, &reader.seeker, plain, caller)
}

/// The event of a caller, if a line is that of what it does next: the world is then the one after it.
fn told_by(
    reader: &mut Reader,
    plain: &mut Plain,
    caller: u8,
    line: &[u8],
) -> Result<Option<Event>, Memory>
    requires going { IsGoing (setup_in reader.old) plain.old }
    requires follows { Follows reader.old.seeker plain.old.live.devices }
    requires next { plain.old.live.next < 2 ^ 64 - 1 }
    ensures told { IfOk result (TellsNext (setup_in reader.old) reader.old.format plain.old caller line.now plain.new) }
    ensures same { IsSame reader.old reader.new }
    ensures follows { OnOk result (Follows reader.new.seeker plain.new.live.devices) }
{
    reader.teller.rules.stands();
    match next_by(reader, plain, caller) {
        Ok(Choice::Does(deed)) => take(reader, plain, caller, &deed, line),
        Ok(_) => Ok(None),
        Err(memory) => Err(memory),
    }
}

/// The event of a line, if it is what its caller does next: the world is then the one after it.
fn step(reader: &mut Reader, plain: &mut Plain, line: &[u8]) -> Result<Option<Event>, Memory>
    requires going { IsGoing (setup_in reader.old) plain.old }
    requires follows { Follows reader.old.seeker plain.old.live.devices }
    requires next { plain.old.live.next < 2 ^ 64 - 1 }
    ensures told { IfOk result (TellsStep (setup_in reader.old) reader.old.format plain.old line.now plain.new) }
    ensures same { IsSame reader.old reader.new }
    ensures follows { OnOk result (Follows reader.new.seeker plain.new.live.devices) }
{
    match read_caller(line) {
        Some(caller) => told_by(reader, plain, caller, line),
        None => Ok(None),
    }
}

/// How many bytes most lines have at least.
const SHORT: usize = 24;

/// No events, with room for those of a text.
fn room_for(alloc: Global, text: &[u8]) -> Result<List<Event>, Memory>
    ensures { IfOk result (λ events. events ≡ []) }
{
    let mut events = List::make(alloc);
    events.reserve(text.len() / SHORT)?;
    Ok(events)
}

/// The events of the lines up to the next line `tree`, of which the first has this number: the world is then the one that
/// they lead to.
fn read_lines(
    reader: &mut Reader,
    plain: &mut Plain,
    text: &[u8],
    first: u64,
) -> Result<List<Event>, ReplayStop>
    requires going { IsGoing (setup_in reader.old) plain.old }
    requires follows { Follows reader.old.seeker plain.old.live.devices }
    requires next { plain.old.live.next ≤ first }
    requires few { first + length text.now < 2 ^ 64 - 1 }
    ensures read { ReadsLines (setup_in reader.old) reader.old.format plain.old first text.now result plain.new }
    ensures going { OnOk result (IsGoing (setup_in reader.old) plain.new) }
{
    let Ok(mut events) = room_for(reader.teller.alloc, text) else {
        return Err(ReplayStop::Memory);
    };
    let mut left = text;
    let mut number = first;
    while let Some((line, rest)) = first_line(left) {
        if is(line, b"tree") {
            return Ok(events);
        }
        let Ok(told) = step(reader, plain, line) else {
            return Err(ReplayStop::Memory);
        };
        let Some(event) = told else {
            return Err(ReplayStop::Bad { line: number });
        };
        if events.push(event).is_err() {
            return Err(ReplayStop::Memory);
        }
        left = rest;
        number += 1;
    }
    Err(ReplayStop::Bad { line: number })
}

/// The events of the lines of a format after its head.
fn read_behind_head(
    alloc: Global,
    rules: &Rules,
    plain: &mut Plain,
    format: Format,
    text: &[u8],
    first: u64,
) -> Result<List<Event>, ReplayStop>
    requires going { IsGoing rules.now plain.old }
    requires none { plain.old.live.devices ≡ [] }
    requires next { plain.old.live.next ≤ first }
    requires few { first + length text.now < 2 ^ 64 - 1 }
    ensures read { ReadsLines rules.now format plain.old first text.now result plain.new }
    ensures going { OnOk result (IsGoing rules.now plain.new) }
{
    match reader_by(alloc, rules, format) {
        Ok(mut reader) => read_lines(&mut reader, plain, text, first),
        Err(_) => Err(ReplayStop::Memory),
    }
}

/// The events of a history, from its head on: the world is then the one that they lead to.
pub fn read_history(
    alloc: Global,
    rules: &Rules,
    plain: &mut Plain,
    text: &[u8],
) -> Result<List<Event>, ReplayStop>
    requires going { IsGoing rules.now plain.old }
    requires none { plain.old.live.devices ≡ [] }
    requires next { plain.old.live.next ≤ 1 }
    ensures read { ReadsHistory rules.now plain.old text.now result plain.new }
    ensures going { OnOk result (IsGoing rules.now plain.new) }
{
    let mut left = text;
    let mut number = 1;
    while let Some((line, rest)) = first_line(left) {
        left = rest;
        number += 1;
        if let Some(format) = format_of(line) {
            return read_behind_head(alloc, rules, plain, format, left, number);
        }
    }
    Err(ReplayStop::Bad { line: 0 })
}
