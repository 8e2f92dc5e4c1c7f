ghost use Rattle.std.specs.Prelude.{◌≡◌, IfOk};
ghost use Rattle.dev_event.specs.Reading as reading;

use crate::cut::{before, behind, is, name_in, number_in};
use cf_types::Memory;
use run_rules::{IoAnswer, Reply};
use std::alloc::Global;

/// The reply without a name that a text spells.
fn plain_reply(text: &[u8]) -> Option<Reply>
    ensures { result ≡ reading.plain_reply text.now }
{
    if is(text, b"ok") {
        Some(Reply::Ok)
    } else if is(text, b"no device") {
        Some(Reply::NoDevice)
    } else if is(text, b"gone") {
        Some(Reply::Gone)
    } else if is(text, b"exclusive") {
        Some(Reply::Exclusive)
    } else if is(text, b"too many") {
        Some(Reply::TooMany)
    } else if is(text, b"shared") {
        Some(Reply::Shared)
    } else if is(text, b"not held") {
        Some(Reply::NotHeld)
    } else if is(text, b"asleep") {
        Some(Reply::Asleep)
    } else if is(text, b"no rescan") {
        Some(Reply::NoRescan)
    } else if is(text, b"bad attribute") {
        Some(Reply::BadAttribute)
    } else if is(text, b"bad locator") {
        Some(Reply::BadLocator)
    } else if is(text, b"no spot") {
        Some(Reply::NoSpot)
    } else {
        None
    }
}

/// The reply with a name that a text may spell, by its first word.
fn named_reply(alloc: Global, text: &[u8]) -> Result<Option<Reply>, Memory>
    ensures { IfOk result (λ reply. reply ≡ reading.named_reply text.now) }
{
    let word = before(text, b' ');
    let rest = behind(text, b' ');
    if is(word, b"busy") {
        return Ok(name_in(alloc, rest)?.map(|name| Reply::Busy(name)));
    }
    let name = name_in(alloc, behind(rest, b' '))?;
    if is(word, b"not") {
        return Ok(name.map(|name| Reply::NotSupported(name)));
    }
    Ok(name.map(|name| Reply::SuspendFailed(name)))
}

/// The reply that a text may spell.
pub fn reply_in(alloc: Global, text: &[u8]) -> Result<Option<Reply>, Memory>
    ensures { IfOk result (λ reply. reply ≡ reading.reply_in text.now) }
{
    match plain_reply(text) {
        Some(reply) => Ok(Some(reply)),
        None => named_reply(alloc, text),
    }
}

/// The reply to a transfer that a text may spell.
pub fn started_in(alloc: Global, text: &[u8]) -> Result<Option<Reply>, Memory>
    ensures { IfOk result (λ reply. reply ≡ reading.started_in text.now) }
{
    if is(text, b"started") {
        return Ok(Some(Reply::Ok));
    }
    reply_in(alloc, text)
}

/// The result of a transfer, as a text may spell it.
pub fn answer_in(text: &[u8]) -> IoAnswer
    ensures { result ≡ reading.answer_in text.now }
{
    if is(text, b"error") {
        IoAnswer::DeviceError
    } else {
        IoAnswer::Number(number_in(text))
    }
}
