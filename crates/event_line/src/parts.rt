//! The pieces of a line. If memory runs out, some of a piece may have been appended.
ghost use Rattle.std.specs.Prelude.{◌≡◌, ◌++◌, ◌∷◌, [], OnOk, codes, decimal, flat_map};
ghost use Rattle.run_rules.specs.Lines.{reply_text, started_text, answer_text, got_text, got_text_1, shown_text, shown_text_1, of_text, names_text, depth_names_text};

use cf_types::{List, Memory, Name, put_bytes, put_decimal};
use run_rules::{DepthName, Got, IoAnswer, Reply, Shown};

/// Appends a number in decimal.
#[tactic(auto, using(std::proofs::lemmas::Fmt::decimal_digit))]
#[inline(always)]
pub fn put_number(out: &mut Vec<u8>, number: u32) -> Result<(), Memory>
    ensures { OnOk result (out.new.items ≡ out.old.items ++ decimal number) }
{
    if number < 10 {
        out.push(b'0' + number as u8)?;
        return Ok(());
    }
    put_decimal(out, i64::from(number))
}

/// Appends a number in decimal, and a byte after it. Up to three digits are put in place.
#[inline(always)]
pub fn put_marked(out: &mut Vec<u8>, number: u32, mark: u8) -> Result<(), Memory>
    ensures { OnOk result (out.new.items ≡ out.old.items ++ (decimal number ++ mark ∷ [])) }
{
    if number >= 1000 {
        put_decimal(out, i64::from(number))?;
        out.push(mark)?;
        return Ok(());
    }
    let tens = number / 10;
    out.reserve(4)?;
    if number >= 100 {
        out.push_reserved(b'0' + (tens / 10) as u8);
    }
    if number >= 10 {
        out.push_reserved(b'0' + (tens % 10) as u8);
    }
    out.push_reserved(b'0' + (number % 10) as u8);
    out.push_reserved(mark);
    Ok(())
}

/// Appends a word and a name.
#[inline(always)]
pub fn put_named(out: &mut Vec<u8>, word: &[u8], name: &Name) -> Result<(), Memory>
    ensures { OnOk result (out.new.items ≡ out.old.items ++ (word.now ++ name.now)) }
{
    put_bytes(out, word)?;
    put_bytes(out, name.bytes())
}

/// Appends a word, a name, and the colon before what is said about it.
#[inline(always)]
pub fn put_said(out: &mut Vec<u8>, word: &[u8], name: &Name) -> Result<(), Memory>
    ensures { OnOk result (out.new.items ≡ out.old.items ++ (word.now ++ name.now ++ codes ": ")) }
{
    put_named(out, word, name)?;
    put_bytes(out, b": ")
}

/// Appends a reply.
pub fn put_reply(out: &mut Vec<u8>, reply: &Reply) -> Result<(), Memory>
    ensures { OnOk result (out.new.items ≡ out.old.items ++ reply_text reply.now) }
{
    match reply {
        Reply::Ok => put_bytes(out, b"ok"),
        Reply::NoDevice => put_bytes(out, b"no device"),
        Reply::Gone => put_bytes(out, b"gone"),
        Reply::Exclusive => put_bytes(out, b"exclusive"),
        Reply::TooMany => put_bytes(out, b"too many"),
        Reply::Shared => put_bytes(out, b"shared"),
        Reply::NotHeld => put_bytes(out, b"not held"),
        Reply::Asleep => put_bytes(out, b"asleep"),
        Reply::Busy(name) => put_named(out, b"busy ", name),
        Reply::NotSupported(name) => put_named(out, b"not supported ", name),
        Reply::SuspendFailed(name) => put_named(out, b"suspend failed ", name),
        Reply::NoRescan => put_bytes(out, b"no rescan"),
        Reply::BadAttribute => put_bytes(out, b"bad attribute"),
        Reply::BadLocator => put_bytes(out, b"bad locator"),
        Reply::NoSpot => put_bytes(out, b"no spot"),
    }
}

/// Appends the reply to a transfer that begins.
pub fn put_started(out: &mut Vec<u8>, reply: &Reply) -> Result<(), Memory>
    ensures { OnOk result (out.new.items ≡ out.old.items ++ started_text reply.now) }
{
    match reply {
        Reply::Ok => put_bytes(out, b"started"),
        _ => put_reply(out, reply),
    }
}

/// Appends the result of a transfer.
#[inline(always)]
pub fn put_answer(out: &mut Vec<u8>, answer: IoAnswer) -> Result<(), Memory>
    ensures { OnOk result (out.new.items ≡ out.old.items ++ answer_text answer) }
{
    match answer {
        IoAnswer::Number(n) => put_number(out, n),
        IoAnswer::DeviceError => put_bytes(out, b"error"),
    }
}

/// Appends a colon, and the name and the row of the device that was attached, if one was.
#[inline(always)]
pub fn put_got(out: &mut Vec<u8>, got: &Option<Got>) -> Result<(), Memory>
    ensures { OnOk result (out.new.items ≡ out.old.items ++ (codes ": " ++ got_text got.now)) }
{
    match got {
        None => put_bytes(out, b": not configured"),
        Some(got) => {
            put_named(out, b": ", &got.name)?;
            put_bytes(out, b" row ")?;
            put_number(out, got.row)
        }
    }
}

/// Appends what a finalizer answered: the spot that it showed, and what was attached there.
pub fn put_shown(out: &mut Vec<u8>, shown: &Option<Shown>) -> Result<(), Memory>
    ensures { OnOk result (out.new.items ≡ out.old.items ++ shown_text shown.now) }
{
    match shown {
        None => put_bytes(out, b"0"),
        Some(shown) => {
            put_named(out, b"1 on ", &shown.spot)?;
            put_got(out, &shown.got)
        }
    }
}

/// Appends the name of the device that was attached, if one was: format 1.
pub fn put_got_1(out: &mut Vec<u8>, got: &Option<Got>) -> Result<(), Memory>
    ensures { OnOk result (out.new.items ≡ out.old.items ++ got_text_1 got.now) }
{
    match got {
        None => put_bytes(out, b"not configured"),
        Some(got) => put_bytes(out, got.name.bytes()),
    }
}

/// Appends what a finalizer answered, and what was attached: format 1.
pub fn put_shown_1(out: &mut Vec<u8>, shown: &Option<Shown>) -> Result<(), Memory>
    ensures { OnOk result (out.new.items ≡ out.old.items ++ shown_text_1 shown.now) }
{
    match shown {
        None => put_bytes(out, b"0"),
        Some(shown) => {
            put_bytes(out, b"1 ")?;
            put_got_1(out, &shown.got)
        }
    }
}

/// Appends the device that a list or a tree is of, and a colon.
pub fn put_of(out: &mut Vec<u8>, device: &Option<Name>) -> Result<(), Memory>
    ensures { OnOk result (out.new.items ≡ out.old.items ++ of_text device.now) }
{
    match device {
        None => put_bytes(out, b":"),
        Some(name) => {
            put_named(out, b" ", name)?;
            put_bytes(out, b":")
        }
    }
}

/// Appends the names of a list.
pub fn put_names(out: &mut Vec<u8>, names: &Option<List<Name>>) -> Result<(), Memory>
    ensures { OnOk result (out.new.items ≡ out.old.items ++ names_text names.now) }
{
    match names {
        None => put_bytes(out, b" no device"),
        Some(names) => put_each(out, names.items()),
    }
}

fn put_each(out: &mut Vec<u8>, names: &[Name]) -> Result<(), Memory>
    ensures { OnOk result (out.new.items ≡ out.old.items ++ flat_map (λ name. codes " " ++ name) names.now) }
{
    for name in names {
        put_named(out, b" ", name)?;
    }
    Ok(())
}

/// Appends the names of a tree, each after its depth.
pub fn put_depth_names(out: &mut Vec<u8>, names: &Option<List<DepthName>>) -> Result<(), Memory>
    ensures { OnOk result (out.new.items ≡ out.old.items ++ depth_names_text names.now) }
{
    match names {
        None => put_bytes(out, b" no device"),
        Some(names) => put_each_depth(out, names.items()),
    }
}

fn put_each_depth(out: &mut Vec<u8>, names: &[DepthName]) -> Result<(), Memory>
    ensures { OnOk result (out.new.items ≡ out.old.items ++ flat_map (λ d. codes " " ++ decimal d.depth ++ codes " " ++ d.name) names.now) }
{
    for one in names {
        put_bytes(out, b" ")?;
        put_number(out, one.depth)?;
        put_named(out, b" ", &one.name)?;
    }
    Ok(())
}
