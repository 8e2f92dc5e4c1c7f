//! Which instances are not in the tables, and why.
ghost use Rattle.std.specs.Prelude.{◌≡◌, ◌++◌, Some, IfOk, OnOk, map};
ghost use Rattle.std.specs.Option.{option_copied};
ghost use Rattle.cf_types.specs.Gather.{is_in};
ghost use Rattle.gone_rows.specs.Gone.{gone_places, is_gone, stated_by, taken_at};
ghost use Rattle.gone_rows.specs.GoneText.{gone_lines, gone_text, reason_text};

use crate::statement::put_placed;
use crate::taken::taken_by;
use crate::words::names_instance;
use cf_types::{List, Memory, Placed, Text, put_bytes};
use std::alloc::Global;

/// The statements of a configuration that was read without a fault.
#[derive(Clone, Copy)]
pub struct Statements<'a> {
    /// The names of its files.
    pub files: &'a [Text],
    /// Its statements in reading order.
    pub placed: &'a [Placed],
    /// The places of the instances that are orphans.
    pub orphans: &'a [u32],
}

/// The negation that takes back the statement at a place: the first behind it that names it.
fn taken_at<'a>(placed: &'a [Placed], place: usize) -> Option<&'a Placed>
    ensures { option_copied result ≡ taken_at placed.now place }
{
    match placed.get(place) {
        Some(statement) => taken_by(&statement.stmt, &placed[place + 1..]),
        None => None,
    }
}

/// Whether a place is among these.
fn is_in(place: usize, places: &[u32]) -> bool
    ensures { result ≡ is_in place places.now }
{
    places.iter().any(|other| *other as usize == place)
}

/// Whether a word names the instance at a place, and it is taken back or an orphan.
fn is_gone(stated: &Statements, word: &[u8], place: usize) -> bool
    ensures { result ≡ is_gone (stated_by stated.now) word.now place }
{
    match stated.placed.get(place) {
        Some(statement) => {
            names_instance(word, &statement.stmt)
                && (taken_at(stated.placed, place).is_some() || is_in(place, stated.orphans))
        }
        None => false,
    }
}

/// The places of the instances of a word that are not in the tables, in their order.
fn gone_places(alloc: Global, stated: &Statements, word: &[u8]) -> Result<Vec<usize>, Memory>
    ensures { IfOk result (λ places. places.items ≡ gone_places (stated_by stated.now) word.now) }
{
    let mut places = Vec::new(alloc);
    for place in 0..stated.placed.len() {
        if is_gone(stated, word, place) {
            places.push(place)?;
        }
    }
    Ok(places)
}

/// That a negation took an instance back.
fn put_taken(out: &mut Vec<u8>, files: &[Text], negation: &Placed) -> Result<(), Memory>
    ensures { OnOk result (out.new.items ≡ out.old.items ++ reason_text files.now (Some negation.now)) }
{
    put_bytes(out, b": taken back by ")?;
    put_placed(out, files, negation)
}

/// Why the instance at a place is not in the tables: the negation that took it back, or that it is an orphan.
fn put_reason(
    out: &mut Vec<u8>,
    files: &[Text],
    placed: &[Placed],
    place: usize,
) -> Result<(), Memory>
    ensures { OnOk result (out.new.items ≡ out.old.items ++ reason_text files.now (taken_at placed.now place)) }
{
    match taken_at(placed, place) {
        Some(negation) => put_taken(out, files, negation),
        None => put_bytes(out, b": an orphan, without a parent that leads to the root"),
    }
}

/// The line of the instance at a place: its statement, and why it is not in the tables.
fn gone_line(alloc: Global, files: &[Text], placed: &[Placed], place: usize) -> Result<Text, Memory>
    ensures { IfOk result (λ line. line ≡ gone_text files.now placed.now place) }
{
    let mut line = Vec::new(alloc);
    if let Some(statement) = placed.get(place) {
        put_placed(&mut line, files, statement)?;
        put_reason(&mut line, files, placed, place)?;
    }
    Ok(List::from_vec(line))
}

/// Appends the lines of the instances at these places.
fn put_lines(
    alloc: Global,
    lines: &mut Vec<Text>,
    files: &[Text],
    placed: &[Placed],
    places: &[usize],
) -> Result<(), Memory>
    ensures { OnOk result (lines.new.items ≡ lines.old.items ++ map (gone_text files.now placed.now) places.now) }
{
    for place in places {
        lines.push(gone_line(alloc, files, placed, *place)?)?;
    }
    Ok(())
}

/// Appends a line for each instance of a word that is not in the tables, in the order of their statements: the statement with its file
/// and line, and the negation that took it back, or that it is an orphan. See config(5).
pub fn put_gone(
    alloc: Global,
    lines: &mut Vec<Text>,
    stated: &Statements,
    word: &[u8],
) -> Result<(), Memory>
    ensures { OnOk result (lines.new.items ≡ lines.old.items ++ gone_lines (stated_by stated.now) word.now) }
{
    let places = gone_places(alloc, stated, word)?;
    put_lines(alloc, lines, stated.files, stated.placed, &places)
}
