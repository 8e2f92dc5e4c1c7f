//! The line of a row.
ghost use Rattle.std.specs.Prelude.{◌≡◌, ◌++◌, IfOk, OnOk, replicate};
ghost use Rattle.why_text.specs.WhyText.{padded, row_front};
ghost use Rattle.why_text.specs.Looks.{row_reason_in, row_text_in, why_in};

use crate::head::put_head;
use crate::look::Look;
use crate::words::put_reason;
use cf_types::{List, Memory, Tables, Text, put_bytes};
use match_reasons::{Reason, RowReason};
use plain_world::row_at;
use std::alloc::Global;

/// So many blanks.
fn put_blanks(out: &mut Vec<u8>, count: usize) -> Result<(), Memory>
    ensures { OnOk result (out.new.items ≡ out.old.items ++ replicate count 32) }
{
    for _place in 0..count {
        out.push(b' ')?;
    }
    Ok(())
}

/// Blanks behind a text, up to a column.
fn pad(line: &mut Vec<u8>, width: usize) -> Result<(), Memory>
    ensures { OnOk result (line.new.items ≡ padded width line.old.items) }
{
    let length = line.as_slice().len();
    put_blanks(line, width.saturating_sub(length))
}

/// Why the row of a number does not take the spot; nothing if there is no such row.
fn put_reason_of(out: &mut Vec<u8>, look: &Look, number: u32, reason: Reason) -> Result<(), Memory>
    ensures { OnOk result (out.new.items ≡ out.old.items ++ row_reason_in look.now number reason) }
{
    match row_at(look.rules, number) {
        Some(row) => put_reason(out, look, number, row, reason),
        None => Ok(()),
    }
}

/// Why a row does not take the spot, or these words if it has no reason.
pub fn put_why(out: &mut Vec<u8>, look: &Look, takes: &[u8], told: RowReason) -> Result<(), Memory>
    ensures { OnOk result (out.new.items ≡ out.old.items ++ why_in takes.now look.now told) }
{
    match told.reason {
        Some(reason) => put_reason_of(out, look, told.row, reason),
        None => put_bytes(out, takes),
    }
}

/// The head of the row of a number, up to a column, and two blanks.
pub fn row_front(
    alloc: Global,
    tables: &Tables,
    width: usize,
    number: u32,
) -> Result<Vec<u8>, Memory>
    ensures { IfOk result (λ line. line.items ≡ row_front width tables.now number) }
{
    let mut line = Vec::new(alloc);
    put_head(&mut line, tables, number)?;
    pad(&mut line, width)?;
    put_bytes(&mut line, b"  ")?;
    Ok(line)
}

/// The line of a row: its head, and why it does not take the spot, or these words if it does.
pub fn row_line(
    alloc: Global,
    look: &Look,
    takes: &[u8],
    width: usize,
    told: RowReason,
) -> Result<Text, Memory>
    ensures { IfOk result (λ line. line ≡ row_text_in takes.now width look.now told) }
{
    let rules = look.rules;
    let mut line = row_front(alloc, rules.tables, width, told.row)?;
    put_why(&mut line, look, takes, told)?;
    Ok(List::from_vec(line))
}
