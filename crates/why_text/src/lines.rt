//! The lines of all rows at a spot.
ghost use Rattle.std.specs.Prelude.{◌≡◌, IfOk, length, map, max};
ghost use Rattle.why_text.specs.WhyText.{column, head_text, others_text};
ghost use Rattle.why_text.specs.Looks.{place_in, reason_lines_in, row_text_in, told_lines_in};

use crate::head::put_head;
use crate::look::Look;
use crate::named::place_name;
use crate::row::row_line;
use cf_types::{List, Memory, Tables, Text, put_bytes, put_decimal};
use match_reasons::{RowReason, Told, told_of};
use plain_world::place_of;
use std::alloc::Global;

/// The greater of a length and that of the head of a row.
fn wider(alloc: Global, tables: &Tables, number: u32, width: usize) -> Result<usize, Memory>
    ensures { IfOk result (λ wide. wide ≡ max width (length (head_text tables.now number))) }
{
    let mut head = Vec::new(alloc);
    put_head(&mut head, tables, number)?;
    Ok(width.max(head.as_slice().len()))
}

/// The length of the longest head of these rows.
pub fn column(alloc: Global, tables: &Tables, rows: &[u32]) -> Result<usize, Memory>
    ensures { IfOk result (λ width. width ≡ column tables.now rows.now) }
{
    let mut width = 0usize;
    for row in rows {
        let wide = wider(alloc, tables, *row, width)?;
        width = wide;
    }
    Ok(width)
}

/// The numbers of these rows.
fn numbers_of(alloc: Global, rows: &[RowReason]) -> Result<Vec<u32>, Memory>
    ensures { IfOk result (λ numbers. numbers.items ≡ map (λ it. it.row) rows.now) }
{
    let mut numbers = Vec::with_capacity(alloc, rows.len())?;
    for told in rows {
        numbers.push(told.row)?;
    }
    Ok(numbers)
}

/// The lines of these rows.
fn row_lines(
    alloc: Global,
    look: &Look,
    takes: &[u8],
    width: usize,
    rows: &[RowReason],
) -> Result<Vec<Text>, Memory>
    ensures { IfOk result (λ lines. lines.items ≡ map (row_text_in takes.now width look.now) rows.now) }
{
    let mut lines = Vec::new(alloc);
    for told in rows {
        lines.push(row_line(alloc, look, takes, width, *told)?)?;
    }
    Ok(lines)
}

/// The line that counts the rows that are not told.
fn others_line(alloc: Global, look: &Look, others: u32) -> Result<Text, Memory>
    ensures { IfOk result (λ line. line ≡ others_text look.now.rules.now.tables (place_in look.now) others) }
{
    let rules = look.rules;
    let mut line = Vec::new(alloc);
    put_bytes(&mut line, b"rows of drivers that do not attach at ")?;
    put_bytes(
        &mut line,
        place_name(rules.tables, place_of(rules, look.spot)),
    )?;
    put_bytes(&mut line, b": ")?;
    put_decimal(&mut line, i64::from(others))?;
    Ok(List::from_vec(line))
}

/// The lines of what is told of a spot.
fn told_lines(alloc: Global, look: &Look, takes: &[u8], told: &Told) -> Result<Vec<Text>, Memory>
    ensures { IfOk result (λ lines. lines.items ≡ told_lines_in takes.now look.now told.now) }
{
    let rules = look.rules;
    let rows = told.rows.items();
    let numbers = numbers_of(alloc, rows)?;
    let width = column(alloc, rules.tables, &numbers)?;
    let mut lines = row_lines(alloc, look, takes, width, rows)?;
    let last = others_line(alloc, look, told.others)?;
    lines.push(last)?;
    Ok(lines)
}

/// A line for each row whose device has an attachment at the place of the spot, with the reason why the row does not take
/// the spot, or with these words if it has none; then a line with the count of the other rows.
pub fn reason_lines(alloc: Global, look: &Look, takes: &[u8]) -> Result<Vec<Text>, Memory>
    ensures { IfOk result (λ lines. lines.items ≡ reason_lines_in takes.now look.now) }
{
    let told = told_of(alloc, look.rules, look.live, look.parent, look.spot)?;
    told_lines(alloc, look, takes, &told)
}
