//! The rows of a configuration that a word names.
ghost use Rattle.std.specs.Prelude.{◌≡◌, ◌≤◌, ◌^◌, IfOk, length};
ghost use Rattle.cf_text.specs.Split.{split_of};
ghost use Rattle.attr_graph.specs.Graphs.{IsGraphOf, declared_by};
ghost use Rattle.config_rules.specs.Formed.{FormedTables};
ghost use Rattle.why_answers.specs.Rows.{carries, count_text, first_row, has_row, is_driver, is_meant, names_row, row_text, rows_lines, rows_named};
ghost use Rattle.gone_rows.specs.Gone.{stated_by};
ghost use Rattle.why_answers.specs.Known.{known_answer, says};

use attr_graph::Graph;
use cf_tables::Compiled;
use cf_text::{Split, split_unit};
use cf_types::{List, Memory, Row, Tables, Text, put_bytes, put_decimal};
use gone_rows::{Statements, begins, put_gone};
use ioconf_text::put_line_with;
use std::alloc::Global;
use why_text::device_name;

/// Whether a row gives its devices a unit.
fn carries(row: &Row, unit: u32) -> bool
    ensures { result ≡ carries row.now unit }
{
    if row.star {
        row.unit <= unit
    } else {
        row.unit == unit
    }
}

/// Whether a word is the name of a row's driver with a unit that the row gives, or with a star that the row has.
fn is_meant(tables: &Tables, word: &[u8], row: &Row) -> bool
    ensures { result ≡ is_meant tables.now word.now row.now (split_of word.now) }
{
    match split_unit(word) {
        Split::Unit { cut, unit } => {
            begins(word, cut, device_name(tables, row.device)) && carries(row, unit)
        }
        Split::Star { cut } => begins(word, cut, device_name(tables, row.device)) && row.star,
        _ => false,
    }
}

/// Whether a word names a row: it is the row's driver, or a device that the row may attach, or the row as it is written.
fn names_row(tables: &Tables, word: &[u8], row: &Row) -> bool
    ensures { result ≡ names_row tables.now word.now row.now }
{
    device_name(tables, row.device) == word || is_meant(tables, word, row)
}

/// Whether a word names the row of a number.
fn has_row(tables: &Tables, word: &[u8], number: u32) -> bool
    ensures { result ≡ has_row tables.now word.now number }
{
    match tables.rows.items().get(number as usize) {
        Some(row) => names_row(tables, word, row),
        None => false,
    }
}

/// The numbers of the rows that a word names, in their order.
pub fn rows_named(alloc: Global, tables: &Tables, word: &[u8]) -> Result<Vec<u32>, Memory>
    requires { FormedTables tables.now }
    ensures named { IfOk result (λ rows. rows.items ≡ rows_named tables.now word.now) }
    ensures few { IfOk result (λ rows. length rows.items ≤ 8192) }
{
    let mut rows = Vec::new(alloc);
    for number in 0..tables.rows.len() as u32 {
        if has_row(tables, word, number) {
            rows.push(number)?;
        }
    }
    Ok(rows)
}

/// The number of the line of the listing that has the first row.
fn first_row(tables: &Tables) -> u32
    requires { FormedTables tables.now }
    ensures { result ≡ first_row tables.now }
{
    let definitions = tables.attrs.len() + (tables.devices.len() + tables.attaches.len());
    definitions as u32 + 1
}

/// The row of a number as in the listing; empty if there is none.
fn row_line(alloc: Global, tables: &Tables, graph: &Graph, number: u32) -> Result<Text, Memory>
    requires formed { FormedTables tables.now }
    requires graph { IsGraphOf (declared_by tables.now) graph.now }
    ensures { IfOk result (λ line. line ≡ row_text tables.now number) }
{
    let mut line = Vec::new(alloc);
    if (number as usize) < tables.rows.len() {
        put_line_with(tables, graph, first_row(tables) + number, &mut line)?;
    }
    Ok(List::from_vec(line))
}

/// The count of the rows that a word names.
pub fn count_line(alloc: Global, word: &[u8], count: usize) -> Result<Text, Memory>
    requires { count ≤ 2 ^ 32 }
    ensures { IfOk result (λ line. line ≡ count_text word.now count) }
{
    let mut line = Vec::new(alloc);
    put_bytes(&mut line, b"rows of ")?;
    put_bytes(&mut line, word)?;
    put_bytes(&mut line, b": ")?;
    put_decimal(&mut line, count as i64)?;
    Ok(List::from_vec(line))
}

/// The count of rows, and these rows as in the listing.
fn rows_lines(
    alloc: Global,
    tables: &Tables,
    graph: &Graph,
    word: &[u8],
    rows: &[u32],
) -> Result<Vec<Text>, Memory>
    requires formed { FormedTables tables.now }
    requires graph { IsGraphOf (declared_by tables.now) graph.now }
    requires few { length rows.now ≤ 2 ^ 32 }
    ensures { IfOk result (λ lines. lines.items ≡ rows_lines tables.now word.now rows.now) }
{
    let mut lines = Vec::new(alloc);
    lines.push(count_line(alloc, word, rows.len())?)?;
    for number in rows {
        lines.push(row_line(alloc, tables, graph, *number)?)?;
    }
    Ok(lines)
}

/// Whether a word is the name of a device definition.
fn is_driver(tables: &Tables, word: &[u8]) -> bool
    ensures { result ≡ is_driver tables.now word.now }
{
    tables
        .devices
        .items()
        .iter()
        .any(|device| device.name.bytes() == word)
}

/// Whether lines say more than the count of no rows, or a word is the name of a device definition.
pub fn says(tables: &Tables, word: &[u8], lines: &[Text]) -> bool
    ensures { result ≡ says tables.now word.now lines.now }
{
    lines.len() > 1 || is_driver(tables, word)
}

/// The lines for a word by tables and their graph.
fn answer_in(
    alloc: Global,
    tables: &Tables,
    graph: &Graph,
    stated: &Statements,
    word: &[u8],
) -> Result<Option<List<Text>>, Memory>
    requires formed { FormedTables tables.now }
    requires graph { IsGraphOf (declared_by tables.now) graph.now }
    ensures { IfOk result (λ lines. lines ≡ known_answer tables.now (stated_by stated.now) word.now) }
{
    let rows = rows_named(alloc, tables, word)?;
    let mut lines = rows_lines(alloc, tables, graph, word, &rows)?;
    put_gone(alloc, &mut lines, stated, word)?;
    if !says(tables, word, &lines) {
        return Ok(None);
    }
    Ok(Some(List::from_vec(lines)))
}

/// The rows of the tables that a word names, as in the listing, below a line with their count: those of a driver, or those that
/// may attach a device of the name. Behind them a line for each instance of the name that is not in the tables. `None` if there is
/// neither, and the name is no driver. See config(5).
pub fn known_answer(
    alloc: Global,
    tables: &Compiled,
    stated: &Statements,
    word: &[u8],
) -> Result<Option<List<Text>>, Memory>
    requires { FormedTables tables.now }
    ensures { IfOk result (λ lines. lines ≡ known_answer tables.now (stated_by stated.now) word.now) }
{
    answer_in(alloc, tables.tables(), tables.graph(), stated, word)
}
