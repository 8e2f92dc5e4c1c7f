//! Instances and their negations as they are written.
ghost use Rattle.std.specs.Prelude.{◌≡◌, ◌++◌, [], OnOk};
ghost use Rattle.std.specs.List.{slice_index_or};
ghost use Rattle.std.specs.Option.{option_map_or};
ghost use Rattle.gone_rows.specs.GoneText.{at_text, mark_text, negated_text, placed_text, statement_text, unit_text, where_text};

use cf_types::{AtSpec, Memory, Placed, Stmt, Text, UnitMark, put_bytes, put_decimal};

fn put_mark(out: &mut Vec<u8>, mark: UnitMark) -> Result<(), Memory>
    ensures { OnOk result (out.new.items ≡ out.old.items ++ mark_text mark) }
{
    match mark {
        UnitMark::Fixed(unit) => put_decimal(out, i64::from(unit)),
        UnitMark::Star => put_bytes(out, b"*"),
    }
}

fn put_unit(out: &mut Vec<u8>, unit: Option<u32>) -> Result<(), Memory>
    ensures { OnOk result (out.new.items ≡ out.old.items ++ unit_text unit) }
{
    match unit {
        Some(unit) => put_decimal(out, i64::from(unit)),
        None => put_bytes(out, b"?"),
    }
}

/// What follows the word `at`, with this word.
fn put_at(out: &mut Vec<u8>, at: &AtSpec) -> Result<(), Memory>
    ensures { OnOk result (out.new.items ≡ out.old.items ++ at_text at.now) }
{
    match at {
        AtSpec::Root => put_bytes(out, b" at root"),
        AtSpec::Named { base, unit } => {
            put_bytes(out, b" at ")?;
            put_bytes(out, base.bytes())?;
            put_unit(out, *unit)
        }
    }
}

/// An attachment, if one is written.
fn put_negated(out: &mut Vec<u8>, at: &Option<AtSpec>) -> Result<(), Memory>
    ensures { OnOk result (out.new.items ≡ out.old.items ++ negated_text at.now) }
{
    match at {
        Some(at) => put_at(out, at),
        None => Ok(()),
    }
}

/// An instance without its locators, or a negation of instances.
fn put_statement(out: &mut Vec<u8>, stmt: &Stmt) -> Result<(), Memory>
    ensures { OnOk result (out.new.items ≡ out.old.items ++ statement_text stmt.now) }
{
    match stmt {
        Stmt::Inst { base, mark, at, .. } => {
            put_bytes(out, base.bytes())?;
            put_mark(out, *mark)?;
            put_at(out, at)
        }
        Stmt::NoInst { base, mark, at } => {
            put_bytes(out, b"no ")?;
            put_bytes(out, base.bytes())?;
            put_mark(out, *mark)?;
            put_negated(out, at)
        }
        Stmt::NoDevice { at } => {
            put_bytes(out, b"no device")?;
            put_at(out, at)
        }
        _ => Ok(()),
    }
}

/// The name of a file by its place; empty if there is none.
fn put_file(out: &mut Vec<u8>, files: &[Text], file: u32) -> Result<(), Memory>
    ensures { OnOk result (out.new.items ≡ out.old.items ++ slice_index_or files.now file []) }
{
    match files.get(file as usize) {
        Some(name) => put_bytes(out, name.items()),
        None => Ok(()),
    }
}

/// The file and line of a statement, in parentheses.
fn put_where(out: &mut Vec<u8>, files: &[Text], statement: &Placed) -> Result<(), Memory>
    ensures { OnOk result (out.new.items ≡ out.old.items ++ where_text files.now statement.now) }
{
    put_bytes(out, b" (")?;
    put_file(out, files, statement.file)?;
    put_bytes(out, b":")?;
    put_decimal(out, i64::from(statement.line))?;
    put_bytes(out, b")")
}

/// A statement with its file and line.
pub fn put_placed(out: &mut Vec<u8>, files: &[Text], statement: &Placed) -> Result<(), Memory>
    ensures { OnOk result (out.new.items ≡ out.old.items ++ placed_text files.now statement.now) }
{
    put_statement(out, &statement.stmt)?;
    put_where(out, files, statement)
}
