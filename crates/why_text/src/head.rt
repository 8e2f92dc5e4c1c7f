//! A row in short: its number, the device, and what it attaches to.
ghost use Rattle.std.specs.Prelude.{◌≡◌, ◌++◌, OnOk};
ghost use Rattle.config_rules.specs.Listing as listing;
ghost use Rattle.why_text.specs.WhyText.{head_text};

use crate::named::{attr_name, device_name};
use cf_types::{Memory, ParentSpec, Place, Row, Tables, put_bytes, put_decimal};

/// The device of a row, with its unit or with a star and its first unit.
fn put_row_name(out: &mut Vec<u8>, tables: &Tables, row: &Row) -> Result<(), Memory>
    ensures { OnOk result (out.new.items ≡ out.old.items ++ listing.row_name tables.now row.now) }
{
    put_bytes(out, device_name(tables, row.device))?;
    if row.star {
        put_bytes(out, b"* from ")?;
    }
    put_decimal(out, i64::from(row.unit))
}

/// A parent device with its unit, or with `?` for any.
fn put_device(out: &mut Vec<u8>, tables: &Tables, parent: ParentSpec) -> Result<(), Memory>
    ensures { OnOk result (out.new.items ≡ out.old.items ++ (listing.device_name tables.now parent.device ++ listing.unit_text parent.unit)) }
{
    put_bytes(out, device_name(tables, parent.device))?;
    match parent.unit {
        Some(unit) => put_decimal(out, i64::from(unit)),
        None => put_bytes(out, b"?"),
    }
}

/// An attribute with `?`.
fn put_any(out: &mut Vec<u8>, tables: &Tables, attr: u32) -> Result<(), Memory>
    ensures { OnOk result (out.new.items ≡ out.old.items ++ listing.parent_text tables.now attr None) }
{
    put_bytes(out, attr_name(tables, attr))?;
    put_bytes(out, b"?")
}

/// What a row attaches to.
pub fn put_at(out: &mut Vec<u8>, tables: &Tables, row: &Row) -> Result<(), Memory>
    ensures { OnOk result (out.new.items ≡ out.old.items ++ listing.at_text tables.now row.now.place row.now.parent) }
{
    match (row.place, row.parent) {
        (Place::Root, _) => put_bytes(out, b"root"),
        (Place::At(attr), None) => put_any(out, tables, attr),
        (Place::At(_), Some(parent)) => put_device(out, tables, parent),
    }
}

/// The head of a row that is there.
fn put_head_of(out: &mut Vec<u8>, tables: &Tables, number: u32, row: &Row) -> Result<(), Memory>
    ensures { OnOk result (out.new.items ≡ out.old.items ++ listing.row_head tables.now (number, row.now)) }
{
    put_bytes(out, b"row ")?;
    put_decimal(out, i64::from(number))?;
    put_bytes(out, b" ")?;
    put_row_name(out, tables, row)?;
    put_bytes(out, b" at ")?;
    put_at(out, tables, row)
}

/// The head of the row of a number, as in the listing; nothing if there is none.
pub fn put_head(out: &mut Vec<u8>, tables: &Tables, number: u32) -> Result<(), Memory>
    ensures { OnOk result (out.new.items ≡ out.old.items ++ head_text tables.now number) }
{
    match tables.rows.items().get(number as usize) {
        Some(row) => put_head_of(out, tables, number, row),
        None => Ok(()),
    }
}
