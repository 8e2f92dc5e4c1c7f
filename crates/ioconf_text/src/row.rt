ghost use Rattle.std.specs.Prelude.{◌≡◌, ◌<◌, ◌++◌, OnOk, map, codes, decimal, length, pos, if◌then◌else◌};
ghost use Rattle.std.specs.Fmt.{signed_decimal};
ghost use Rattle.std.specs.List.{enumerate_from, slice_index_or};
ghost use Rattle.config_rules.specs.Listing.{spaced, parent_text, at_text, row_name, row_head, row_tail, row_line, locator_name, value_text, values_text};

use crate::word::{
    put_assigned, put_attach_name, put_attr_name, put_device_name, put_number, put_place, put_unit,
};
use cf_types::{Locator, Memory, ParentSpec, Place, Row, Tables, put_decimal};
use locator_rules::locators_at;

/// The unit of a row, or the first one that a starred row may take: 0 for most of these.
#[tactic(auto, using(crate::proofs::NumberText::zero_decimal))]
fn put_row_unit(out: &mut Vec<u8>, row: &Row) -> Result<(), Memory>
    ensures { OnOk result (out.new.items ≡ out.old.items ++ (if row.now.star then codes "* from " ++ decimal row.now.unit else decimal row.now.unit)) }
{
    if row.star {
        if row.unit == 0 {
            return Ok(out.extend_from_slice(b"* from 0")?);
        }
        out.extend_from_slice(b"* from ")?;
    }
    put_decimal(out, i64::from(row.unit))
}

fn put_row_name(out: &mut Vec<u8>, tables: &Tables, row: &Row) -> Result<(), Memory>
    ensures { OnOk result (out.new.items ≡ out.old.items ++ row_name tables.now row.now) }
{
    put_device_name(out, tables, row.device)?;
    put_row_unit(out, row)
}

/// What a row attaches to, below an attribute.
fn put_parent(
    out: &mut Vec<u8>,
    tables: &Tables,
    attr: u32,
    parent: Option<ParentSpec>,
) -> Result<(), Memory>
    ensures { OnOk result (out.new.items ≡ out.old.items ++ parent_text tables.now attr parent) }
{
    let Some(parent) = parent else {
        put_attr_name(out, tables, attr)?;
        return Ok(out.push(b'?')?);
    };
    put_device_name(out, tables, parent.device)?;
    put_unit(out, parent.unit)
}

fn put_at(out: &mut Vec<u8>, tables: &Tables, row: &Row) -> Result<(), Memory>
    ensures { OnOk result (out.new.items ≡ out.old.items ++ at_text tables.now row.now.place row.now.parent) }
{
    match row.place {
        Place::Root => Ok(out.extend_from_slice(b"root")?),
        Place::At(attr) => put_parent(out, tables, attr, row.parent),
    }
}

fn put_locator_name(out: &mut Vec<u8>, locators: &[Locator], n: usize) -> Result<(), Memory>
    ensures { OnOk result (out.new.items ≡ out.old.items ++ locator_name locators.now n) }
{
    if let Some(locator) = locators.get(n) {
        out.extend_from_slice(locator.name.bytes())?;
    }
    Ok(())
}

fn put_value(out: &mut Vec<u8>, locators: &[Locator], n: usize, value: i64) -> Result<(), Memory>
    ensures { OnOk result (out.new.items ≡ out.old.items ++ value_text locators.now (n, value)) }
{
    put_locator_name(out, locators, n)?;
    put_assigned(out, value)
}

/// The value at a place.
fn put_spaced_value(
    out: &mut Vec<u8>,
    locators: &[Locator],
    values: &[i64],
    n: usize,
) -> Result<(), Memory>
    requires { n < length values.now }
    ensures { OnOk result (out.new.items ≡ out.old.items ++ (codes " " ++ value_text locators.now (n, slice_index_or values.now n (pos 0)))) }
{
    out.push(b' ')?;
    put_value(out, locators, n, values[n])
}

fn put_values(out: &mut Vec<u8>, locators: &[Locator], values: &[i64]) -> Result<(), Memory>
    ensures { OnOk result (out.new.items ≡ out.old.items ++ spaced (map (value_text locators.now) (enumerate_from 0 values.now))) }
{
    for n in 0..values.len() {
        put_spaced_value(out, locators, values, n)?;
    }
    Ok(())
}

fn put_row_head(out: &mut Vec<u8>, tables: &Tables, n: usize, row: &Row) -> Result<(), Memory>
    ensures { OnOk result (out.new.items ≡ out.old.items ++ row_head tables.now (n, row.now)) }
{
    out.extend_from_slice(b"row ")?;
    put_number(out, n)?;
    out.push(b' ')?;
    put_row_name(out, tables, row)?;
    out.extend_from_slice(b" at ")?;
    put_at(out, tables, row)
}

/// The flags, which are 0 in most rows.
#[tactic(auto, using(crate::proofs::NumberText::zero_text))]
fn put_flags(out: &mut Vec<u8>, flags: i64) -> Result<(), Memory>
    ensures { OnOk result (out.new.items ≡ out.old.items ++ (codes " flags " ++ signed_decimal flags)) }
{
    if flags == 0 {
        return Ok(out.extend_from_slice(b" flags 0")?);
    }
    out.extend_from_slice(b" flags ")?;
    put_decimal(out, flags)
}

fn put_row_tail(out: &mut Vec<u8>, tables: &Tables, row: &Row) -> Result<(), Memory>
    ensures { OnOk result (out.new.items ≡ out.old.items ++ row_tail tables.now row.now) }
{
    out.extend_from_slice(b" by ")?;
    put_attach_name(out, tables, row.attach)?;
    out.extend_from_slice(b" on ")?;
    put_place(out, tables, row.place)?;
    put_values(out, locators_at(tables, row.place), row.locs.items())?;
    put_flags(out, row.flags)
}

pub fn put_row(out: &mut Vec<u8>, tables: &Tables, n: usize, row: &Row) -> Result<(), Memory>
    ensures { OnOk result (out.new.items ≡ out.old.items ++ row_line tables.now (n, row.now)) }
{
    put_row_head(out, tables, n, row)?;
    put_row_tail(out, tables, row)
}
