ghost use Rattle.std.specs.Prelude.{◌≡◌, ◌++◌, OnOk, codes, decimal};
ghost use Rattle.std.specs.Fmt.{signed_decimal};
ghost use Rattle.config_rules.specs.Listing.{attr_name, device_name, attach_name, place_name, unit_text};

use cf_types::{Memory, Place, Tables, put_decimal};
use itoa::Buffer;

pub fn put_attr_name(out: &mut Vec<u8>, tables: &Tables, attr: u32) -> Result<(), Memory>
    ensures { OnOk result (out.new.items ≡ out.old.items ++ attr_name tables.now attr) }
{
    if let Some(attr) = tables.attrs.items().get(attr as usize) {
        out.extend_from_slice(attr.name.bytes())?;
    }
    Ok(())
}

pub fn put_device_name(out: &mut Vec<u8>, tables: &Tables, device: u32) -> Result<(), Memory>
    ensures { OnOk result (out.new.items ≡ out.old.items ++ device_name tables.now device) }
{
    if let Some(device) = tables.devices.items().get(device as usize) {
        out.extend_from_slice(device.name.bytes())?;
    }
    Ok(())
}

pub fn put_attach_name(out: &mut Vec<u8>, tables: &Tables, attach: u32) -> Result<(), Memory>
    ensures { OnOk result (out.new.items ≡ out.old.items ++ attach_name tables.now attach) }
{
    if let Some(attach) = tables.attaches.items().get(attach as usize) {
        out.extend_from_slice(attach.name.bytes())?;
    }
    Ok(())
}

pub fn put_place(out: &mut Vec<u8>, tables: &Tables, place: Place) -> Result<(), Memory>
    ensures { OnOk result (out.new.items ≡ out.old.items ++ place_name tables.now place) }
{
    match place {
        Place::Root => Ok(out.extend_from_slice(b"root")?),
        Place::At(attr) => put_attr_name(out, tables, attr),
    }
}

pub fn put_unit(out: &mut Vec<u8>, unit: Option<u32>) -> Result<(), Memory>
    ensures { OnOk result (out.new.items ≡ out.old.items ++ unit_text unit) }
{
    match unit {
        Some(unit) => put_decimal(out, i64::from(unit)),
        None => Ok(out.push(b'?')?),
    }
}

/// A number in decimal that counts rows.
pub fn put_number(out: &mut Vec<u8>, number: usize) -> Result<(), Memory>
    ensures { OnOk result (out.new.items ≡ out.old.items ++ decimal number) }
{
    let mut digits = Buffer::new();
    out.extend_from_slice(digits.format(number).as_bytes())?;
    Ok(())
}

/// `=` and a value. Most values are -1 or 0, whose digits need not be made.
#[tactic(auto, using(crate::proofs::NumberText::zero_text, crate::proofs::NumberText::minus_one_text))]
pub fn put_assigned(out: &mut Vec<u8>, value: i64) -> Result<(), Memory>
    ensures { OnOk result (out.new.items ≡ out.old.items ++ (codes "=" ++ signed_decimal value)) }
{
    if value == -1 {
        return Ok(out.extend_from_slice(b"=-1")?);
    }
    if value == 0 {
        return Ok(out.extend_from_slice(b"=0")?);
    }
    out.push(b'=')?;
    put_decimal(out, value)
}
