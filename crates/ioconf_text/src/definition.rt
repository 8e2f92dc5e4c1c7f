ghost use Rattle.std.specs.Prelude.{◌≡◌, ◌++◌, [], OnOk, map, codes};
ghost use Rattle.config_rules.specs.Listing.{spaced, default_text, locator_text, attr_line, attr_name, offers_text, device_text, attach_line, place_name};

use crate::word::{put_assigned, put_attr_name, put_device_name, put_place};
use cf_types::{Attach, Attr, Device, Locator, Memory, Place, Tables};

/// A locator with its default.
fn put_default(out: &mut Vec<u8>, locator: &Locator, default: i64) -> Result<(), Memory>
    ensures { OnOk result (out.new.items ≡ out.old.items ++ default_text locator.now default) }
{
    if locator.optional {
        out.push(b'[')?;
    }
    out.extend_from_slice(locator.name.bytes())?;
    put_assigned(out, default)?;
    if locator.optional {
        out.push(b']')?;
    }
    Ok(())
}

fn put_locator(out: &mut Vec<u8>, locator: &Locator) -> Result<(), Memory>
    ensures { OnOk result (out.new.items ≡ out.old.items ++ locator_text locator.now) }
{
    match locator.default {
        Some(default) => put_default(out, locator, default),
        None => Ok(out.extend_from_slice(locator.name.bytes())?),
    }
}

fn put_spaced_locator(out: &mut Vec<u8>, locator: &Locator) -> Result<(), Memory>
    ensures { OnOk result (out.new.items ≡ out.old.items ++ (codes " " ++ locator_text locator.now)) }
{
    out.push(b' ')?;
    put_locator(out, locator)
}

fn put_locators(out: &mut Vec<u8>, locators: &[Locator]) -> Result<(), Memory>
    ensures { OnOk result (out.new.items ≡ out.old.items ++ spaced (map locator_text locators.now)) }
{
    for locator in locators {
        put_spaced_locator(out, locator)?;
    }
    Ok(())
}

pub fn put_attr(out: &mut Vec<u8>, attr: &Attr) -> Result<(), Memory>
    ensures { OnOk result (out.new.items ≡ out.old.items ++ attr_line attr.now) }
{
    if !attr.iface {
        out.extend_from_slice(b"attr ")?;
        out.extend_from_slice(attr.name.bytes())?;
        return Ok(());
    }
    out.extend_from_slice(b"iattr ")?;
    out.extend_from_slice(attr.name.bytes())?;
    put_locators(out, attr.locs.items())
}

fn put_spaced_attr(out: &mut Vec<u8>, tables: &Tables, attr: u32) -> Result<(), Memory>
    ensures { OnOk result (out.new.items ≡ out.old.items ++ (codes " " ++ attr_name tables.now attr)) }
{
    out.push(b' ')?;
    put_attr_name(out, tables, attr)
}

/// What a device offers, if it offers anything.
fn put_offers(out: &mut Vec<u8>, tables: &Tables, interfaces: &[u32]) -> Result<(), Memory>
    ensures { OnOk result (out.new.items ≡ out.old.items ++ offers_text tables.now interfaces.now) }
{
    if interfaces.is_empty() {
        return Ok(());
    }
    out.extend_from_slice(b" offers")?;
    for attr in interfaces {
        put_spaced_attr(out, tables, *attr)?;
    }
    Ok(())
}

/// A device and its interface list.
pub fn put_device(
    out: &mut Vec<u8>,
    tables: &Tables,
    device: &Device,
    interfaces: &[u32],
) -> Result<(), Memory>
    ensures { OnOk result (out.new.items ≡ out.old.items ++ device_text tables.now device.now interfaces.now) }
{
    out.extend_from_slice(b"device ")?;
    out.extend_from_slice(device.name.bytes())?;
    put_offers(out, tables, interfaces)
}

fn put_spaced_place(out: &mut Vec<u8>, tables: &Tables, place: Place) -> Result<(), Memory>
    ensures { OnOk result (out.new.items ≡ out.old.items ++ (codes " " ++ place_name tables.now place)) }
{
    out.push(b' ')?;
    put_place(out, tables, place)
}

fn put_places(out: &mut Vec<u8>, tables: &Tables, places: &[Place]) -> Result<(), Memory>
    ensures { OnOk result (out.new.items ≡ out.old.items ++ spaced (map (place_name tables.now) places.now)) }
{
    for place in places {
        put_spaced_place(out, tables, *place)?;
    }
    Ok(())
}

pub fn put_attach(out: &mut Vec<u8>, tables: &Tables, attach: &Attach) -> Result<(), Memory>
    ensures { OnOk result (out.new.items ≡ out.old.items ++ attach_line tables.now attach.now) }
{
    out.extend_from_slice(b"attach ")?;
    out.extend_from_slice(attach.name.bytes())?;
    out.extend_from_slice(b" of ")?;
    put_device_name(out, tables, attach.device)?;
    out.extend_from_slice(b" at")?;
    put_places(out, tables, attach.places.items())
}
