//! Why no search of a boot came to a spot.
ghost use Rattle.std.specs.Prelude.{◌≡◌, ◌++◌, OnOk};
ghost use Rattle.plain_world.specs.Plain.{world_of};
ghost use Rattle.why_answers.specs.Answers.{below_spot, device_text, no_device_text, not_offered_text, unsearched, unsearched_text, without_bus};

use cf_types::{Memory, put_bytes};
use plain_choice::hangs_below;
use plain_names::unit_name;
use plain_world::{Live, Plain, Rules, device_at, device_on, place_of};
use why_text::{place_name, spot_name};

/// Why no search of a boot came to a spot.
#[derive(Clone, Copy)]
pub enum Unsearched {
    /// No device is on the spot of this number, below which it is.
    NoDevice(u16),
    /// The device of this serial, below which it is, does not offer its attribute.
    NotOffered(u64),
    /// It has no hardware.
    Absent,
    /// It is late, and no finalizer has shown it.
    Late,
}

/// Why no device on another spot offers the attribute of a spot.
fn below_spot(rules: &Rules, live: &Live, above: u16, spot: u16) -> Option<Unsearched>
    ensures { result ≡ below_spot rules.now live.now.devices spot above }
{
    let Some(device) = device_on(live, above) else {
        return Some(Unsearched::NoDevice(above));
    };
    if hangs_below(rules, device, spot) {
        None
    } else {
        Some(Unsearched::NotOffered(device.serial))
    }
}

/// The same of the spot below which it is; of a spot below the root there is no such reason.
fn without_bus(rules: &Rules, live: &Live, spot: u16) -> Option<Unsearched>
    ensures { result ≡ without_bus rules.now live.now.devices spot }
{
    match rules.machine.spots.items().get(spot as usize) {
        Some(hardware) => match hardware.parent {
            Some(above) => below_spot(rules, live, above, spot),
            None => None,
        },
        None => None,
    }
}

/// Why no search came to a spot, by the world in which the boot ends: the first reason that applies.
pub fn why_never(rules: &Rules, end: &Plain, spot: u16) -> Option<Unsearched>
    ensures { result ≡ unsearched (world_of rules.now end.now) spot }
{
    if let Some(why) = without_bus(rules, &end.live, spot) {
        return Some(why);
    }
    if end.absent.has(spot) {
        return Some(Unsearched::Absent);
    }
    if end.hidden.has(spot) {
        return Some(Unsearched::Late);
    }
    None
}

/// The name of a live device; nothing if there is none of this serial.
fn put_device(out: &mut Vec<u8>, rules: &Rules, live: &Live, serial: u64) -> Result<(), Memory>
    ensures { OnOk result (out.new.items ≡ out.old.items ++ device_text rules.now live.now.devices serial) }
{
    match device_at(live, serial) {
        Some(device) => {
            let name = unit_name(*out.allocator(), rules, device.row, device.unit)?;
            put_bytes(out, name.bytes())
        }
        None => Ok(()),
    }
}

/// The device of a serial does not offer the attribute of the spot.
fn put_not_offered(
    out: &mut Vec<u8>,
    rules: &Rules,
    live: &Live,
    serial: u64,
    spot: u16,
) -> Result<(), Memory>
    ensures { OnOk result (out.new.items ≡ out.old.items ++ not_offered_text rules.now live.now.devices serial spot) }
{
    put_device(out, rules, live, serial)?;
    put_bytes(out, b" does not offer ")?;
    put_bytes(out, place_name(rules.tables, place_of(rules, spot)))
}

/// No device is on the spot above.
fn put_no_device(out: &mut Vec<u8>, rules: &Rules, above: u16) -> Result<(), Memory>
    ensures { OnOk result (out.new.items ≡ out.old.items ++ no_device_text rules.now above) }
{
    put_bytes(out, b"no device is on its parent spot ")?;
    put_bytes(out, spot_name(rules.machine, above))
}

/// Why no search came to a spot, in words.
pub fn put_unsearched(
    out: &mut Vec<u8>,
    rules: &Rules,
    live: &Live,
    why: Unsearched,
    spot: u16,
) -> Result<(), Memory>
    ensures { OnOk result (out.new.items ≡ out.old.items ++ unsearched_text rules.now live.now.devices spot why) }
{
    match why {
        Unsearched::NoDevice(above) => put_no_device(out, rules, above),
        Unsearched::NotOffered(serial) => put_not_offered(out, rules, live, serial, spot),
        Unsearched::Absent => put_bytes(out, b"it is absent"),
        Unsearched::Late => put_bytes(out, b"it is late, and no finalizer has shown it"),
    }
}
