//! A reason in words.
ghost use Rattle.std.specs.Prelude.{◌≡◌, ◌++◌, OnOk, decimal, pos};
ghost use Rattle.std.specs.List.{slice_index_or};
ghost use Rattle.cf_types.specs.Locators.{locators_at};
ghost use Rattle.config_rules.specs.Listing as listing;
ghost use Rattle.run_rules.specs.Search as rule;
ghost use Rattle.why_text.specs.WhyText.{beaten_text, below_text, equal_text, locator_text, match_text, parent_text, taken_text, unmatched_text};
ghost use Rattle.run_rules.specs.World.{name_of, parent_name};
ghost use Rattle.why_text.specs.Looks.{place_in, reason_in, setup_in};

use crate::head::put_at;
use crate::look::Look;
use crate::named::{attach_name, device_name, locator_name, spot_name};
use cf_types::{Locator, Machine, MatchLine, Memory, Row, Tables, put_bytes, put_decimal};
use locator_rules::locators_at;
use match_reasons::{Reason, counting_line, match_value};
use plain_world::{device_at, driver_of, found_at, place_of};
use run_rules::Dev;

/// The name of a live device.
#[tactic(auto, unfolding(run_rules::specs::World::unit_name))]
fn put_device(out: &mut Vec<u8>, look: &Look, device: Dev) -> Result<(), Memory>
    ensures { OnOk result (out.new.items ≡ out.old.items ++ name_of (setup_in look.now) device) }
{
    let rules = look.rules;
    put_bytes(out, device_name(rules.tables, driver_of(rules, device.row)))?;
    put_decimal(out, i64::from(device.unit))
}

/// The name of the device below which the search went, or of the root.
#[tactic(auto, unfolding(run_rules::specs::World::parent_name, run_rules::specs::World::root_name))]
pub fn put_parent(out: &mut Vec<u8>, look: &Look) -> Result<(), Memory>
    ensures { OnOk result (out.new.items ≡ out.old.items ++ parent_name (setup_in look.now) look.now.live.now.devices look.now.parent) }
{
    match device_at(look.live, look.parent) {
        Some(device) => put_device(out, look, device),
        None => put_bytes(out, b"root"),
    }
}

/// The row wants another parent.
fn put_other_parent(out: &mut Vec<u8>, look: &Look, row: &Row) -> Result<(), Memory>
    ensures { OnOk result (out.new.items ≡ out.old.items ++ parent_text (setup_in look.now) look.now.live.now.devices look.now.parent row.now) }
{
    let rules = look.rules;
    put_bytes(out, b"wants ")?;
    put_at(out, rules.tables, row)?;
    put_bytes(out, b", found ")?;
    put_parent(out, look)
}

/// The value at a place; 0 if there is none.
fn value_at(values: &[i64], place: u32) -> i64
    ensures { result ≡ slice_index_or values.now place (pos 0) }
{
    match values.get(place as usize) {
        Some(value) => *value,
        None => 0,
    }
}

/// A locator with a value.
fn put_value(out: &mut Vec<u8>, locators: &[Locator], place: u32, value: i64) -> Result<(), Memory>
    ensures { OnOk result (out.new.items ≡ out.old.items ++ listing.value_text locators.now (place, value)) }
{
    put_bytes(out, locator_name(locators, place))?;
    put_bytes(out, b"=")?;
    put_decimal(out, value)
}

/// The locators of the place of the spot.
fn locators_of<'a>(look: &'a Look) -> &'a [Locator]
    ensures { result.now ≡ locators_at (setup_in look.now).tables.attrs (place_in look.now) }
{
    let rules = look.rules;
    locators_at(rules.tables, place_of(rules, look.spot))
}

/// The row wants another value of a locator.
fn put_locator(out: &mut Vec<u8>, look: &Look, row: &Row, place: u32) -> Result<(), Memory>
    ensures { OnOk result (out.new.items ≡ out.old.items ++ locator_text (setup_in look.now) (place_in look.now) look.now.spot row.now place) }
{
    let locators = locators_of(look);
    put_bytes(out, b"wants ")?;
    put_value(out, locators, place, value_at(row.locs.items(), place))?;
    put_bytes(out, b", found ")?;
    put_decimal(out, value_at(found_at(look.rules, look.spot), place))
}

/// A match line that counts, as in the machine file; or that there is none.
fn put_match(
    out: &mut Vec<u8>,
    tables: &Tables,
    machine: &Machine,
    line: Option<MatchLine>,
) -> Result<(), Memory>
    ensures { OnOk result (out.new.items ≡ out.old.items ++ match_text tables.now machine.now line) }
{
    let Some(line) = line else {
        return put_bytes(out, b"no match line");
    };
    put_bytes(out, b"match ")?;
    put_bytes(out, attach_name(tables, line.attach))?;
    put_bytes(out, b" ")?;
    match line.spot {
        Some(spot) => put_bytes(out, spot_name(machine, spot))?,
        None => put_bytes(out, b"*")?,
    }
    put_bytes(out, b" ")?;
    put_decimal(out, i64::from(line.value))
}

/// The driver of the row does not match.
fn put_unmatched(out: &mut Vec<u8>, look: &Look, row: &Row) -> Result<(), Memory>
    ensures { OnOk result (out.new.items ≡ out.old.items ++ unmatched_text (setup_in look.now) look.now.spot row.now) }
{
    let rules = look.rules;
    let (tables, machine) = (rules.tables, rules.machine);
    put_bytes(out, attach_name(tables, row.attach))?;
    put_bytes(out, b" does not match: ")?;
    put_match(
        out,
        tables,
        machine,
        counting_line(machine, row.attach, look.spot),
    )
}

/// The unit of the row is taken by the device of a serial.
fn put_taken(out: &mut Vec<u8>, look: &Look, serial: u64) -> Result<(), Memory>
    ensures { OnOk result (out.new.items ≡ out.old.items ++ taken_text (setup_in look.now) look.now.live.now.devices serial) }
{
    let Some(device) = device_at(look.live, serial) else {
        return Ok(());
    };
    put_device(out, look, device)?;
    put_bytes(out, b" lives on ")?;
    let rules = look.rules;
    put_bytes(out, spot_name(rules.machine, device.spot))
}

/// The match value of the row of a number at the spot.
fn value_of(look: &Look, number: u32) -> u32
    ensures { result ≡ rule.value_of (setup_in look.now) number look.now.spot }
{
    let rules = look.rules;
    let attach = match rules.tables.rows.items().get(number as usize) {
        Some(row) => row.attach,
        None => 0,
    };
    match_value(rules.machine, attach, look.spot)
}

/// Another row has a greater match value.
fn put_below(out: &mut Vec<u8>, own: u32, greater: u32, best: u32) -> Result<(), Memory>
    ensures { OnOk result (out.new.items ≡ out.old.items ++ below_text own greater best) }
{
    put_decimal(out, i64::from(own))?;
    put_bytes(out, b" below ")?;
    put_decimal(out, i64::from(greater))?;
    put_bytes(out, b" of row ")?;
    put_decimal(out, i64::from(best))
}

/// A text, and a number.
fn put_numbered(out: &mut Vec<u8>, text: &[u8], number: u32) -> Result<(), Memory>
    ensures { OnOk result (out.new.items ≡ out.old.items ++ (text.now ++ decimal number)) }
{
    put_bytes(out, text)?;
    put_decimal(out, i64::from(number))
}

/// Another row has the same match value.
fn put_equal(out: &mut Vec<u8>, best: u32) -> Result<(), Memory>
    ensures { OnOk result (out.new.items ≡ out.old.items ++ equal_text best) }
{
    put_numbered(out, b"as good as the earlier row ", best)
}

/// Another row is better.
fn put_beaten(out: &mut Vec<u8>, look: &Look, number: u32, best: u32) -> Result<(), Memory>
    ensures { OnOk result (out.new.items ≡ out.old.items ++ beaten_text (setup_in look.now) look.now.spot number best) }
{
    let (own, greater) = (value_of(look, number), value_of(look, best));
    if own < greater {
        put_below(out, own, greater, best)
    } else {
        put_equal(out, best)
    }
}

/// Why the row of a number does not take the spot.
pub fn put_reason(
    out: &mut Vec<u8>,
    look: &Look,
    number: u32,
    row: &Row,
    reason: Reason,
) -> Result<(), Memory>
    ensures { OnOk result (out.new.items ≡ out.old.items ++ reason_in look.now number row.now reason) }
{
    match reason {
        Reason::Parent => put_other_parent(out, look, row),
        Reason::Locator(place) => put_locator(out, look, row, place),
        Reason::NoMatch => put_unmatched(out, look, row),
        Reason::Taken(serial) => put_taken(out, look, serial),
        Reason::Beaten(best) => put_beaten(out, look, number, best),
    }
}
