//! The first line: where a spot was searched, and what came there.
ghost use Rattle.std.specs.Prelude.{◌≡◌, ◌++◌, codes, option_copied, IfOk, OnOk};
ghost use Rattle.plain_world.specs.Plain.{world_of};
ghost use Rattle.why_answers.specs.Answers.{came_text, head_text, never_text, passing_text, reason_text, searched_text, unsearched_text};

use crate::unsearched::{Unsearched, put_unsearched, why_never};
use boot_looks::Look;
use cf_types::{List, Memory, Text, put_bytes, put_decimal};
use plain_names::{parent_name, unit_name};
use plain_world::{Live, Plain, Rules, device_on};
use std::alloc::Global;
use why_text::spot_name;

/// The device on a spot and its row, or that none is there.
fn put_came(out: &mut Vec<u8>, rules: &Rules, live: &Live, spot: u16) -> Result<(), Memory>
    ensures { OnOk result (out.new.items ≡ out.old.items ++ came_text rules.now live.now.devices spot) }
{
    let Some(device) = device_on(live, spot) else {
        return put_bytes(out, b"not configured");
    };
    let name = unit_name(*out.allocator(), rules, device.row, device.unit)?;
    put_bytes(out, name.bytes())?;
    put_bytes(out, b" row ")?;
    put_decimal(out, i64::from(device.row))
}

/// That the search went row by row, if it did.
fn put_passing(out: &mut Vec<u8>, passed: bool) -> Result<(), Memory>
    ensures { OnOk result (out.new.items ≡ out.old.items ++ passing_text passed) }
{
    if passed {
        put_bytes(out, b", row by row: ")
    } else {
        put_bytes(out, b": ")
    }
}

/// Below which device a search came to the spot, and whether it passed row by row.
fn put_searched(out: &mut Vec<u8>, rules: &Rules, look: &Look) -> Result<(), Memory>
    ensures { OnOk result (out.new.items ≡ out.old.items ++ searched_text rules.now look.now) }
{
    let name = parent_name(*out.allocator(), rules, &look.live, look.visit.parent)?;
    put_bytes(out, b" below ")?;
    put_bytes(out, name.bytes())?;
    put_passing(out, look.visit.passed)
}

/// A reason why no search came to the spot, behind a colon.
fn put_reason(
    out: &mut Vec<u8>,
    rules: &Rules,
    live: &Live,
    why: Unsearched,
    spot: u16,
) -> Result<(), Memory>
    ensures { OnOk result (out.new.items ≡ out.old.items ++ (codes ": " ++ unsearched_text rules.now live.now.devices spot why)) }
{
    put_bytes(out, b": ")?;
    put_unsearched(out, rules, live, why, spot)
}

/// The same, if there is one.
fn put_reason_of(out: &mut Vec<u8>, rules: &Rules, end: &Plain, spot: u16) -> Result<(), Memory>
    ensures { OnOk result (out.new.items ≡ out.old.items ++ reason_text (world_of rules.now end.now) spot) }
{
    match why_never(rules, end, spot) {
        Some(why) => put_reason(out, rules, &end.live, why, spot),
        None => Ok(()),
    }
}

/// That no search came to the spot, and why.
fn put_never(out: &mut Vec<u8>, rules: &Rules, end: &Plain, spot: u16) -> Result<(), Memory>
    ensures { OnOk result (out.new.items ≡ out.old.items ++ never_text (world_of rules.now end.now) spot) }
{
    put_bytes(out, b": never searched")?;
    put_reason_of(out, rules, end, spot)
}

/// The first line of what is said of a spot.
pub fn head_line(
    alloc: Global,
    rules: &Rules,
    end: &Plain,
    look: Option<&Look>,
    spot: u16,
) -> Result<Text, Memory>
    ensures { IfOk result (λ line. line ≡ head_text rules.now spot (world_of rules.now end.now) (option_copied look.entry)) }
{
    let mut line = Vec::new(alloc);
    put_bytes(&mut line, b"spot ")?;
    put_bytes(&mut line, spot_name(rules.machine, spot))?;
    match look {
        Some(look) => {
            put_searched(&mut line, rules, look)?;
            put_came(&mut line, rules, &end.live, spot)?;
        }
        None => put_never(&mut line, rules, end, spot)?,
    }
    Ok(List::from_vec(line))
}
