//! The devices of a new group.
ghost use Rattle.std.specs.Prelude.{◌≡◌, ◌<◌, ◌≤◌, [], IsTrue, length, bytes_eq, position, IfSome};
ghost use Rattle.std.specs.List.{list_all};
ghost use Rattle.cf_types.specs.Lookups.{device_number};
ghost use Rattle.cf_text.specs.Shapes as shape;
ghost use Rattle.machine_text.specs.Words.{seen};
ghost use Rattle.run_rules.specs.World.{has};
ghost use Rattle.script_text.specs.Left.{Leaves};
ghost use Rattle.live_rules.specs.PlanText as rule;

use cf_text::is_name;
use cf_types::{Device, List, Tables};
use live_rules::{Group, code};
use machine_text::LineStop;
use std::alloc::Global;

/// The greatest length of a written name.
const MAX_WRITTEN: usize = 63;

/// Whether a word is a name of at most 63 bytes.
pub fn is_written(word: &[u8]) -> bool
    ensures value { result ≡ shape.is_written word.now }
    ensures not_empty { IsTrue result → 1 ≤ length word.now }
    ensures not_long { IsTrue result → length word.now ≤ 63 }
{
    word.len() <= MAX_WRITTEN && is_name(word)
}

/// Whether all words are.
pub fn are_written(words: &[&[u8]]) -> bool
    ensures { result ≡ list_all shape.is_written (seen words.now) }
{
    let mut rest = words;
    while let [word, more @ ..] = rest {
        if !is_written(*word) {
            return false;
        }
        rest = more;
    }
    true
}

/// The place of the device of a name.
fn device_place(devices: &[Device], name: &[u8]) -> Option<usize>
    ensures place { position (λ d. bytes_eq d.name name.now) devices.now ≡ result }
    ensures below { IfSome result (λ place. place < length devices.now) }
{
    for (place, device) in devices.iter().enumerate() {
        if device.name.bytes() == name {
            return Some(place);
        }
    }
    None
}

/// The number of the device of a name.
fn device_number(tables: &Tables, name: &[u8]) -> Option<u32>
    requires few { length tables.now.devices ≤ 65536 }
    ensures { result ≡ device_number tables.now.devices name.now }
{
    match device_place(tables.devices.items(), name) {
        Some(place) => Some(place as u32),
        None => None,
    }
}

/// The place of the group of a name.
fn group_place(groups: &[Group], name: &[u8]) -> Option<usize>
    ensures place { position (λ g. bytes_eq g.name name.now) groups.now ≡ result }
    ensures below { IfSome result (λ place. place < length groups.now) }
{
    for (place, group) in groups.iter().enumerate() {
        if group.name.bytes() == name {
            return Some(place);
        }
    }
    None
}

/// The number of the group of a name.
pub fn group_number(groups: &[Group], name: &[u8]) -> Option<u32>
    requires few { length groups.now ≤ 500 }
    ensures { result ≡ rule.group_number groups.now name.now }
{
    match group_place(groups, name) {
        Some(place) => Some(place as u32),
        None => None,
    }
}

/// Whether a list has a number.
fn has(list: &[u32], n: u32) -> bool
    ensures { result ≡ has list.now n }
{
    list.iter().any(|x| *x == n)
}

/// Whether a device is in one of the groups.
fn is_grouped(groups: &[Group], device: u32) -> bool
    ensures { result ≡ rule.is_grouped groups.now device }
{
    groups
        .iter()
        .any(|group| has(group.devices.items(), device))
}

/// The device that a word names, unless it is in a group already.
fn new_member(
    tables: &Tables,
    groups: &[Group],
    members: &[u32],
    name: &[u8],
) -> Result<u32, LineStop>
    requires few { length tables.now.devices ≤ 65536 }
    ensures { Leaves (rule.new_member tables.now groups.now members.now name.now) result }
{
    match device_number(tables, name) {
        Some(device) => {
            if is_grouped(groups, device) || has(members, device) {
                Err(LineStop::Code(code::DEVICE_TWICE))
            } else {
                Ok(device)
            }
        }
        None => Err(LineStop::Code(code::NO_DEVICE)),
    }
}

/// The devices that these words name, each in no group before.
pub fn members_of(
    alloc: Global,
    tables: &Tables,
    groups: &[Group],
    names: &[&[u8]],
) -> Result<List<u32>, LineStop>
    requires few { length tables.now.devices ≤ 65536 }
    ensures { Leaves (rule.members_of tables.now groups.now [] (seen names.now)) result }
{
    let mut members = List::make(alloc);
    let mut rest = names;
    while let [name, more @ ..] = rest {
        let member = new_member(tables, groups, members.items(), *name)?;
        members.push(member)?;
        rest = more;
    }
    Ok(members)
}
