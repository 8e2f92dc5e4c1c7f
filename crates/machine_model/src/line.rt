ghost use Rattle.std.specs.Prelude.{◌≡◌, ◌<◌, ◌≤◌, ◌&&◌, IfOk, IsTrue, OnOk, if◌then◌else◌, [], ◌∷◌, Some, None, bytes_eq, codes, length, map, nat_lt, option_map};
ghost use Rattle.std.specs.List.{list_all};
ghost use Rattle.cf_types.specs.Lookups.{spot_number};
ghost use Rattle.config_rules.specs.MachineText.{after_line, driver_form, is_spot, is_one, line_form, match_form, policy_words, spot_form, style_form};
ghost use Rattle.machine_model.specs.Found.{given_of};
ghost use Rattle.machine_model.specs.Indexed.{IsDraft, IsIndex, with_spot};
ghost use Rattle.machine_model.specs.Left.{Leaves, after_words};
ghost use Rattle.machine_model.specs.Names.{number_of, slot_of};
ghost use Rattle.machine_text.specs.Words.{seen};

use crate::draft::Draft;
use crate::driver::add_policies;
use crate::index::TableNames;
use crate::locator::{FoundValue, count_located, given_values, names_differ};
use crate::lookup::{attach_number, interface_number, spot_number};
use crate::names::insert;
use crate::spot::{fitting_site, make_spot};
use crate::word::{are_marks, are_policies, differ, is_free_name, ranged_match, spells};
use cf_types::code::machine as code;
use cf_types::{List, MatchLine, Memory, Spot, StyleLine};
use machine_text::LineStop;
use std::alloc::Global;
use std::mem;

/// Whether the name is allowed, and no locator or mark is given twice.
fn is_spot(
    alloc: Global,
    name: &[u8],
    found: &[FoundValue],
    marks: &[&[u8]],
) -> Result<bool, Memory>
    ensures value { IfOk result (λ fits. fits ≡ is_spot name.now (map given_of found.now) (seen marks.now)) }
    ensures not_empty { IfOk result (λ fits. IsTrue fits → 1 ≤ length name.now) }
    ensures not_long { IfOk result (λ fits. IsTrue fits → length name.now ≤ 63) }
{
    let apart = names_differ(alloc, found)?;
    Ok(is_free_name(name) && apart && are_marks(marks) && differ(marks))
}

/// Adds a spot with this name, which is new and has this slot.
fn add_spot_named<'t>(
    draft: &mut Draft<'t>,
    slot: usize,
    name: &'t [u8],
    spot: Spot,
) -> Result<(), Memory>
    requires name { spot.name ≡ name.now }
    requires room { length draft.old.machine.spots < 1024 }
    requires draft { IsDraft draft.old }
    requires new { number_of draft.old.names name.now ≡ None }
    requires slot { slot ≡ slot_of (length draft.old.names.slots.items) name.now }
    ensures machine { OnOk result (draft.new.machine ≡ with_spot draft.old.machine spot) }
    ensures draft { OnOk result (IsDraft draft.new) }
{
    insert(&mut draft.names, slot, name)?;
    draft.machine.spots.push(spot)?;
    Ok(())
}

/// Adds `spot NAME PARENT ATTR`, with its locators and marks.
fn add_spot<'t>(
    alloc: Global,
    index: &TableNames,
    draft: &mut Draft<'t>,
    name: &'t [u8],
    parent: &[u8],
    attr: &[u8],
    rest: &[&'t [u8]],
) -> Result<(), LineStop>
    requires index { IsIndex index.now }
    requires draft { IsDraft draft.old }
    ensures left { Leaves (after_line index.now.tables.now draft.old.machine (spot_form name.now parent.now attr.now (seen rest.now))) result draft.new.machine }
    ensures draft { OnOk result (IsDraft draft.new) }
{
    let (located, marks) = rest.split_at(count_located(rest));
    let found = match given_values(alloc, located)? {
        Some(found) => found,
        None => return Err(LineStop::Code(code::BAD_LINE)),
    };
    if !is_spot(alloc, name, found.as_slice(), marks)? {
        return Err(LineStop::Code(code::BAD_LINE));
    }
    let site = match fitting_site(index, draft, name, parent, attr, found.as_slice()) {
        Ok(site) => site,
        Err(code) => return Err(LineStop::Code(code)),
    };
    let spot = make_spot(alloc, &site, name, found.as_slice(), marks)?;
    add_spot_named(draft, site.slot, name, spot)?;
    Ok(())
}

/// The number of the matched spot, `Some(None)` for `*` and `None` for no spot.
fn matched_spot(draft: &Draft, word: &[u8]) -> Option<Option<u16>>
    requires { IsDraft draft.now }
    ensures { result ≡ (if bytes_eq word.now (codes "*") then Some None else option_map Some (spot_number draft.now.machine.spots word.now)) }
{
    if spells(word, b"*") {
        return Some(None);
    }
    match spot_number(draft, word) {
        Some(number) => Some(Some(number)),
        None => None,
    }
}

/// Adds `match ATTACHMENT SPOT V`.
fn add_match(
    index: &TableNames,
    draft: &mut Draft,
    attach: &[u8],
    spot: &[u8],
    value: &[u8],
) -> Result<(), LineStop>
    requires index { IsIndex index.now }
    requires draft { IsDraft draft.old }
    ensures left { Leaves (after_line index.now.tables.now draft.old.machine (match_form attach.now spot.now value.now)) result draft.new.machine }
    ensures draft { OnOk result (IsDraft draft.new) }
{
    let value = match ranged_match(value) {
        Some(value) => value,
        None => return Err(LineStop::Code(code::BAD_LINE)),
    };
    let attach = match attach_number(index, attach) {
        Some(attach) => attach,
        None => return Err(LineStop::Code(code::UNKNOWN_ATTACHMENT)),
    };
    let spot = match matched_spot(draft, spot) {
        Some(spot) => spot,
        None => return Err(LineStop::Code(code::UNKNOWN_SPOT)),
    };
    match value {
        Some(value) => {
            draft.machine.matches.push(MatchLine {
                attach,
                spot,
                value,
            })?;
            Ok(())
        }
        None => Err(LineStop::Code(code::OUT_OF_RANGE)),
    }
}

fn is_style(word: &[u8]) -> bool
    ensures { result ≡ is_one (codes "direct" ∷ codes "indirect" ∷ []) word.now }
{
    spells(word, b"direct") || spells(word, b"indirect")
}

/// Adds `style ATTACHMENT ATTR direct` or `indirect`.
fn add_style(
    index: &TableNames,
    draft: &mut Draft,
    attach: &[u8],
    attr: &[u8],
    style: &[u8],
) -> Result<(), LineStop>
    requires index { IsIndex index.now }
    requires draft { IsDraft draft.old }
    ensures left { Leaves (after_line index.now.tables.now draft.old.machine (style_form attach.now attr.now style.now)) result draft.new.machine }
    ensures draft { OnOk result (IsDraft draft.new) }
{
    if !is_style(style) {
        return Err(LineStop::Code(code::BAD_LINE));
    }
    let attach = match attach_number(index, attach) {
        Some(attach) => attach,
        None => return Err(LineStop::Code(code::UNKNOWN_ATTACHMENT)),
    };
    let attr = match interface_number(index, attr) {
        Some(attr) => attr,
        None => return Err(LineStop::Code(code::NO_INTERFACE)),
    };
    let indirect = spells(style, b"indirect");
    draft.machine.styles.push(StyleLine {
        attach,
        attr,
        indirect,
    })?;
    Ok(())
}

/// Whether there are one or more words, all of them policies.
fn is_driver(words: &[&[u8]]) -> bool
    ensures { result ≡ (nat_lt 0 (length (seen words.now)) && list_all (is_one policy_words) (seen words.now)) }
{
    words.len() > 0 && are_policies(words)
}

/// Adds `driver ATTACHMENT` and one or more policies.
fn add_driver(
    alloc: Global,
    index: &TableNames,
    draft: &mut Draft,
    attach: &[u8],
    policies: &[&[u8]],
) -> Result<(), LineStop>
    requires index { IsIndex index.now }
    requires draft { IsDraft draft.old }
    ensures left { Leaves (after_line index.now.tables.now draft.old.machine (driver_form attach.now (seen policies.now))) result draft.new.machine }
    ensures draft { OnOk result (IsDraft draft.new) }
{
    if !is_driver(policies) {
        return Err(LineStop::Code(code::BAD_LINE));
    }
    let attach = match attach_number(index, attach) {
        Some(attach) => attach,
        None => return Err(LineStop::Code(code::UNKNOWN_ATTACHMENT)),
    };
    let mut changed = mem::replace(&mut draft.machine.policies, List::make(alloc)).into_vec();
    add_policies(&mut changed, attach as usize, policies);
    draft.machine.policies = List::from_vec(changed);
    Ok(())
}

/// Adds what follows the first word of a line.
fn add_rest<'t>(
    alloc: Global,
    index: &TableNames,
    draft: &mut Draft<'t>,
    word: &[u8],
    rest: &[&'t [u8]],
) -> Result<(), LineStop>
    requires index { IsIndex index.now }
    requires draft { IsDraft draft.old }
    ensures left { Leaves (after_line index.now.tables.now draft.old.machine (line_form (word.now ∷ seen rest.now))) result draft.new.machine }
    ensures draft { OnOk result (IsDraft draft.new) }
{
    if spells(word, b"spot") {
        return match rest {
            [name, parent, attr, rest @ ..] => add_spot(
                alloc, index, draft, *name, *parent, *attr, rest,
            ),
            _ => Err(LineStop::Code(code::BAD_LINE)),
        };
    }
    if spells(word, b"match") {
        return match rest {
            [attach, spot, value] => { add_match(index, draft, *attach, *spot, *value) }
            _ => Err(LineStop::Code(code::BAD_LINE)),
        };
    }
    if spells(word, b"style") {
        return match rest {
            [attach, attr, style] => { add_style(index, draft, *attach, *attr, *style) }
            _ => Err(LineStop::Code(code::BAD_LINE)),
        };
    }
    match rest {
        [attach, policies @ ..] if spells(word, b"driver") => {
            add_driver(alloc, index, draft, *attach, policies)
        }
        _ => Err(LineStop::Code(code::BAD_LINE)),
    }
}

/// Adds what a line of these words says; nothing if there are none.
pub fn add_words<'t>(
    alloc: Global,
    index: &TableNames,
    draft: &mut Draft<'t>,
    words: &[&'t [u8]],
) -> Result<(), LineStop>
    requires index { IsIndex index.now }
    requires draft { IsDraft draft.old }
    ensures left { Leaves (after_words index.now.tables.now draft.old.machine (seen words.now)) result draft.new.machine }
    ensures draft { OnOk result (IsDraft draft.new) }
{
    match words.split_first() {
        Some((word, rest)) => add_rest(alloc, index, draft, *word, rest),
        None => Ok(()),
    }
}
