ghost use Rattle.std.specs.Prelude.{◌≡◌, ◌==◌, IfOk, false, length, map, option_map, position};
ghost use Rattle.std.specs.List.{list_any};
ghost use Rattle.std.specs.Option.{option_map_or};
ghost use Rattle.config_rules.specs.Form.{each};
ghost use Rattle.config_rules.specs.MachineText.{differ, located_value, is_one, located};
ghost use Rattle.machine_model.specs.Found.{given_of, names_of};
ghost use Rattle.machine_model.specs.NumberedNames.{AreNumbers};
ghost use Rattle.machine_model.specs.NumberedNames as numbered;
ghost use Rattle.machine_text.specs.Words.{seen};

use crate::numbers::{NumberedNames, number_in, push, put_in_order};
use crate::word::ranged;
use cf_types::Memory;
use smallvec::SmallVec;
use std::alloc::Global;

/// A value that a spot gives for a locator, `None` if the number is out of its range.
#[derive(Default, Drop)]
pub struct FoundValue<'t> {
    pub name: &'t [u8],
    pub value: Option<i64>,
}

/// The values that a spot gives; those of most spots need no memory.
pub type FoundValues<'t> = SmallVec<FoundValue<'t>, 2>;

fn has_equals(word: &[u8]) -> bool
    ensures { result ≡ list_any (λ c. c == 61) word.now }
{
    word.iter().any(|&byte| byte == b'=')
}

/// The place of the first `=`.
fn equals_at(word: &[u8]) -> Option<usize>
    ensures { result ≡ position (λ c. c == 61) word.now }
{
    word.iter().position(|&byte| byte == b'=')
}

/// Reads `loc=V`.
fn located_value(word: &[u8]) -> Option<FoundValue>
    ensures { option_map given_of result ≡ located_value word.now }
{
    let Some(place) = equals_at(word) else {
        return None;
    };
    if place == 0 {
        return None;
    }
    match ranged(&word[place + 1..]) {
        Some(value) => Some(FoundValue {
            name: &word[..place],
            value,
        }),
        None => None,
    }
}

/// Reads locators and their values; `None` if a word is not `loc=V`.
pub fn given_values<'t>(
    alloc: Global,
    words: &[&'t [u8]],
) -> Result<Option<FoundValues<'t>>, Memory>
    ensures { IfOk result (λ found. option_map (λ f. map given_of f.items) found ≡ each located_value (seen words.now)) }
{
    let mut found = SmallVec::new(alloc);
    for word in words {
        match located_value(*word) {
            Some(value) => found.push(value)?,
            None => return Ok(None),
        }
    }
    Ok(Some(found))
}

/// How many words at the beginning are locators.
pub fn count_located(words: &[&[u8]]) -> usize
    ensures { result ≡ length (located (seen words.now)) }
{
    let mut count = 0;
    for word in words {
        if !has_equals(*word) {
            return count;
        }
        count += 1;
    }
    count
}

/// The numbers of the names of these values.
fn name_numbers<'t>(alloc: Global, found: &[FoundValue<'t>]) -> Result<NumberedNames<'t>, Memory>
    ensures { IfOk result (λ numbers. AreNumbers numbers.items (names_of found.now)) }
{
    let mut numbers = Vec::with_capacity(alloc, found.len())?;
    for (i, value) in found.iter().enumerate() {
        push(&mut numbers, value.name, i)?;
    }
    put_in_order(&mut numbers)?;
    Ok(numbers)
}

fn has_number(numbers: &NumberedNames, name: &[u8], number: usize) -> bool
    requires { numbered.AreInOrder numbers.now.items }
    ensures { result ≡ option_map_or (λ n. n == number) (numbered.number_in numbers.now.items name.now) false }
{
    match number_in(numbers, name) {
        Some(first) => first == number,
        None => false,
    }
}

/// Whether no name is there twice, by the numbers of the names.
fn differ_by_number(numbers: &NumberedNames, found: &[FoundValue]) -> bool
    requires { AreNumbers numbers.now.items (names_of found.now) }
    ensures { result ≡ differ (names_of found.now) }
{
    for (i, value) in found.iter().enumerate() {
        if !has_number(numbers, value.name, i) {
            return false;
        }
    }
    true
}

/// Whether one of these values has this name.
fn has_name(found: &[FoundValue], name: &[u8]) -> bool
    ensures { result ≡ is_one (names_of found.now) name.now }
{
    found.iter().any(|value| name == value.name)
}

/// Whether no name is there twice, by comparing each with those after it.
fn differ_in_turn(found: &[FoundValue]) -> bool
    ensures { result ≡ differ (names_of found.now) }
{
    for (i, value) in found.iter().enumerate() {
        if has_name(&found[i + 1..], value.name) {
            return false;
        }
    }
    true
}

/// Up to how many names are compared with each other.
const FEW: usize = 8;

/// Whether no locator is given twice.
pub fn names_differ(alloc: Global, found: &[FoundValue]) -> Result<bool, Memory>
    ensures { IfOk result (λ apart. apart ≡ differ (map (λ g. g.name) (map given_of found.now))) }
{
    if found.len() <= FEW {
        return Ok(differ_in_turn(found));
    }
    let numbers = name_numbers(alloc, found)?;
    Ok(differ_by_number(&numbers, found))
}
