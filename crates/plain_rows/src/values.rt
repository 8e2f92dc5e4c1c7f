//! The match values of all attachments at one spot.
ghost use Rattle.std.specs.Prelude.{◌≡◌, ◌==◌, ℕ, false, if◌then◌else◌, OnOk, None, Some, filter};
ghost use Rattle.std.specs.List.{list_any, slice_index_or};
ghost use Rattle.run_rules.specs.MatchLines.{AreEverywhere, AreValuesAt, is_for, last_value};

use cf_types::{Machine, MatchLine, Memory};

/// Sets the value of an attachment; values beyond the end are 0.
fn set_value(values: &mut Vec<u32>, attach: u32, value: u32) -> Result<(), Memory>
    ensures { OnOk result ((a : ℕ) → slice_index_or values.new.items a 0 ≡ (if attach == a then value else slice_index_or values.old.items a 0)) }
{
    let place = attach as usize;
    if values.len() <= place {
        values.resize(place + 1, 0)?;
    }
    values[place] = value;
    Ok(())
}

/// The value of an attachment; values beyond the end are 0.
pub fn value_of(values: &Vec<u32>, attach: u32) -> u32
    ensures { result ≡ slice_index_or values.now.items attach 0 }
{
    match values.get(attach as usize) {
        Some(value) => *value,
        None => 0,
    }
}

/// Whether a match line is for all spots, or for this one.
fn is_meant(spot: Option<u16>, line: &MatchLine) -> bool
    ensures { result ≡ is_for spot line.now }
{
    match (spot, line.spot) {
        (None, found) => found.is_none(),
        (Some(spot), Some(found)) => found == spot,
        (Some(_), None) => false,
    }
}

/// Sets the values that the lines for all spots, or for one of them, give. The last line for an attachment counts.
pub fn set_values(
    values: &mut Vec<u32>,
    lines: &[MatchLine],
    spot: Option<u16>,
) -> Result<(), Memory>
    ensures { OnOk result ((a : ℕ) → slice_index_or values.new.items a 0 ≡ last_value spot lines.now a (slice_index_or values.old.items a 0)) }
{
    for line in lines {
        if is_meant(spot, line) {
            set_value(values, line.attach, line.value)?;
        }
    }
    Ok(())
}

/// Sets the match values of attachments at a spot, where those of the lines for all spots are set.
#[tactic(auto, unfolding(run_rules::specs::Search::match_value))]
pub fn set_own(
    values: &mut Vec<u32>,
    machine: &Machine,
    own: &[MatchLine],
    spot: u16,
) -> Result<(), Memory>
    requires everywhere { AreEverywhere machine.now values.old.items }
    requires own { own.now ≡ filter (is_for (Some spot)) machine.now.matches }
    ensures values { OnOk result (AreValuesAt machine.now spot values.new.items) }
    ensures kept { OnOk result ((a : ℕ) → list_any (λ line. line.attach == a) own.now ≡ false
        → slice_index_or values.new.items a 0 ≡ slice_index_or values.old.items a 0) }
{
    set_values(values, own, Some(spot))?;
    Ok(())
}

/// Sets the values of the attachments of these lines to those of the lines for all spots.
pub fn unset_own(
    values: &mut Vec<u32>,
    everywhere: &Vec<u32>,
    own: &[MatchLine],
) -> Result<(), Memory>
    ensures { OnOk result ((a : ℕ) → slice_index_or values.new.items a 0
        ≡ (if list_any (λ line. line.attach == a) own.now then slice_index_or everywhere.now.items a 0 else slice_index_or values.old.items a 0)) }
{
    for line in own {
        set_value(values, line.attach, value_of(everywhere, line.attach))?;
    }
    Ok(())
}
