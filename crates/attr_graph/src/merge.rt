ghost use Rattle.std.specs.Prelude.{◌≡◌, ℕ, ◌≤◌, ◌<◌, [], ◌∷◌, ◌++◌, false, not, true, length, flat_map, All, IsTrue, OnOk, OnErr};
ghost use Rattle.std.specs.List.{list_all, slice_index_or};
ghost use Rattle.cf_types.specs.Gather.{with_new, with_all};
ghost use Rattle.attr_graph.specs.Reach.{AreMarks, reach_at};

use crate::entry::{AttrEntry, NumberVec};
use std::alloc::AllocError;

/// Appends a number that is not marked, and marks it.
#[inline(always)]
pub fn add_new(list: &mut NumberVec, marks: &mut Vec<bool>, number: u32) -> Result<(), AllocError>
    requires within { number < length marks.old.items }
    requires marked { AreMarks list.old.items marks.old.items }
    ensures ok { OnOk result (list.new.items ≡ with_new list.old.items number) }
    ensures marked { AreMarks list.new.items marks.new.items }
    ensures size { length marks.new.items ≡ length marks.old.items }
{
    if marks[number as usize] {
        return Ok(());
    }
    list.reserve(1)?;
    list.push_reserved(number);
    marks[number as usize] = true;
    Ok(())
}

/// Appends those of the numbers that are not there yet.
#[inline(always)]
pub fn add_all(
    list: &mut NumberVec,
    marks: &mut Vec<bool>,
    numbers: &[u32],
) -> Result<(), AllocError>
    requires within { All (λ x. x < length marks.old.items) numbers.now }
    requires marked { AreMarks list.old.items marks.old.items }
    ensures ok { OnOk result (list.new.items ≡ with_all list.old.items numbers.now) }
    ensures marked { AreMarks list.new.items marks.new.items }
    ensures size { length marks.new.items ≡ length marks.old.items }
{
    for number in numbers {
        add_new(list, marks, *number)?;
    }
    Ok(())
}

/// Appends what the named attributes offer, each unless it is already there.
pub fn add_reach(
    list: &mut NumberVec,
    marks: &mut Vec<bool>,
    attrs: &[AttrEntry],
    names: &[u32],
) -> Result<(), AllocError>
    requires named { All (λ a. a < length attrs.now) names.now }
    requires within { (a : ℕ) → All (λ x. x < length marks.old.items) (reach_at attrs.now a) }
    requires marked { AreMarks list.old.items marks.old.items }
    ensures ok { OnOk result (list.new.items ≡ with_all list.old.items (flat_map (reach_at attrs.now) names.now)) }
    ensures marked { AreMarks list.new.items marks.new.items }
    ensures size { length marks.new.items ≡ length marks.old.items }
{
    for name in names {
        add_all(list, marks, attrs[*name as usize].reach.items())?;
    }
    Ok(())
}

/// Whether none of these numbers is marked.
#[inline(always)]
pub fn are_unmarked(marks: &[bool], numbers: &[u32]) -> bool
    requires { All (λ x. x < length marks.now) numbers.now }
    ensures { IsTrue result → list_all (λ x. not (slice_index_or marks.now x false)) numbers.now ≡ true }
{
    for number in numbers {
        if marks[*number as usize] {
            return false;
        }
    }
    true
}

/// Clears the marks of a list.
#[inline(always)]
pub fn unmark(list: &[u32], marks: &mut Vec<bool>)
    requires { AreMarks list.now marks.old.items }
    ensures marked { AreMarks [] marks.new.items }
    ensures size { length marks.new.items ≡ length marks.old.items }
{
    for number in list {
        marks[*number as usize] = false;
    }
}
