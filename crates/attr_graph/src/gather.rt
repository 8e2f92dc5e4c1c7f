ghost use Rattle.std.specs.Prelude.{◌≡◌, ℕ, ◌+◌, ◌<◌, ◌≤◌, if◌then◌else◌, [], length, flat_map, All, IfOk, IfSome, OnOk};
ghost use Rattle.std.specs.Option.{option_to_list};
ghost use Rattle.cf_types.specs.Gather.{with_all};
ghost use Rattle.attr_graph.specs.Reach.{AreMarks, Gathers, IsSplit, StandOnce, reach_at};

use crate::entry::{AttrEntry, NumberVec};
use crate::merge::{add_all, add_new, add_reach, are_unmarked, unmark};
use std::alloc::{AllocError, AllocFailed, Global};
use thiserror::Error;

/// The greatest number of entries of an interface list.
pub const MAX_INTERFACES: usize = 64;

/// Why an attribute or a device could not be added.
#[derive(Clone, Copy, Debug, PartialEq, Eq, Error)]
pub enum GraphStop {
    /// Its interface list would have more than `MAX_INTERFACES` entries.
    #[error("too many interface attributes")]
    TooMany,
    /// Memory ran out.
    #[error("out of memory")]
    Memory,
}

impl From<AllocError> for GraphStop {
    ghost use Rattle.attr_graph.specs.declared.gather.GraphStop.TheVariants as stops;

    ghost from_gives = { λ _ stop. stop ≡ stops.Memory };

    fn from(_error: AllocError) -> GraphStop {
        GraphStop::Memory
    }
}

impl<T: Drop> From<AllocFailed<T>> for GraphStop {
    ghost use Rattle.attr_graph.specs.declared.gather.GraphStop.TheVariants as stops;

    ghost from_gives = { λ _ stop. stop ≡ stops.Memory };

    fn from(_error: AllocFailed<T>) -> GraphStop {
        GraphStop::Memory
    }
}

/// How many entries the lists of these attributes have together, with one more if `own` is true; `None` if they are
/// more than `MAX_INTERFACES`.
pub fn list_count(attrs: &[AttrEntry], own: bool, names: &[u32]) -> Option<usize>
    requires { All (λ a. a < length attrs.now) names.now }
    ensures { IfSome result (λ n. (n ≡ (if own then 1 else 0) + length (flat_map (reach_at attrs.now) names.now)) × (n ≤ MAX_INTERFACES)) }
{
    let mut count = usize::from(own);
    for name in names {
        let more = attrs[*name as usize].reach.len();
        if more > MAX_INTERFACES - count {
            return None;
        }
        count += more;
    }
    Some(count)
}

/// An attribute's own number, and then what the named attributes offer: each once, at its first appearance.
pub fn gather(
    alloc: Global,
    marks: &mut Vec<bool>,
    attrs: &[AttrEntry],
    own: Option<u32>,
    names: &[u32],
) -> Result<NumberVec, GraphStop>
    requires own { All (λ a. a < length marks.old.items) (option_to_list own) }
    requires named { All (λ a. a < length attrs.now) names.now }
    requires within { (a : ℕ) → All (λ x. x < length marks.old.items) (reach_at attrs.now a) }
    requires once { (a : ℕ) → StandOnce (reach_at attrs.now a) }
    requires marked { AreMarks [] marks.old.items }
    ensures gathers { Gathers (with_all (option_to_list own) (flat_map (reach_at attrs.now) names.now)) result }
    ensures within { IfOk result (λ v. All (λ x. x < length marks.new.items) v.items) }
    ensures marked { AreMarks [] marks.new.items }
    ensures size { length marks.new.items ≡ length marks.old.items }
{
    let room = list_count(attrs, own.is_some(), names).unwrap_or(MAX_INTERFACES);
    let mut list = NumberVec::with_capacity(alloc, room)?;
    gather_into(&mut list, marks, attrs, own, names)?;
    if list.len() > MAX_INTERFACES {
        return Err(GraphStop::TooMany);
    }
    Ok(list)
}

/// All names but the last, and what the last one offers.
#[inline(always)]
fn split_last<'a>(attrs: &'a [AttrEntry], names: &'a [u32]) -> (&'a [u32], &'a [u32])
    requires { All (λ a. a < length attrs.now) names.now }
    ensures { IsSplit attrs.now names.now result.0.now result.1.now }
{
    match names {
        [front @ .., last] => (front, attrs[*last as usize].reach.items()),
        [] => (names, &[]),
    }
}

/// Appends those of the numbers that are not there, and clears the marks. If none of them is there, as in most cases,
/// they are copied at once.
#[inline(always)]
fn add_last(list: &mut NumberVec, marks: &mut Vec<bool>, numbers: &[u32]) -> Result<(), AllocError>
    requires within { All (λ x. x < length marks.old.items) numbers.now }
    requires once { StandOnce numbers.now }
    requires marked { AreMarks list.old.items marks.old.items }
    ensures ok { OnOk result (list.new.items ≡ with_all list.old.items numbers.now) }
    ensures within { OnOk result (All (λ x. x < length marks.new.items) list.new.items) }
    ensures marked { AreMarks [] marks.new.items }
    ensures size { length marks.new.items ≡ length marks.old.items }
{
    if are_unmarked(marks, numbers) {
        unmark(list.as_slice(), marks);
        list.extend_from_slice(numbers)?;
        return Ok(());
    }
    let added = add_all(list, marks, numbers);
    unmark(list.as_slice(), marks);
    added
}

/// Appends to an empty list an attribute's own number, and then what the named ones offer; nothing is marked after
/// that.
#[inline(always)]
fn gather_into(
    list: &mut NumberVec,
    marks: &mut Vec<bool>,
    attrs: &[AttrEntry],
    own: Option<u32>,
    names: &[u32],
) -> Result<(), AllocError>
    requires empty { list.old.items ≡ [] }
    requires own { All (λ a. a < length marks.old.items) (option_to_list own) }
    requires named { All (λ a. a < length attrs.now) names.now }
    requires within { (a : ℕ) → All (λ x. x < length marks.old.items) (reach_at attrs.now a) }
    requires once { (a : ℕ) → StandOnce (reach_at attrs.now a) }
    requires marked { AreMarks [] marks.old.items }
    ensures ok { OnOk result (list.new.items ≡ with_all (option_to_list own) (flat_map (reach_at attrs.now) names.now)) }
    ensures within { OnOk result (All (λ x. x < length marks.new.items) list.new.items) }
    ensures marked { AreMarks [] marks.new.items }
    ensures size { length marks.new.items ≡ length marks.old.items }
{
    let (front, last) = split_last(attrs, names);
    let added = add_own(list, marks, attrs, own, front);
    if let Err(stop) = added {
        unmark(list.as_slice(), marks);
        return Err(stop);
    }
    add_last(list, marks, last)
}

/// Appends an attribute's own number to an empty list, and then what the named ones offer.
fn add_own(
    list: &mut NumberVec,
    marks: &mut Vec<bool>,
    attrs: &[AttrEntry],
    own: Option<u32>,
    names: &[u32],
) -> Result<(), AllocError>
    requires empty { list.old.items ≡ [] }
    requires own { All (λ a. a < length marks.old.items) (option_to_list own) }
    requires named { All (λ a. a < length attrs.now) names.now }
    requires within { (a : ℕ) → All (λ x. x < length marks.old.items) (reach_at attrs.now a) }
    requires marked { AreMarks [] marks.old.items }
    ensures ok { OnOk result (list.new.items ≡ with_all (option_to_list own) (flat_map (reach_at attrs.now) names.now)) }
    ensures marked { AreMarks list.new.items marks.new.items }
    ensures size { length marks.new.items ≡ length marks.old.items }
{
    if let Some(own) = own {
        add_new(list, marks, own)?;
    }
    add_reach(list, marks, attrs, names)
}
