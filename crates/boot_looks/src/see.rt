//! What the deeds of a boot come to.
ghost use Rattle.std.specs.Prelude.{◌≡◌, ◌<◌, ◌≤◌, None, Some, length, replicate, slice_set, IfOk, OnOk, option_copied};
ghost use Rattle.plain_world.specs.Plain.{world_of};
ghost use Rattle.boot_looks.specs.Looks.{AreSeen, look_at, span_of};

use crate::visit::{Look, visit_by};
use cf_types::Memory;
use plain_search::Seeker;
use plain_world::Plain;
use run_rules::Deed;
use std::alloc::Global;

/// Spots from one up to another.
#[derive(Clone, Copy)]
pub struct Span {
    pub first: u16,
    pub end: u16,
}

/// The spots to which a deed of the boot may come, of so many: one that it searches or shows, all at the end of a search.
fn span_of(deed: &Deed, count: u16) -> Span
    ensures { result ≡ span_of deed.now count }
{
    match *deed {
        Deed::Search { spot, .. } => Span {
            first: spot,
            end: count.min(spot.saturating_add(1)),
        },
        Deed::Finalise {
            shown: Some(spot),
            ..
        } => Span {
            first: spot,
            end: count.min(spot.saturating_add(1)),
        },
        Deed::EndScan { .. } => Span {
            first: 0,
            end: count,
        },
        _ => Span { first: 0, end: 0 },
    }
}

/// No look at any of so many spots.
pub fn no_looks(alloc: Global, count: usize) -> Result<Vec<Option<Look>>, Memory>
    ensures { IfOk result (λ looks. looks.items ≡ replicate count None) }
{
    let mut looks = Vec::with_capacity(alloc, count)?;
    for _spot in 0..count {
        looks.push(None)?;
    }
    Ok(looks)
}

/// Puts a look in the place of the one at a spot.
fn put(looks: &mut Vec<Option<Look>>, spot: usize, look: Look)
    requires { spot < length looks.old.items }
    ensures { looks.new.items ≡ slice_set looks.old.items spot (Some look) }
{
    looks[spot] = Some(look);
}

/// Keeps for each spot to which a deed of the boot comes how it does, with the devices that are live.
pub fn see(
    alloc: Global,
    seeker: &Seeker,
    plain: &Plain,
    deed: &Deed,
    looks: &mut Vec<Option<Look>>,
) -> Result<(), Memory>
    requires few { length looks.old.items ≤ 1024 }
    ensures { OnOk result (AreSeen (world_of seeker.now.rules.now plain.now) plain.now.live deed.now looks.old.items looks.new.items) }
{
    let span = span_of(deed, looks.len() as u16);
    for spot in span.first..span.end {
        if let Some(visit) = visit_by(seeker, plain, deed, spot) {
            let live = plain.live.copied(alloc)?;
            put(looks, spot as usize, Look { live, visit });
        }
    }
    Ok(())
}

/// The look at a spot, if there is one.
pub fn look_at(looks: &[Option<Look>], spot: u16) -> Option<&Look>
    ensures { option_copied result ≡ look_at looks.now spot }
{
    match looks.get(spot as usize) {
        Some(Some(look)) => Some(look),
        _ => None,
    }
}
