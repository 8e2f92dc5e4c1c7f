//! To which spot of a boot a row came nearest.
ghost use Rattle.std.specs.Prelude.{◌≡◌, ◌≤◌, length, IfOk};
ghost use Rattle.boot_looks.specs.Looks as boots;
ghost use Rattle.why_answers.specs.Near as near;
ghost use Rattle.why_answers.specs.Near.{is_near, met, nearest, rank};
ghost use Rattle.why_answers.specs.Seen.{AreSearched, IsSearchIn, IsSightAt, nearer};

use boot_looks::{Look, look_at};
use cf_types::{List, Memory, Place};
use match_reasons::{Reason, Search, reason_at, search_of};
use plain_world::{Rules, place_of, row_at, same_place};
use std::alloc::Global;

/// The last looks at the spots of a boot, with the search of each.
#[derive(Drop)]
pub struct Searched<'a> {
    pub rules: &'a Rules<'a>,
    pub looks: &'a [Option<Look>],
    pub searches: List<Option<Search>>,
}

/// A look at a spot, with its search.
#[derive(Clone, Copy)]
pub struct Sight<'a> {
    pub look: &'a Look,
    pub search: Search,
}

/// A spot, and how many conditions a row meets there.
#[derive(Clone, Copy)]
struct Near {
    spot: u16,
    met: u32,
}

/// The search of a spot at its last look.
fn search_at(rules: &Rules, looks: &[Option<Look>], spot: u16) -> Option<Search>
    ensures { IsSearchIn rules.now spot (boots.look_at looks.now spot) result }
{
    match look_at(looks, spot) {
        Some(look) => Some(search_of(rules, &look.live, look.visit.parent, spot)),
        None => None,
    }
}

/// The searches of all spots at their last looks.
pub fn all_searches<'a>(
    alloc: Global,
    rules: &'a Rules<'a>,
    looks: &'a [Option<Look>],
) -> Result<Searched<'a>, Memory>
    requires few { length looks.now ≤ 1024 }
    ensures searched { IfOk result AreSearched }
    ensures rules { IfOk result (λ seen. seen.rules.now ≡ rules.now) }
    ensures looks { IfOk result (λ seen. seen.looks.now ≡ looks.now) }
{
    let mut searches = Vec::with_capacity(alloc, looks.len())?;
    for spot in 0..looks.len() as u16 {
        searches.push(search_at(rules, looks, spot))?;
    }
    let searches = List::from_vec(searches);
    Ok(Searched {
        rules,
        looks,
        searches,
    })
}

/// The last look at a spot with its search, if there is one.
pub fn sight_at<'a>(seen: &'a Searched<'a>, spot: u16) -> Option<Sight<'a>>
    requires { AreSearched seen.now }
    ensures { IsSightAt seen.now.rules.now spot (boots.look_at seen.now.looks.now spot) result }
{
    match (
        look_at(seen.looks, spot),
        seen.searches.items().get(spot as usize),
    ) {
        (Some(look), Some(Some(search))) => Some(Sight {
            look,
            search: *search,
        }),
        _ => None,
    }
}

/// How many conditions a row at the place of a spot meets there, in the order of the search.
fn met(passed: bool, reason: Option<Reason>) -> u32
    ensures { result ≡ met passed reason }
{
    match reason {
        Some(Reason::Parent) => 1,
        Some(Reason::Locator(_)) => 2,
        Some(Reason::NoMatch) => 3,
        Some(Reason::Taken(_)) => 4,
        Some(Reason::Beaten(_)) => 5,
        None if passed => 6,
        None => 7,
    }
}

/// How many conditions a row meets at the last look at a spot.
fn rank(seen: &Searched, row: u32, spot: u16) -> u32
    requires searched { AreSearched seen.now }
    ensures { result ≡ rank seen.now.rules.now seen.now.looks.now row spot }
{
    match sight_at(seen, spot) {
        Some(sight) => {
            let reason = reason_at(seen.rules, &sight.look.live, sight.search, row);
            met(sight.look.visit.passed, reason)
        }
        None => 0,
    }
}

/// The place at which a row attaches.
pub fn place_of_row(rules: &Rules, row: u32) -> Place
    ensures { result ≡ near.place_of rules.now row }
{
    match row_at(rules, row) {
        Some(row) => row.place,
        None => Place::Root,
    }
}

/// Whether a search came to a spot that has the place of a row.
fn is_near(seen: &Searched, row: u32, spot: u16) -> bool
    ensures { result ≡ is_near seen.now.rules.now seen.now.looks.now row spot }
{
    same_place(place_of_row(seen.rules, row), place_of(seen.rules, spot))
        && look_at(seen.looks, spot).is_some()
}

/// The better of a spot at which a row meets so many conditions and the best one before it.
fn nearer(best: Option<Near>, near: Near) -> Near
    ensures { result ≡ nearer best near }
{
    match best {
        Some(best) if near.met <= best.met => best,
        _ => near,
    }
}

/// The spot at which a row meets the most conditions, of those to which a search of the boot came; of equals the first.
pub fn nearest(seen: &Searched, row: u32) -> Option<u16>
    requires searched { AreSearched seen.now }
    requires spots { length seen.now.looks.now ≡ length seen.now.rules.now.machine.spots }
    ensures { nearest seen.now.rules.now seen.now.looks.now row ≡ result }
{
    let rules = seen.rules;
    let mut best = None;
    for spot in 0..rules.machine.spots.len() as u16 {
        if is_near(seen, row, spot) {
            let met = rank(seen, row, spot);
            best = Some(nearer(best, Near { spot, met }));
        }
    }
    match best {
        Some(near) => Some(near.spot),
        None => None,
    }
}
