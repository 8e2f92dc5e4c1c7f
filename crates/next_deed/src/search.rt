//! What is attached to a spot.
ghost use Rattle.std.specs.Prelude.{◌≡◌};
ghost use Rattle.run_rules.specs.Next as next;
ghost use Rattle.run_rules.specs.Search as rule;

use crate::unit::unit_at;
use cf_types::Place;
use match_search::{Rows, Sought, winner};
use run_rules::{Arrival, ParentRef};
use run_world::{Going, driver_of};

/// The parent of a search.
#[inline(always)]
pub fn parent_ref(going: &Going, serial: u64) -> ParentRef
    ensures { result ≡ rule.parent_ref going.now.setup going.now.live serial }
{
    match going.device(serial) {
        Some(d) => ParentRef::Dev {
            device: driver_of(going.setup(), d.row),
            unit: d.unit,
        },
        None => ParentRef::Root,
    }
}

/// The row that takes a spot below a parent, which rows name so.
#[inline(always)]
fn winner_below(going: &Going, named: ParentRef, place: Place, spot: u16) -> Option<u32>
    ensures { rule.winner going.now.setup going.now.live named place spot ≡ result }
{
    let held = &going.held;
    let site = &held.site;
    let core = &held.core;
    let rows = Rows {
        tables: &site.setup.tables,
        graph: &site.graph,
        machine: &site.setup.machine,
        live: &core.rows,
    };
    let at = Sought {
        parent: named,
        place,
        spot,
    };
    winner(&rows, &site.index, &site.leaders, at)
}

/// The row that takes a spot below a parent.
#[inline(always)]
pub fn winner_at(going: &Going, parent: u64, place: Place, spot: u16) -> Option<u32>
    ensures { rule.winner_at going.now.setup going.now.live parent place spot ≡ result }
{
    winner_below(going, parent_ref(going, parent), place, spot)
}

/// The device that is attached to a spot below a parent, as rows name it, if a row takes the spot.
#[tactic(auto, unfolding(run_rules::specs::Next::arrival))]
#[inline(always)]
pub fn arrival(
    going: &Going,
    parent: u64,
    named: ParentRef,
    place: Place,
    spot: u16,
) -> Option<Arrival>
    requires { named ≡ rule.parent_ref going.now.setup going.now.live parent }
    ensures { next.arrival going.now.setup going.now.live parent place spot ≡ result }
{
    match winner_below(going, named, place, spot) {
        Some(row) => Some(Arrival {
            row,
            unit: unit_at(going, row),
            parent,
            spot,
        }),
        None => None,
    }
}
