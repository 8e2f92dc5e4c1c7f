//! Which unit a row gives to a device that comes.
ghost use Rattle.std.specs.Prelude.{◌≡◌, ℕ, List, length};
ghost use Rattle.run_rules.specs.declared.world.Dev.{Dev};
ghost use Rattle.run_rules.specs.Search as rule;
ghost use Rattle.run_world.specs.Input.{BoundedTables};
ghost use Rattle.run_world.specs.UnitsOf.{AreUnitsOf};
ghost use Rattle.unit_alloc.specs.Taken.{PassesFew, is_taken};

use run_rules::Setup;
use run_world::Going;
use unit_alloc::Units;

/// The unit that a row gives: its own, or, if it is starred, the least free one from its first unit on. It is the same
/// for each list of live devices whose units are those that are taken.
#[tactic(auto, unfolding(run_rules::specs::Search::unit_of))]
#[inline(always)]
fn unit_of(setup: &Setup, units: &Units, row: u32) -> u32
    requires bounded { BoundedTables setup.now.tables }
    requires devices { length units.now ≡ length setup.now.tables.devices }
    requires few { (device : ℕ) → PassesFew (is_taken units.now device) }
    ensures { (live : List Dev) → AreUnitsOf setup.now live units.now → rule.unit_of setup.now live row ≡ result }
{
    match setup.tables.rows.items().get(row as usize) {
        Some(r) => {
            if r.star {
                units.pick(r.device, r.unit)
            } else {
                r.unit
            }
        }
        None => 0,
    }
}

/// The unit that a row gives to a device that comes now.
#[inline(always)]
pub fn unit_at(going: &Going, row: u32) -> u32
    ensures { rule.unit_of going.now.setup going.now.live row ≡ result }
{
    let held = &going.held;
    unit_of(&held.site.setup, &held.core.units, row)
}
