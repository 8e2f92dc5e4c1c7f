//! What is looked up while a plan runs: groups, spots, winners and units.
ghost use Rattle.std.specs.Prelude.{◌≡◌, ◌&&◌, not, false, true, find, slice_get, slice_index_or};
ghost use Rattle.std.specs.Option.{option_map_or};
ghost use Rattle.run_rules.specs.Search as search;
ghost use Rattle.run_rules.specs.Suits.{hangs_at};
ghost use Rattle.live_rules.specs.Live as rule;
ghost use Rattle.live_tables.specs.Open.{is_open_to, open_rows};

use crate::live_tables::LiveTables;
use cf_types::{ParentSpec, Place};
use run_rules::ParentRef;
use run_world::{driver_of, is_occupied};

/// Whether what a row says of its parent is true of this one.
fn names_parent(spec: Option<ParentSpec>, parent: ParentRef) -> bool
    ensures { result ≡ search.names_parent spec parent }
{
    match (spec, parent) {
        (None, _) => true,
        (Some(_), ParentRef::Root) => false,
        (Some(spec), ParentRef::Dev { device, unit }) => {
            spec.device == device && spec.unit.is_none_or(|named| named == unit)
        }
    }
}

impl LiveTables {
    /// Whether a row is on.
    #[inline(always)]
    fn is_on(&self, row: u32) -> bool
        ensures { result ≡ rule.is_on self.now.site self.now.world.on row }
    {
        let driver = driver_of(&self.site.setup, row) as usize;
        match self.driver_groups.get(driver) {
            Some(Some(group)) => self.on.has(*group),
            _ => true,
        }
    }

    /// Whether a row is in a group.
    pub(crate) fn is_in(&self, group: u32, row: u32) -> bool
        ensures { result ≡ rule.is_in self.now.site group row }
    {
        let driver = driver_of(&self.site.setup, row) as usize;
        match self.driver_groups.get(driver) {
            Some(Some(its)) => *its == group,
            _ => false,
        }
    }

    /// Whether a parent is the root or lives.
    pub(crate) fn is_known(&self, serial: u64) -> bool
        ensures { result ≡ rule.is_known self.now.world serial }
    {
        serial == 0 || self.tree.get(serial).is_some()
    }

    /// Whether a spot is present and not late.
    #[inline(always)]
    fn is_searched(&self, spot: u16) -> bool
        ensures { result ≡ option_map_or (λ spot. not spot.absent && not spot.late) (slice_get self.now.site.setup.machine.spots spot) false }
    {
        match self.site.setup.machine.spots.items().get(spot as usize) {
            Some(found) => !found.absent && !found.late,
            None => false,
        }
    }

    /// Whether a spot is present, not late and without a device.
    #[tactic(auto, unfolding(live_rules::specs::Live::is_free))]
    pub(crate) fn is_free(&self, spot: u16) -> bool
        ensures { result ≡ rule.is_free self.now.site self.now.world spot }
    {
        self.is_searched(spot) && !is_occupied(&self.tree, spot)
    }

    /// The spot of a device; none for the root.
    pub(crate) fn spot_of(&self, serial: u64) -> Option<u16>
        ensures { result ≡ search.spot_of self.now.world.live serial }
    {
        match self.tree.get(serial) {
            Some(device) => Some(device.spot),
            None => None,
        }
    }

    /// The driver of a device; none for the root.
    pub(crate) fn driver_at(&self, serial: u64) -> Option<u32>
        ensures { result ≡ search.driver_at self.now.site.setup self.now.world.live serial }
    {
        match self.tree.get(serial) {
            Some(device) => Some(driver_of(&self.site.setup, device.row)),
            None => None,
        }
    }

    /// What rows may name a parent by.
    fn parent_ref(&self, serial: u64) -> ParentRef
        ensures { result ≡ search.parent_ref self.now.site.setup self.now.world.live serial }
    {
        match self.tree.get(serial) {
            Some(device) => ParentRef::Dev {
                device: driver_of(&self.site.setup, device.row),
                unit: device.unit,
            },
            None => ParentRef::Root,
        }
    }

    /// Whether a row is on, and its unit is free or any.
    #[inline(always)]
    fn is_open(&self, row: u16) -> bool
        ensures { result ≡ slice_index_or (open_rows self.now.site self.now.world) row false }
    {
        let row = u32::from(row);
        self.rows.is_live(row) && self.is_on(row)
    }

    /// Whether such a row names this parent or none.
    #[inline(always)]
    fn is_open_to(&self, parent: ParentRef, row: u16) -> bool
        ensures { result ≡ is_open_to self.now parent row }
    {
        self.is_open(row)
            && match self.site.setup.tables.rows.items().get(row as usize) {
                Some(found) => names_parent(found.parent, parent),
                None => false,
            }
    }

    /// The first of some rows that is open to a parent.
    fn first_open(&self, parent: ParentRef, rows: &[u16]) -> Option<u16>
        ensures { result ≡ find (is_open_to self.now parent) rows.now }
    {
        rows.iter()
            .copied()
            .find(|row| self.is_open_to(parent, *row))
    }

    /// The row that takes a spot below a parent, of those that are on.
    pub(crate) fn winner(&self, parent: u64, place: Place, spot: u16) -> Option<u32>
        requires offered { search.parent_offers self.now.site.setup.tables (search.parent_ref self.now.site.setup self.now.world.live parent) place ≡ true }
        requires here { hangs_at self.now.site.setup.machine spot place ≡ true }
        ensures { result ≡ rule.winner_on self.now.site self.now.world parent place spot }
    {
        let rows = self.site.index.rows(spot);
        match self.first_open(self.parent_ref(parent), rows) {
            Some(row) => Some(u32::from(row)),
            None => None,
        }
    }

    /// The unit that a row gives: its own, or, where it is starred, the least free one from its first unit on.
    #[tactic(auto, unfolding(run_rules::specs::Search::unit_of))]
    pub(crate) fn unit_of(&self, row: u32) -> u32
        ensures { result ≡ search.unit_of self.now.site.setup self.now.world.live row }
    {
        match self.site.setup.tables.rows.items().get(row as usize) {
            Some(found) => {
                if found.star {
                    self.units.pick(found.device, found.unit)
                } else {
                    found.unit
                }
            }
            None => 0,
        }
    }
}
