//! Spots are searched for devices, in the order of a pass. See config_search(9).
ghost use Rattle.std.specs.Prelude.{◌≡◌, ◌<◌, Some, true, length, slice_index_or};
ghost use Rattle.run_rules.specs.declared.world.Dev.{Dev};
ghost use Rattle.run_rules.specs.Search as search;
ghost use Rattle.live_rules.specs.Live as rule;
ghost use Rattle.live_tables.specs.Coming.{IsParent, Searched};
ghost use Rattle.live_tables.specs.Running.{HasSerials, offered_of};

use crate::live_tables::LiveTables;
use cf_types::{Memory, Place};
use live_rules::LiveLine;
use scan_engine::{is_child, offered};

impl LiveTables {
    /// Searches a spot: where it is free and a row that is on takes it, a device comes.
    fn search_spot(
        &mut self,
        parent: u64,
        place: Place,
        spot: u16,
        lines: &mut Vec<LiveLine>,
    ) -> Result<(), Memory>
        requires parent { IsParent self.old parent place }
        requires child { search.is_child self.old.site.setup.machine (search.spot_of self.old.world.live parent) place spot ≡ true }
        ensures { Searched self.old self.new (rule.search_spot self.old.site parent place self.old.world spot) lines.old.items lines.new.items result }
    {
        if !self.is_free(spot) {
            return Ok(());
        }
        match self.winner(parent, place, spot) {
            Some(row) => self.attach(row, parent, spot, lines),
            None => Ok(()),
        }
    }

    /// Searches the spots below a parent at one place, in file order.
    fn search_place(
        &mut self,
        parent: u64,
        place: Place,
        lines: &mut Vec<LiveLine>,
    ) -> Result<(), Memory>
        requires parent { IsParent self.old parent place }
        ensures { Searched self.old self.new (rule.search_place self.old.site parent self.old.world place) lines.old.items lines.new.items result }
    {
        self.stands();
        let above = self.spot_of(parent);
        let span = self.site.spans.below(above);
        let end = span.end.min(self.site.setup.machine.spots.len() as u16);
        for spot in span.first..end {
            if is_child(&self.site.setup.machine, above, place, spot) {
                self.search_spot(parent, place, spot, lines)?;
                self.stands();
            }
        }
        Ok(())
    }

    /// How many interface attributes a driver offers.
    fn count_offered(&self, driver: u32) -> usize
        ensures { result ≡ length (offered_of self.now driver) }
    {
        offered(&self.site.graph, &self.site.setup.tables, driver).len()
    }

    /// The interface attribute at a place of those that a driver offers.
    fn offered_at(&self, driver: u32, at: usize) -> u32
        requires { at < length (offered_of self.now driver) }
        ensures { result ≡ slice_index_or (offered_of self.now driver) at 0 }
    {
        offered(&self.site.graph, &self.site.setup.tables, driver)[at]
    }

    /// Searches what a device offers, in the order of its interface list.
    fn search_device(
        &mut self,
        parent: u64,
        driver: u32,
        lines: &mut Vec<LiveLine>,
    ) -> Result<(), Memory>
        requires known { rule.is_known self.old.world parent ≡ true }
        requires driver { search.driver_at self.old.site.setup self.old.world.live parent ≡ Some driver }
        requires serials { HasSerials self.old.world }
        ensures { Searched self.old self.new (rule.search_below self.old.site self.old.world parent) lines.old.items lines.new.items result }
    {
        self.stands();
        for at in 0..self.count_offered(driver) {
            let place = Place::At(self.offered_at(driver, at));
            self.search_place(parent, place, lines)?;
            self.stands();
        }
        Ok(())
    }

    /// Searches below a parent: below the root at its one place, and below a device at all that it offers. Where there is
    /// no such device nothing is done.
    fn search_below(&mut self, parent: u64, lines: &mut Vec<LiveLine>) -> Result<(), Memory>
        requires serials { HasSerials self.old.world }
        ensures { Searched self.old self.new (rule.search_below self.old.site self.old.world parent) lines.old.items lines.new.items result }
    {
        match self.driver_at(parent) {
            Some(driver) => self.search_device(parent, driver, lines),
            None if parent == 0 => self.search_place(0, Place::Root, lines),
            None => Ok(()),
        }
    }

    /// How many devices live.
    fn count(&self) -> usize
        ensures { result ≡ length self.now.world.live }
    {
        self.tree.count()
    }

    /// The serial of the device at a place in their order.
    fn serial_at(&self, at: usize) -> u64
        requires { at < length self.now.world.live }
        ensures { (d : Dev) → result ≡ (slice_index_or self.now.world.live at d).serial }
    {
        self.tree.devices()[at].serial
    }

    /// One pass: the root is searched, and then each live device by serial, those that come meanwhile too.
    pub(crate) fn pass(&mut self, lines: &mut Vec<LiveLine>) -> Result<(), Memory>
        requires serials { HasSerials self.old.world }
        ensures { Searched self.old self.new (rule.pass self.old.site self.old.world) lines.old.items lines.new.items result }
    {
        self.stands();
        self.search_below(0, lines)?;
        self.stands();
        let mut at = 0;
        while at < self.count() {
            let serial = self.serial_at(at);
            self.search_below(serial, lines)?;
            self.stands();
            at += 1;
        }
        Ok(())
    }
}
