//! A device comes. See config_attach(9).
ghost use Rattle.std.specs.Prelude.{◌≡◌, ◌<◌, ◌∷◌, ◌++◌, [], length, OnOk, OnErr, IfOk};
ghost use Rattle.run_rules.specs.Search as search;
ghost use Rattle.run_rules.specs.World as world;
ghost use Rattle.live_rules.specs.declared.plan.LiveLine.TheVariants as line;
ghost use Rattle.live_rules.specs.Live as rule;
ghost use Rattle.live_tables.specs.Coming.{MayCome, coming_line, line_of, with_device};

use crate::live_tables::LiveTables;
use crate::names::unit_name;
use cf_types::Memory;
use live_rules::LiveLine;
use match_search::DriverUnit;
use run_world::driver_of;

impl LiveTables {
    /// The line of a device that comes by a row, under a unit and below a parent.
    fn line_of(&self, row: u32, unit: u32, parent: u64) -> Result<LiveLine, Memory>
        requires row { row < length self.now.site.setup.tables.rows }
        ensures { IfOk result (λ l. l ≡ line_of self.now row unit parent) }
    {
        let name = unit_name(self.alloc, &self.site.setup, row, unit)?;
        let parent = self.parent_name(parent)?;
        Ok(LiveLine::Attached { name, parent, row })
    }

    /// Takes the unit of a device that comes, and lists it. At `Memory` all is as before.
    fn list(&mut self, row: u32, unit: u32, parent: u64, spot: u16) -> Result<(), Memory>
        requires may { MayCome self.old parent spot row }
        requires unit { unit ≡ search.unit_of self.old.site.setup self.old.world.live row }
        ensures ok { OnOk result (self.new ≡ with_device self.old parent spot row) }
        ensures err { OnErr result (self.new ≡ self.old) }
    {
        let driver = driver_of(&self.site.setup, row);
        self.units.take(driver, unit)?;
        if self.tree.attach(row, driver, unit, parent, spot).is_err() {
            self.units.give(driver, unit);
            return Err(Memory);
        }
        let site = &self.site;
        let named = DriverUnit {
            device: driver,
            unit,
        };
        site.fixed
            .set(&site.setup.tables, &mut self.rows, named, false);
        Ok(())
    }

    /// A device comes by a row, and has its line. At `Memory` all is as before.
    pub(crate) fn attach(
        &mut self,
        row: u32,
        parent: u64,
        spot: u16,
        lines: &mut Vec<LiveLine>,
    ) -> Result<(), Memory>
        requires may { MayCome self.old parent spot row }
        ensures ok { OnOk result (self.new ≡ with_device self.old parent spot row) }
        ensures line { OnOk result (lines.new.items ≡ lines.old.items ++ coming_line self.old parent spot row ∷ []) }
        ensures err { OnErr result (self.new ≡ self.old) }
        ensures no_line { OnErr result (lines.new.items ≡ lines.old.items) }
    {
        let unit = self.unit_of(row);
        let line = self.line_of(row, unit, parent)?;
        lines.reserve(1)?;
        self.list(row, unit, parent, spot)?;
        lines.push_reserved(line);
        Ok(())
    }
}
