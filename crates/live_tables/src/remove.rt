//! A group of rows is taken away. See config_cfdata_detach(9).
ghost use Rattle.std.specs.Prelude.{◌≡◌, ◌<◌, ◌==◌, not, false, [], filter, length, slice_index_or, IfOk, OnErr};
ghost use Rattle.std.specs.List.{AllByRecursion, Contains};
ghost use Rattle.run_rules.specs.declared.world.Dev as of;
ghost use Rattle.run_rules.specs.World as world;
ghost use Rattle.live_rules.specs.declared.plan.LiveReply.TheVariants as replies;
ghost use Rattle.live_rules.specs.Laws.{Frees};
ghost use Rattle.live_rules.specs.Live as rule;
ghost use Rattle.live_tables.specs.Answers.{Answers, Stays};
ghost use Rattle.live_tables.specs.Going.{dooms, with_groups, with_live, without_device};

use crate::live_tables::LiveTables;
use cf_types::{List, Memory};
use live_rules::{LiveLine, LiveReply};
use match_search::DriverUnit;
use run_rules::Dev;
use run_world::driver_of;

impl LiveTables {
    /// A device without children goes, and its unit is free. It takes no memory. See config_detach(9).
    fn free(&mut self, device: Dev)
        requires there { Contains self.old.world.live device }
        requires bare { world.children self.old.world.live device.serial ≡ [] }
        ensures { self.new ≡ without_device self.old device.serial }
    {
        let driver = driver_of(&self.site.setup, device.row);
        self.units.give(driver, device.unit);
        self.tree.free(device.serial);
        let site = &self.site;
        let named = DriverUnit {
            device: driver,
            unit: device.unit,
        };
        site.fixed
            .set(&site.setup.tables, &mut self.rows, named, true);
    }

    /// The device at a place in their order.
    fn device_at(&self, at: usize) -> Dev
        requires { at < length self.now.world.live }
        ensures { (d : of.Dev) → result ≡ slice_index_or self.now.world.live at d }
    {
        self.tree.devices()[at]
    }

    /// The doomed devices go, the greatest serial first. It takes no memory.
    fn free_doomed(&mut self, group: u32, doomed: &[bool])
        requires doomed { doomed.now ≡ dooms self.old group }
        ensures { self.new ≡ with_live self.old (rule.spared self.old.site self.old.world group) }
    {
        self.stands();
        let mut at = doomed.len();
        while at > 0 {
            at -= 1;
            if doomed[at] {
                self.free(self.device_at(at));
            }
        }
    }

    /// A group whose devices are gone is off. It takes no memory.
    fn turn_off(&mut self, group: u32)
        requires there { group < length self.old.site.groups }
        requires none { AllByRecursion (λ d. rule.is_in self.old.site group d.row ≡ false) self.old.world.live }
        ensures { self.new ≡ with_groups self.old (filter (λ h. not (h == group)) self.old.world.on) }
    {
        self.on.turn_off(group);
    }

    /// Takes a group away that is on: with it go the devices of its rows and all below them, children first, unless one of
    /// them may not go. At `Memory` all is as before. See config_cfdata_detach(9).
    pub fn remove(&mut self, group: u32, lines: &mut List<LiveLine>) -> Result<LiveReply, Memory>
        requires group { group < length self.old.site.groups }
        ensures ok { IfOk result (Answers self.old self.new lines.old lines.new (rule.remove self.old.site self.old.world group)) }
        ensures err { OnErr result (Stays self.old self.new lines.old lines.new) }
        ensures frees { IfOk result (λ reply. reply ≡ replies.Ok → Frees self.old.site self.old.world group (rule.remove self.old.site self.old.world group)) }
    {
        self.stands();
        if !self.on.has(group) {
            return Ok(LiveReply::OffAlready);
        }
        let doomed = self.doomed(group)?;
        match self.hindering(group, &doomed) {
            Some(device) => Ok(LiveReply::Busy(self.name_of(&device)?)),
            None => {
                self.tell_freed(group, &doomed, lines)?;
                self.free_doomed(group, &doomed);
                self.turn_off(group);
                Ok(LiveReply::Ok)
            }
        }
    }
}
