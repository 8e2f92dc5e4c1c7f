//! The devices that go with a group of rows.
ghost use Rattle.std.specs.Prelude.{◌≡◌, ◌++◌, ◌&&◌, map, IfOk, OnOk, OnErr};
ghost use Rattle.run_rules.specs.World as world;
ghost use Rattle.live_rules.specs.Live as rule;
ghost use Rattle.live_tables.specs.Going.{Grows, dooms};

use crate::live_tables::LiveTables;
use cf_types::{List, Memory};
use live_rules::LiveLine;
use run_rules::Dev;
use run_world::policy_of;
use std::mem::replace;

impl LiveTables {
    /// Whether a chain of parents leads from a device to one whose row is in a group.
    fn is_doomed(&self, group: u32, serial: u64) -> bool
        ensures { result ≡ rule.is_doomed self.now.site self.now.world.live group serial }
    {
        let mut serial = serial;
        while let Some(device) = self.tree.get(serial) {
            if self.is_in(group, device.row) {
                return true;
            }
            serial = device.parent;
        }
        false
    }

    /// Of each live device, in their order, whether it is doomed.
    pub(crate) fn doomed(&self, group: u32) -> Result<Vec<bool>, Memory>
        ensures { IfOk result (λ marks. marks.items ≡ dooms self.now group) }
    {
        let devices = self.tree.devices();
        let mut marks = Vec::with_capacity(self.alloc, devices.len())?;
        for device in devices {
            marks.push(self.is_doomed(group, device.serial))?;
        }
        Ok(marks)
    }

    /// Whether a device may not go, where it is doomed.
    fn is_hindering(&self, is_doomed: bool, device: &Dev) -> bool
        ensures { result ≡ (is_doomed && (world.policy_of self.now.site.setup device.now.row).nodetach) }
    {
        is_doomed && policy_of(&self.site.setup, device.row).nodetach
    }

    /// The doomed device of least serial that may not go.
    pub(crate) fn hindering(&self, group: u32, doomed: &[bool]) -> Option<Dev>
        requires doomed { doomed.now ≡ dooms self.now group }
        ensures { result ≡ rule.hinders self.now.site self.now.world group }
    {
        for (at, device) in self.tree.devices().iter().enumerate() {
            if self.is_hindering(doomed[at], device) {
                return Some(*device);
            }
        }
        None
    }

    /// Adds the lines of the doomed devices, the greatest serial first. At `Memory` some of them may be there.
    fn push_freed(
        &self,
        group: u32,
        doomed: &[bool],
        lines: &mut Vec<LiveLine>,
    ) -> Result<(), Memory>
        requires doomed { doomed.now ≡ dooms self.now group }
        ensures ok { OnOk result (lines.new.items ≡ lines.old.items ++ map (rule.freed_line self.now.site) (rule.freed self.now.site self.now.world group)) }
        ensures more { Grows lines.old.items lines.new.items }
    {
        let devices = self.tree.devices();
        let mut at = devices.len();
        while at > 0 {
            at -= 1;
            if doomed[at] {
                let name = self.name_of(&devices[at])?;
                lines.push(LiveLine::Freed { name })?;
            }
        }
        Ok(())
    }

    /// The same behind other lines. At `Memory` those are as before.
    pub(crate) fn tell_freed(
        &self,
        group: u32,
        doomed: &[bool],
        lines: &mut List<LiveLine>,
    ) -> Result<(), Memory>
        requires doomed { doomed.now ≡ dooms self.now group }
        ensures ok { OnOk result (lines.new ≡ lines.old ++ map (rule.freed_line self.now.site) (rule.freed self.now.site self.now.world group)) }
        ensures err { OnErr result (lines.new ≡ lines.old) }
    {
        let mut told = replace(lines, List::make(self.alloc)).into_vec();
        let before = told.len();
        let done = self.push_freed(group, doomed, &mut told);
        if done.is_err() {
            told.truncate(before);
        }
        *lines = List::from_vec(told);
        done
    }
}
