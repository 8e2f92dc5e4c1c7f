//! The lines of the device tree.
ghost use Rattle.std.specs.Prelude.{◌≡◌, ◌<◌, ◌+◌, ◌++◌, ◌^◌, IfOk, OnOk, length, map};
ghost use Rattle.run_rules.specs.Tree.{tree_below};
ghost use Rattle.dev_tree.specs.Branching.{AreBranches};
ghost use Rattle.live_rules.specs.Live as rule;
ghost use Rattle.live_tables.specs.Running.{lines_below};

use crate::live_tables::LiveTables;
use cf_types::{DevLine, List, Memory};
use dev_tree::Branches;
use run_rules::Dev;

impl LiveTables {
    /// The line of a device at a depth.
    fn tree_line(&self, depth: u32, device: &Dev) -> Result<DevLine, Memory>
        requires row { device.now.row < length self.now.site.setup.tables.rows }
        ensures { IfOk result (λ line. line ≡ rule.tree_line self.now.site self.now.world (depth, device.now)) }
    {
        let name = self.name_of(device)?;
        let parent = self.parent_name(device.parent)?;
        Ok(DevLine {
            depth,
            name,
            parent,
            row: device.row,
            asleep: false,
            condemned: false,
            holders: List::make(self.alloc),
        })
    }

    /// Appends the lines below a parent, of so many levels.
    fn push_below(
        &self,
        branches: &Branches,
        levels: u32,
        depth: u32,
        parent: u64,
        lines: &mut List<DevLine>,
    ) -> Result<(), Memory>
        requires branches { AreBranches self.now.world.live branches.now }
        requires shallow { depth + levels < 2 ^ 32 }
        ensures { OnOk result (lines.new ≡ lines.old ++ lines_below self.now levels depth parent) }
    {
        if levels == 0 {
            return Ok(());
        }
        let children = branches.below(&self.tree, parent);
        for device in children {
            let line = self.tree_line(depth, device)?;
            lines.push(line)?;
            self.push_below(branches, levels - 1, depth + 1, device.serial, lines)?;
        }
        Ok(())
    }

    /// The lines of the device tree, depth first, children by serial. See drvctl(8).
    pub fn tree_lines(&self) -> Result<List<DevLine>, Memory>
        ensures { IfOk result (λ lines. lines ≡ rule.tree_lines self.now.site self.now.world) }
    {
        let branches = Branches::of(self.alloc, &self.tree)?;
        let mut lines = List::make(self.alloc);
        let levels = self.tree.count() as u32;
        self.push_below(&branches, levels, 0, 0, &mut lines)?;
        Ok(lines)
    }
}
