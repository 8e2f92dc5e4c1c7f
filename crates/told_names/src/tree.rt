//! The lines of the device tree.
ghost use Rattle.std.specs.Prelude.{◌≡◌, ◌<◌, ◌+◌, ◌++◌, ◌^◌, IfOk, OnOk, length, map};
ghost use Rattle.run_rules.specs.Tree as rule;
ghost use Rattle.dev_tree.specs.Branching.{AreBranches};

use crate::names::{device_name, parent_name};
use cf_types::{DevLine, List, Memory};
use dev_tree::Branches;
use run_rules::Dev;
use run_world::Going;

/// The line of a device.
#[tactic(auto, unfolding(run_rules::specs::World::unit_name))]
fn line_of(going: &Going, depth: u32, device: &Dev) -> Result<DevLine, Memory>
    requires { device.now.row < length going.now.setup.tables.rows }
    ensures { IfOk result (λ line. line ≡ rule.dev_line going.now (depth, device.now)) }
{
    let name = device_name(going, device)?;
    let parent = parent_name(going, device.parent)?;
    let holders = going.refs().holds_on(going.alloc(), device.serial)?;
    Ok(DevLine {
        depth,
        name,
        parent,
        row: device.row,
        asleep: device.asleep,
        condemned: device.condemned.is_some(),
        holders,
    })
}

/// Appends the lines below a parent, this many levels deep.
fn push_below(
    going: &Going,
    branches: &Branches,
    levels: u32,
    depth: u32,
    parent: u64,
    lines: &mut List<DevLine>,
) -> Result<(), Memory>
    requires branches { AreBranches going.now.live branches.now }
    requires shallow { depth + levels < 2 ^ 32 }
    ensures { OnOk result (lines.new
        ≡ lines.old ++ map (rule.dev_line going.now) (rule.tree_below levels going.now.live depth parent)) }
{
    if levels == 0 {
        return Ok(());
    }
    going.stands();
    let children = branches.below(going.tree(), parent);
    for device in children {
        let line = line_of(going, depth, device)?;
        lines.push(line)?;
        push_below(going, branches, levels - 1, depth + 1, device.serial, lines)?;
    }
    Ok(())
}

/// The whole tree.
pub fn tree_of(going: &Going) -> Result<List<DevLine>, Memory>
    ensures { IfOk result (λ lines. lines ≡ rule.tree_lines going.now) }
{
    let branches = Branches::of(going.alloc(), going.tree())?;
    let mut lines = List::make(going.alloc());
    push_below(going, &branches, going.count(), 0, 0, &mut lines)?;
    Ok(lines)
}
