//! The device tree: what is below what, in lists of names and in lines.
ghost use Rattle.std.specs.Prelude.{◌≡◌, ◌<◌, ◌≤◌, ◌+◌, ◌++◌, ◌∷◌, ◌^◌, ℕ, IfOk, OnOk, length, map};
ghost use Rattle.run_rules.specs.References as refs;
ghost use Rattle.run_rules.specs.Run as run;
ghost use Rattle.run_rules.specs.Tree as rule;
ghost use Rattle.run_rules.specs.World as world;
ghost use Rattle.plain_names.specs.Kin.{AreKin};
ghost use Rattle.plain_world.specs.Plain.{world_of};

use crate::kin::Kin;
use crate::names::{device_named, parent_name, unit_name};
use cf_types::{DevLine, Hold, List, Memory, Name};
use plain_world::{Plain, Refs, Rules, is_sole};
use run_rules::{DepthName, Dev};
use std::alloc::Global;

/// The names of the children of a device, or of the root for 0, by serial.
fn child_names(
    alloc: Global,
    rules: &Rules,
    live: &[Dev],
    serial: u64,
) -> Result<List<Name>, Memory>
    ensures { IfOk result (λ names. names ≡ map (world.name_of rules.now) (world.children live.now serial)) }
{
    let mut names = List::make(alloc);
    for device in live {
        if device.parent == serial {
            let name = unit_name(alloc, rules, device.row, device.unit)?;
            names.push(name)?;
        }
    }
    Ok(names)
}

/// What `list` prints: the names of children; none if no device has the name. See drvctl(8).
#[tactic(auto, unfolding(run_rules::specs::Run::list_names))]
pub fn list_names(
    alloc: Global,
    rules: &Rules,
    plain: &Plain,
    name: &Option<Name>,
) -> Result<Option<List<Name>>, Memory>
    ensures { IfOk result (λ names. names ≡ run.list_names (world_of rules.now plain.now) name.now) }
{
    match name {
        Some(name) => match device_named(alloc, rules, &plain.live, name.bytes())? {
            Some(device) => {
                let names = child_names(alloc, rules, plain.live.devices(), device.serial)?;
                Ok(Some(names))
            }
            None => Ok(None),
        },
        None => {
            let names = child_names(alloc, rules, plain.live.devices(), 0)?;
            Ok(Some(names))
        }
    }
}

/// Appends the devices below a parent, this many levels deep, each with its depth: depth first, children by serial.
fn push_below(
    kin: &Kin,
    levels: u32,
    depth: u32,
    parent: u64,
    placed: &mut Vec<(u32, Dev)>,
) -> Result<(), Memory>
    requires kin { AreKin kin.now }
    requires shallow { depth + levels < 2 ^ 32 }
    ensures { OnOk result (placed.new.items ≡ placed.old.items ++ rule.tree_below levels kin.now.live.now depth parent) }
{
    if levels == 0 {
        return Ok(());
    }
    let near = kin.near(parent);
    for index in 0..near.len() {
        let device = near[index];
        if device.parent == parent {
            placed.push((depth, device))?;
            push_below(kin, levels - 1, depth + 1, device.serial, placed)?;
        }
    }
    Ok(())
}

/// The devices below a parent, each with its depth from a first depth on.
fn all_below(
    alloc: Global,
    live: &[Dev],
    depth: u32,
    parent: u64,
) -> Result<Vec<(u32, Dev)>, Memory>
    requires few { length live.now ≤ 1024 }
    requires shallow { depth ≤ 1 }
    ensures { IfOk result (λ placed. placed.items ≡ rule.tree_below (length live.now) live.now depth parent) }
{
    let is_whole = parent == 0;
    let kin = Kin::make(alloc, live, is_whole)?;
    let mut placed = Vec::new(alloc);
    push_below(&kin, live.len() as u32, depth, parent, &mut placed)?;
    Ok(placed)
}

/// The name of a device in a tree, with its depth.
fn depth_name(alloc: Global, rules: &Rules, depth: u32, device: &Dev) -> Result<DepthName, Memory>
    ensures { IfOk result (λ d. d ≡ run.depth_name rules.now (depth, device.now)) }
{
    let name = unit_name(alloc, rules, device.row, device.unit)?;
    Ok(DepthName { depth, name })
}

/// Appends the names of placed devices.
fn push_names(
    alloc: Global,
    rules: &Rules,
    placed: &[(u32, Dev)],
    names: &mut List<DepthName>,
) -> Result<(), Memory>
    ensures { OnOk result (names.new ≡ names.old ++ map (run.depth_name rules.now) placed.now) }
{
    for (depth, device) in placed {
        let name = depth_name(alloc, rules, *depth, device)?;
        names.push(name)?;
    }
    Ok(())
}

/// The names of a device and of what is below it.
fn names_from(
    alloc: Global,
    rules: &Rules,
    live: &[Dev],
    top: Dev,
) -> Result<List<DepthName>, Memory>
    requires few { length live.now ≤ 1024 }
    ensures { IfOk result (λ names. names ≡ map (run.depth_name rules.now) ((0, top) ∷ rule.tree_below (length live.now) live.now 1 top.serial)) }
{
    let placed = all_below(alloc, live, 1, top.serial)?;
    let mut names = List::make(alloc);
    let first = depth_name(alloc, rules, 0, &top)?;
    names.push(first)?;
    push_names(alloc, rules, &placed, &mut names)?;
    Ok(names)
}

/// The names of all that is below the root.
fn names_of_all(alloc: Global, rules: &Rules, live: &[Dev]) -> Result<List<DepthName>, Memory>
    requires few { length live.now ≤ 1024 }
    ensures { IfOk result (λ names. names ≡ map (run.depth_name rules.now) (rule.tree_below (length live.now) live.now 0 0)) }
{
    let placed = all_below(alloc, live, 0, 0)?;
    let mut names = List::make(alloc);
    push_names(alloc, rules, &placed, &mut names)?;
    Ok(names)
}

/// What `tree` prints: names with their depths; none if no device has the name. See drvctl(8).
#[tactic(auto, unfolding(run_rules::specs::Run::tree_names))]
pub fn tree_names(
    alloc: Global,
    rules: &Rules,
    plain: &Plain,
    name: &Option<Name>,
) -> Result<Option<List<DepthName>>, Memory>
    requires few { length plain.now.live.devices ≤ 1024 }
    ensures { IfOk result (λ names. names ≡ run.tree_names (world_of rules.now plain.now) name.now) }
{
    match name {
        Some(name) => match device_named(alloc, rules, &plain.live, name.bytes())? {
            Some(device) => {
                let names = names_from(alloc, rules, plain.live.devices(), device)?;
                Ok(Some(names))
            }
            None => Ok(None),
        },
        None => {
            let names = names_of_all(alloc, rules, plain.live.devices())?;
            Ok(Some(names))
        }
    }
}

/// Who holds a device, by caller.
fn holds_on(
    alloc: Global,
    references: &Refs,
    sole: &[u64],
    serial: u64,
) -> Result<List<Hold>, Memory>
    requires { (k s : ℕ) → refs.count_in references.now k s ≤ 15 }
    ensures { IfOk result (λ holds. holds ≡ refs.holds_on references.now sole.now serial) }
{
    let mut list = List::make(alloc);
    let sole = is_sole(sole, serial);
    for index in 0..16u8 {
        let caller = index + 1;
        if references.holds(caller, serial) {
            list.push(Hold {
                caller,
                count: references.count(caller, serial) as u8,
                sole,
            })?;
        }
    }
    Ok(list)
}

/// The line of a placed device.
#[tactic(auto, unfolding(run_rules::specs::World::unit_name))]
fn line_of(
    alloc: Global,
    rules: &Rules,
    plain: &Plain,
    depth: u32,
    device: &Dev,
) -> Result<DevLine, Memory>
    requires counted { (k s : ℕ) → refs.count_in plain.now.refs k s ≤ 15 }
    ensures { IfOk result (λ line. line ≡ rule.dev_line (world_of rules.now plain.now) (depth, device.now)) }
{
    let name = unit_name(alloc, rules, device.row, device.unit)?;
    let parent = parent_name(alloc, rules, &plain.live, device.parent)?;
    let holders = holds_on(alloc, &plain.refs, &plain.sole, device.serial)?;
    Ok(DevLine {
        depth,
        name,
        parent,
        row: device.row,
        asleep: device.asleep,
        condemned: device.condemned.is_some(),
        holders,
    })
}

/// The lines of the whole tree.
#[tactic(auto, unfolding(run_rules::specs::Tree::tree_lines))]
pub fn tree_lines(alloc: Global, rules: &Rules, plain: &Plain) -> Result<List<DevLine>, Memory>
    requires few { length plain.now.live.devices ≤ 1024 }
    requires counted { (k s : ℕ) → refs.count_in plain.now.refs k s ≤ 15 }
    ensures { IfOk result (λ lines. lines ≡ rule.tree_lines (world_of rules.now plain.now)) }
{
    let placed = all_below(alloc, plain.live.devices(), 0, 0)?;
    let mut lines = List::make(alloc);
    for (depth, device) in &placed {
        let line = line_of(alloc, rules, plain, *depth, device)?;
        lines.push(line)?;
    }
    Ok(lines)
}
