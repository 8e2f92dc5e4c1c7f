//! The names in events: of one device, of children, and of trees.
ghost use Rattle.std.specs.Prelude.{◌≡◌, ◌<◌, ◌+◌, ◌++◌, ◌^◌, ◌∷◌, [], IfOk, OnOk, length, map};
ghost use Rattle.run_rules.specs.Run as run;
ghost use Rattle.run_rules.specs.Tree.{tree_below};
ghost use Rattle.run_rules.specs.World as world;
ghost use Rattle.dev_tree.specs.Branching.{AreBranches};
ghost use Rattle.run_world.specs.Events.{IsLive, name_live};

use crate::names::{device_name, parent_name};
use cf_types::{List, Memory, Name};
use dev_tree::Branches;
use run_rules::{DepthName, Dev};
use run_world::Going;

/// The name of a live device.
#[inline(always)]
pub fn live_name(going: &Going, serial: u64) -> Result<Name, Memory>
    requires { IsLive going.now.live serial }
    ensures { IfOk result (λ n. n ≡ name_live going.now.setup going.now.live serial) }
{
    parent_name(going, serial)
}

/// Appends the name of a device.
#[inline(always)]
fn push_name(going: &Going, device: &Dev, names: &mut List<Name>) -> Result<(), Memory>
    requires { device.now.row < length going.now.setup.tables.rows }
    ensures { OnOk result (names.new ≡ names.old ++ world.name_of going.now.setup device.now ∷ []) }
{
    let name = device_name(going, device)?;
    names.push(name)
}

/// The names of the children of a device, or of the root for 0, by serial.
fn child_names(going: &Going, serial: u64) -> Result<List<Name>, Memory>
    ensures { IfOk result (λ names. names
        ≡ map (world.name_of going.now.setup) (world.children going.now.live serial)) }
{
    let mut names = List::make(going.alloc());
    going.stands();
    let live = going.devices();
    for device in live {
        if device.parent == serial {
            push_name(going, device, &mut names)?;
        }
    }
    Ok(names)
}

/// What `list` prints: the names of children; none if no device has the name. See drvctl(8).
#[tactic(auto, unfolding(run_rules::specs::Run::list_names))]
pub fn list_names(going: &Going, name: &Option<Name>) -> Result<Option<List<Name>>, Memory>
    ensures { IfOk result (λ names. names ≡ run.list_names going.now name.now) }
{
    match name {
        Some(name) => match going.named(name.bytes()) {
            Some(device) => {
                let names = child_names(going, device.serial)?;
                Ok(Some(names))
            }
            None => Ok(None),
        },
        None => {
            let names = child_names(going, 0)?;
            Ok(Some(names))
        }
    }
}

/// The name of a device in a tree, with its depth.
fn depth_name(going: &Going, depth: u32, device: &Dev) -> Result<DepthName, Memory>
    requires { device.now.row < length going.now.setup.tables.rows }
    ensures { IfOk result (λ d. d ≡ run.depth_name going.now.setup (depth, device.now)) }
{
    let name = device_name(going, device)?;
    Ok(DepthName { depth, name })
}

/// Appends the names below a parent, this many levels deep.
fn push_names(
    going: &Going,
    branches: &Branches,
    levels: u32,
    depth: u32,
    parent: u64,
    names: &mut List<DepthName>,
) -> Result<(), Memory>
    requires branches { AreBranches going.now.live branches.now }
    requires shallow { depth + levels < 2 ^ 32 }
    ensures { OnOk result (names.new
        ≡ names.old ++ map (run.depth_name going.now.setup) (tree_below levels going.now.live depth parent)) }
{
    if levels == 0 {
        return Ok(());
    }
    going.stands();
    let children = branches.below(going.tree(), parent);
    for device in children {
        let name = depth_name(going, depth, device)?;
        names.push(name)?;
        push_names(going, branches, levels - 1, depth + 1, device.serial, names)?;
    }
    Ok(())
}

/// The names of a device and of what is below it, depth first.
fn names_from(going: &Going, top: Dev) -> Result<List<DepthName>, Memory>
    requires { top.row < length going.now.setup.tables.rows }
    ensures { IfOk result (λ names. names
        ≡ map (run.depth_name going.now.setup)
        ((0, top) ∷ tree_below (length going.now.live) going.now.live 1 top.serial)) }
{
    let branches = Branches::of(going.alloc(), going.tree())?;
    let mut names = List::make(going.alloc());
    let first = depth_name(going, 0, &top)?;
    names.push(first)?;
    push_names(going, &branches, going.count(), 1, top.serial, &mut names)?;
    Ok(names)
}

/// The names of all that is below the root, depth first.
fn names_of_all(going: &Going) -> Result<List<DepthName>, Memory>
    ensures { IfOk result (λ names. names
        ≡ map (run.depth_name going.now.setup) (tree_below (length going.now.live) going.now.live 0 0)) }
{
    let branches = Branches::of(going.alloc(), going.tree())?;
    let mut names = List::make(going.alloc());
    push_names(going, &branches, going.count(), 0, 0, &mut names)?;
    Ok(names)
}

/// What `tree` prints: names with their depths; none if no device has the name. See drvctl(8).
#[tactic(auto, unfolding(run_rules::specs::Run::tree_names))]
pub fn tree_names(going: &Going, name: &Option<Name>) -> Result<Option<List<DepthName>>, Memory>
    ensures { IfOk result (λ names. names ≡ run.tree_names going.now name.now) }
{
    match name {
        Some(name) => match going.named(name.bytes()) {
            Some(device) => {
                let names = names_from(going, device)?;
                Ok(Some(names))
            }
            None => Ok(None),
        },
        None => {
            let names = names_of_all(going)?;
            Ok(Some(names))
        }
    }
}
