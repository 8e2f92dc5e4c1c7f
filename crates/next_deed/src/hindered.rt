//! What keeps devices from being freed, or from being searched: see config_detach(9).
ghost use Rattle.std.specs.Prelude.{◌≡◌, ◌==◌, [], ℕ, Bool, IfOk, IsTrue};
ghost use Rattle.std.specs.List.{list_any};
ghost use Rattle.run_rules.specs.Next as next;
ghost use Rattle.run_rules.specs.World as world;
ghost use Rattle.run_rules.specs.World.{frame_serial, has};
ghost use Rattle.detach_engine.specs.Hindrance.{AreMarksOf};
ghost use Rattle.next_deed.specs.Choices.{keeps, serials_where};

use cf_types::Memory;
use detach_engine::{Detachment, Marks, hindered};
use run_rules::Dev;
use run_world::{CallerState, Going, policy_of};

/// Whether a frame of a caller is for the device.
#[inline(always)]
fn is_framed(callers: &[CallerState], serial: u64) -> bool
    ensures { result ≡ list_any (λ c. list_any (λ f. frame_serial f == serial) c.stack.frames) callers.now }
{
    callers.iter().any(|caller| caller.stack.pins(serial))
}

/// Whether a frame of a caller, or a deferred scan, is for the device.
pub fn is_pinned(going: &Going, serial: u64) -> bool
    ensures { result ≡ world.is_pinned going.now serial }
{
    let held = &going.held;
    let core = &held.core;
    is_framed(&core.callers, serial) || core.deferred.pinned(serial)
}

/// The devices that a frame or a deferred scan is for.
fn pinned_of(going: &Going) -> Result<Vec<u64>, Memory>
    ensures { (serial : ℕ) → IfOk result (λ pinned. has pinned.items serial ≡ world.is_pinned going.now serial) }
{
    let held = &going.held;
    let core = &held.core;
    let mut serials = Vec::new(held.site.alloc);
    for caller in &core.callers {
        caller.stack.add_serials(&mut serials)?;
    }
    core.deferred.add_children(&mut serials)?;
    Ok(serials)
}

/// The live devices whose driver does not support detaching.
fn undetachable_of(going: &Going) -> Result<Vec<u64>, Memory>
    ensures { IfOk result (λ list. list.items ≡ serials_where (λ d. (world.policy_of going.now.setup d.row).nodetach) going.now.live) }
{
    let mut serials = Vec::new(going.alloc());
    let live = going.devices();
    for device in live {
        if policy_of(going.setup(), device.row).nodetach {
            serials.push(device.serial)?;
        }
    }
    Ok(serials)
}

/// The marks of the live devices.
fn marks_of(going: &Going) -> Result<Marks, Memory>
    ensures { (target : ℕ) (forced : Bool) → IfOk result (AreMarksOf going.now target forced) }
{
    going.stands();
    let pinned = pinned_of(going)?;
    let undetachable = undetachable_of(going)?;
    Ok(Marks::make(pinned, undetachable))
}

/// Whether a device may not go now: its driver, a scan, another freeing or a reference of the caller keeps it.
fn is_kept(going: &Going, caller: u8, forced: bool, device: &Dev) -> bool
    ensures { result ≡ keeps going.now caller forced device.now }
{
    (!forced && policy_of(going.setup(), device.row).nodetach)
        || is_pinned(going, device.serial)
        || device.condemned.is_some()
        || going.refs().holds(device.serial, caller)
}

/// Whether a target without children keeps itself from going.
fn alone_in_the_way(going: &Going, leaving: Detachment) -> Option<u64>
    requires live { IsTrue (world.is_live going.now.live leaving.target) }
    requires bare { world.children going.now.live leaving.target ≡ [] }
    ensures { result ≡ world.serial_of (next.hindered going.now leaving.target leaving.caller leaving.forced) }
{
    going.tree().stands();
    match going.device(leaving.target) {
        Some(device) => {
            if is_kept(going, leaving.caller, leaving.forced, &device) {
                Some(leaving.target)
            } else {
                None
            }
        }
        None => unreachable!(),
    }
}

/// The device that keeps the target's subtree from being freed. See config_detach(9).
pub fn in_the_way(going: &Going, leaving: Detachment) -> Result<Option<u64>, Memory>
    requires live { IsTrue (world.is_live going.now.live leaving.target) }
    ensures { IfOk result (λ serial. serial ≡ world.serial_of (next.hindered going.now leaving.target leaving.caller leaving.forced)) }
{
    let tree = going.tree();
    if tree.is_bare(leaving.target) {
        return Ok(alone_in_the_way(going, leaving));
    }
    let marks = marks_of(going)?;
    let refs = going.refs();
    Ok(hindered(
        tree,
        refs,
        &marks,
        leaving.target,
        leaving.caller,
        leaving.forced,
    ))
}
