//! Room for what a deed appends.
ghost use Rattle.std.specs.Prelude.{◌≡◌, ◌<◌, OnOk, length, vec_len, vec_capacity};
ghost use Rattle.run_rules.specs.declared.world.Setup as from;
ghost use Rattle.run_world.specs.View.{Books, world_of};
ghost use Rattle.deed_effect.specs.Commits as commits;
ghost use Rattle.deed_effect.specs.Commits.{HasRoom};

use cf_types::Memory;
use run_rules::{Deed, Key};
use run_world::Core;

/// How many frames a deed may push, besides the one of a rescan.
#[inline(always)]
fn frames_for(core: &Core, deed: &Deed) -> usize
    ensures { result ≡ commits.frames_for core.now.deferred deed.now }
{
    match *deed {
        Deed::EndScan { of } => core.deferred.count(Key::Parent(of)),
        Deed::BeginInterrupts => core.deferred.count(Key::Interrupts),
        Deed::Search { .. } => 2,
        Deed::Finalise { .. } => 2,
        _ => 0,
    }
}

/// Makes room for one more value in a list; memory is asked for only if there is no room.
#[inline(always)]
pub fn make_room<T: Drop>(list: &mut Vec<T>) -> Result<(), Memory>
    ensures items { list.new.items ≡ list.old.items }
    ensures len { vec_len list.new ≡ vec_len list.old }
    ensures room { OnOk result (vec_len list.new < vec_capacity list.new) }
{
    if list.len() < list.capacity() {
        return Ok(());
    }
    list.reserve(1)?;
    Ok(())
}

/// Makes room for all that a deed may push or list; nothing of the world changes.
#[inline(always)]
pub fn reserve(core: &mut Core, caller: u8, deed: &Deed) -> Result<(), Memory>
    requires { caller < length core.old.callers.items }
    ensures world { (s : from.Setup) → world_of s core.new ≡ world_of s core.old }
    ensures books { (s : from.Setup) → Books s core.old → Books s core.new }
    ensures room { OnOk result (HasRoom core.new caller deed.now) }
{
    let frames = frames_for(core, deed);
    core.callers[caller as usize].stack.reserve(frames)?;
    make_room(&mut core.finalisers)?;
    Ok(())
}
