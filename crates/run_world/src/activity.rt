//! What a caller is in the middle of.
ghost use Rattle.std.specs.Prelude.{◌≡◌, ◌<◌, ◌-◌, ◌^◌, length, OnOk, OnErr};
ghost use Rattle.run_rules.specs.After as rule;
ghost use Rattle.run_rules.specs.World as world;
ghost use Rattle.run_rules.specs.declared.world.Activity.TheVariants as activity;
ghost use Rattle.run_rules.specs.declared.world.Setup as from;
ghost use Rattle.run_world.specs.Arrivals.{state_at};
ghost use Rattle.run_world.specs.View.{world_of, Books};

use crate::parts::Core;
use cf_types::Memory;
use run_rules::{Activity, Frame};

/// Whether a caller has ended.
#[inline(always)]
pub fn is_ended(core: &Core, caller: u8) -> bool
    requires { caller < length core.now.callers.items }
    ensures { (s : from.Setup) → result ≡ world.has_ended (world_of s core.now) caller }
{
    matches!(core.callers[caller as usize].doing, Activity::Ended)
}

/// The command of a caller is over.
#[inline(always)]
pub fn finish(core: &mut Core, caller: u8)
    requires caller { caller < length core.old.callers.items }
    requires low { (state_at core.old.callers.items caller).over < 2 ^ 32 - 1 }
    ensures world { (s : from.Setup) → world_of s core.new ≡ rule.over (world_of s core.old) caller }
    ensures books { (s : from.Setup) → Books s core.old → Books s core.new }
{
    let state = &mut core.callers[caller as usize];
    state.over += 1;
    state.doing = Activity::Idle;
}

/// A caller is in the middle of something.
#[inline(always)]
pub fn begin(core: &mut Core, caller: u8, doing: Activity)
    requires caller { caller < length core.old.callers.items }
    ensures world { (s : from.Setup) → world_of s core.new ≡ rule.doing (world_of s core.old) caller doing }
    ensures books { (s : from.Setup) → Books s core.old → Books s core.new }
{
    core.callers[caller as usize].doing = doing;
}

/// A caller searches again. At `Memory` all is as before.
pub fn begin_scan(core: &mut Core, caller: u8, frame: Frame) -> Result<(), Memory>
    requires caller { caller < length core.old.callers.items }
    ensures ok { OnOk result ((s : from.Setup) → world_of s core.new ≡ rule.pushed (rule.doing (world_of s core.old) caller activity.Scans) caller frame) }
    ensures err { OnErr result ((s : from.Setup) → world_of s core.new ≡ world_of s core.old) }
    ensures books { (s : from.Setup) → Books s core.old → Books s core.new }
{
    let state = &mut core.callers[caller as usize];
    state.stack.reserve(1)?;
    state.doing = Activity::Scans;
    state.push(frame);
    Ok(())
}
