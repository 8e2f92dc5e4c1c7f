//! A condemned device is freed. See config_detach(9).
ghost use Rattle.std.specs.Prelude.{◌≡◌, ◌<◌, ◌-◌, ◌^◌, [], length, IsTrue};
ghost use Rattle.run_rules.specs.After as rule;
ghost use Rattle.run_rules.specs.declared.deed.Deed.TheVariants as deed;
ghost use Rattle.run_rules.specs.World as world;
ghost use Rattle.run_world.specs.Arrivals.{state_at};
ghost use Rattle.run_rules.specs.Sound.{HasSoundDevices};
ghost use Rattle.run_world.specs.Events.{HaveRows};
ghost use Rattle.run_world.specs.View.{Books};
ghost use Rattle.run_world.specs.Sites.{world_at};
ghost use Rattle.deed_effect.specs.Commits.{IsAfter};

use match_search::DriverUnit;
use run_rules::Activity;
use run_world::{Core, Site, driver_of, finish};

/// A device without children goes: its unit is given back, and its rows are live again.
fn free_device(site: &Site, core: &mut Core, of: u64)
    requires books { Books site.now.setup core.old }
    requires sound { HasSoundDevices site.now.setup core.old.tree.live core.old.tree.next }
    requires rows { HaveRows site.now.setup core.old.tree.live }
    requires live { IsTrue (world.is_live core.old.tree.live of) }
    requires children { world.children core.old.tree.live of ≡ [] }
    ensures world { world_at site.now core.new ≡ rule.freed (world_at site.now core.old) of }
    ensures callers { core.new.callers ≡ core.old.callers }
    ensures books { Books site.now.setup core.new }
{
    match core.tree.get(of) {
        Some(device) => {
            let driver = driver_of(&site.setup, device.row);
            core.units.give(driver, device.unit);
            core.tree.free(of);
            let named = DriverUnit {
                device: driver,
                unit: device.unit,
            };
            site.fixed
                .set(&site.setup.tables, &mut core.rows, named, true);
        }
        None => unreachable!(),
    }
}

/// Whether a caller has freed all that it frees, once this device is gone.
#[inline(always)]
fn is_target(doing: Activity, serial: u64) -> bool
    ensures { result ≡ rule.freeing_target doing serial }
{
    match doing {
        Activity::Frees(target) => target == serial,
        _ => false,
    }
}

/// A condemned device is freed; if it is the target of its caller's command, that command is over.
#[tactic(auto, unfolding(run_rules::specs::After::after))]
pub fn free(site: &Site, core: &mut Core, caller: u8, of: u64)
    requires books { Books site.now.setup core.old }
    requires sound { HasSoundDevices site.now.setup core.old.tree.live core.old.tree.next }
    requires rows { HaveRows site.now.setup core.old.tree.live }
    requires live { IsTrue (world.is_live core.old.tree.live of) }
    requires children { world.children core.old.tree.live of ≡ [] }
    requires caller { caller < length core.old.callers.items }
    requires low { (state_at core.old.callers.items caller).over < 2 ^ 32 - 1 }
    ensures world { IsAfter site.now core.old caller (deed.Free of) core.new }
    ensures books { Books site.now.setup core.new }
{
    let is_over = is_target(core.callers[caller as usize].doing, of);
    free_device(site, core, of);
    if is_over {
        finish(core, caller);
    }
}
