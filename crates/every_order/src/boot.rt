//! The boot.
ghost use Rattle.std.specs.Prelude.{◌≡◌, [], IfOk};
ghost use Rattle.run_rules.specs.World as world;
ghost use Rattle.plain_world.specs.Plain.{world_of};
ghost use Rattle.plain_search.specs.Open.{Follows};
ghost use Rattle.every_order.specs.Search.{HasBooted};

use boot_looks::{MOST_EVENTS, boot_deed, boot_on};
use cf_types::Memory;
use plain_search::Seeker;
use plain_world::{Plain, has_ended};
use std::alloc::Global;

/// The world in which the boot ends.
pub fn booted(alloc: Global, seeker: &mut Seeker, opening: Plain) -> Result<Plain, Memory>
    requires opens { world_of seeker.old.rules.now opening ≡ world.opening seeker.old.rules.now }
    requires follows { Follows seeker.old [] }
    ensures rules { seeker.new.rules.now ≡ seeker.old.rules.now }
    ensures booted { IfOk result (HasBooted seeker.old.rules.now) }
{
    seeker.rules.stands();
    let mut plain = opening;
    for _event in 0..MOST_EVENTS {
        if has_ended(&plain.callers, 0) {
            return Ok(plain);
        }
        let deed = boot_deed(alloc, seeker, &plain)?;
        seeker.heed(&plain.live, &deed);
        boot_on(alloc, seeker.rules, &mut plain, &deed)?;
    }
    Err(Memory)
}
