//! All orders of scripts behind the boot of a machine.
ghost use Rattle.std.specs.Prelude.{◌≡◌, ◌<◌, ◌≤◌, ◌^◌, All, IfOk, length};
ghost use Rattle.config_rules.specs.Formed.{FittingMachine, FormedTables};
ghost use Rattle.config_rules.specs.ScriptText.{FormedScript};
ghost use Rattle.run_rules.specs.World.{setup_of};
ghost use Rattle.run_sound.specs.Kept.{Kept};
ghost use Rattle.plain_world.specs.Plain.{world_of};
ghost use Rattle.every_order.specs.Every.{IsEvery, IsEveryOrMore, IsEveryOrder};
ghost use Rattle.every_order.specs.Noted.{IsFoundIn};
ghost use Rattle.every_order.specs.Search.{AreMet};

use crate::boot::booted;
use crate::known::Met;
use crate::search::worlds_from;
use crate::ways::{Noted, Way, notes_of, ways_of};
use cf_tables::Compiled;
use cf_types::{Machine, Memory, Script};
use plain_search::Seeker;
use plain_world::{Plain, Rules, opening, stretches_of};
use std::alloc::Global;

/// All that the orders of scripts lead to.
#[derive(Drop)]
pub struct Every {
    /// How many worlds there are behind the boot, with the one in which it ends.
    pub worlds: u64,
    /// How many pairs there are of a world and a caller that can go on in it.
    pub turns: u64,
    /// The trees of the worlds in which all callers have ended, each with a shortest order that leads there.
    pub ends: Vec<Way>,
    /// Who waits for whom in the worlds in which nobody can go on and some caller has not ended, each with a shortest order.
    pub stuck: Vec<Way>,
}

/// What was found in worlds that a search has met.
fn found_in(alloc: Global, seeker: &mut Seeker, met: &[Met]) -> Result<Every, Memory>
    requires met { AreMet seeker.old.rules.now met.now }
    requires few { length met.now < 2 ^ 32 }
    ensures { IfOk result (IsFoundIn seeker.old.rules.now met.now) }
{
    let noted = notes_of(alloc, seeker, met)?;
    let Noted { ends, stuck, turns } = noted;
    let worlds = met.len() as u64;
    let ends = ways_of(alloc, ends)?;
    let stuck = ways_of(alloc, stuck)?;
    Ok(Every {
        worlds,
        turns,
        ends,
        stuck,
    })
}

/// All that the orders lead to from a world, or `None` if they are more worlds than the bound.
fn every_from(
    alloc: Global,
    seeker: &mut Seeker,
    start: Plain,
    most: u32,
) -> Result<Option<Every>, Memory>
    requires kept { Kept (world_of seeker.old.rules.now start) }
    requires low { start.live.next ≤ 2 ^ 63 }
    ensures { IfOk result (IsEveryOrMore (world_of seeker.old.rules.now start) most) }
{
    match worlds_from(alloc, seeker, start, most)? {
        Some(met) => {
            let every = found_in(alloc, seeker, &met)?;
            Ok(Some(every))
        }
        None => Ok(None),
    }
}

/// The same behind the boot.
fn every_under(alloc: Global, rules: &Rules, most: u32) -> Result<Option<Every>, Memory>
    ensures { IfOk result (IsEveryOrder rules.now most) }
{
    let plain = opening(alloc, rules)?;
    let mut seeker = Seeker::make(alloc, rules)?;
    let start = booted(alloc, &mut seeker, plain)?;
    every_from(alloc, &mut seeker, start, most)
}

/// All that the orders lead to in which scripts can take their turns behind the boot of a machine: how many worlds, the trees of
/// those in which all callers have ended, and who waits for whom in those that stand still; or `None` if there are more worlds
/// than the bound.
pub fn every_order(
    alloc: Global,
    tables: &Compiled,
    machine: &Machine,
    scripts: &[Script],
    most: u32,
) -> Result<Option<Every>, Memory>
    requires tables { FormedTables tables.now }
    requires machine { FittingMachine tables.now machine.now }
    requires few_scripts { length scripts.now ≤ 16 }
    requires scripts { All FormedScript scripts.now }
    ensures { IfOk result (IsEveryOrder (setup_of tables.now machine.now scripts.now) most) }
{
    let stretches = stretches_of(alloc, machine)?;
    let rules = Rules {
        tables: tables.tables(),
        graph: tables.graph(),
        machine,
        stretches: &stretches,
        scripts,
    };
    every_under(alloc, &rules, most)
}
