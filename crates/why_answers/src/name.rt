//! What is said of a name.
ghost use Rattle.std.specs.Prelude.{◌≡◌, [], IfOk};
ghost use Rattle.config_rules.specs.Formed.{FittingMachine, FormedTables};
ghost use Rattle.run_rules.specs.World.{setup_of};
ghost use Rattle.gone_rows.specs.Gone.{stated_by};
ghost use Rattle.plain_world.specs.Plain.{world_of};
ghost use Rattle.boot_looks.specs.Looks.{AreBootLooks};
ghost use Rattle.why_answers.specs.Answers.{IsAnswer, answer_by, spot_by};

use crate::near_rows::near_answer;
use crate::spot::spot_lines;
use boot_looks::{BootLooks, boot_looks};
use cf_tables::Compiled;
use cf_types::{List, Machine, Memory, Text};
use gone_rows::Statements;
use plain_names::device_named;
use plain_world::{Plain, Rules, spot_named, stretches_of};
use std::alloc::Global;

/// The spot that has a name, or the device of the name is on it when the boot has ended.
fn spot_by(alloc: Global, rules: &Rules, end: &Plain, name: &[u8]) -> Result<Option<u16>, Memory>
    ensures { IfOk result (λ spot. spot ≡ spot_by rules.now (world_of rules.now end.now) name.now) }
{
    if let Some(spot) = spot_named(rules, name) {
        return Ok(Some(spot));
    }
    match device_named(alloc, rules, &end.live, name)? {
        Some(device) => Ok(Some(device.spot)),
        None => Ok(None),
    }
}

/// The lines for a name by a boot.
fn answer_by(
    alloc: Global,
    rules: &Rules,
    boot: &BootLooks,
    stated: &Statements,
    name: &[u8],
) -> Result<Option<List<Text>>, Memory>
    requires boot { AreBootLooks rules.now boot.now }
    ensures { IfOk result (λ answer. answer ≡ answer_by rules.now boot.now.looks (world_of rules.now boot.now.end) (stated_by stated.now) name.now) }
{
    match spot_by(alloc, rules, &boot.end, name)? {
        Some(spot) => {
            let lines = spot_lines(alloc, rules, boot, spot)?;
            Ok(Some(List::from_vec(lines)))
        }
        None => near_answer(alloc, rules, boot.looks.items(), stated, name),
    }
}

/// The lines for a name under the rules of a run.
fn lines_under(
    alloc: Global,
    rules: &Rules,
    stated: &Statements,
    name: &[u8],
) -> Result<Option<List<Text>>, Memory>
    ensures { IfOk result (IsAnswer rules.now (stated_by stated.now) name.now) }
{
    let boot = boot_looks(alloc, rules)?;
    let lines = answer_by(alloc, rules, &boot, stated, name)?;
    Ok(lines)
}

/// The lines for the name of a spot, or of a device that is live when the boot of a machine has ended: where the spot was searched
/// last, and for each row why it took the spot or did not; or why no search came to it. For another name they are the rows that it
/// has in the tables, each with the spot to which it came nearest, and behind them its instances among the statements of the
/// configuration that are not in the tables; `None` if it has neither and is no driver. See autoconf(9).
pub fn why_lines(
    alloc: Global,
    tables: &Compiled,
    machine: &Machine,
    stated: &Statements,
    name: &[u8],
) -> Result<Option<List<Text>>, Memory>
    requires tables { FormedTables tables.now }
    requires machine { FittingMachine tables.now machine.now }
    ensures { IfOk result (IsAnswer (setup_of tables.now machine.now []) (stated_by stated.now) name.now) }
{
    let stretches = stretches_of(alloc, machine)?;
    let rules = Rules {
        tables: tables.tables(),
        graph: tables.graph(),
        machine,
        stretches: &stretches,
        scripts: &[],
    };
    lines_under(alloc, &rules, stated, name)
}
