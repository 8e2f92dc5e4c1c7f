//! Gives the commands of a plan to live tables, one after the other.
ghost use Rattle.std.specs.Prelude.{◌≡◌, ◌<◌, ◌≤◌, ◌+◌, ◌++◌, ◌^◌, All, IfOk, OnOk, length};
ghost use Rattle.config_rules.specs.Formed.{FittingMachine, FormedTables};
ghost use Rattle.live_rules.specs.Live as rule;
ghost use Rattle.live_rules.specs.LiveText.{live_texts};
ghost use Rattle.live_rules.specs.PlanText.{FormedPlan, IsOnGroup};
ghost use Rattle.live_tables.specs.Answers.{Answers};
ghost use Rattle.live_run.specs.Told.{Tells, commands_texts, site_of};

use crate::told::{push_answer, push_tree, push_word};
use cf_tables::Compiled;
use cf_types::{List, Machine, Memory, Text};
use live_tables::{LiveLine, LiveReply, LiveTables, Plan, PlanCommand};
use std::alloc::Global;
use std::mem::drop;

/// What is left of a plan: its tables, and the lines that it prints behind their listing.
#[derive(Drop)]
pub struct LiveRun {
    pub tables: Compiled,
    pub lines: List<Text>,
}

/// Gives a command to live tables.
#[tactic(auto, unfolding(live_rules::specs::Live::answer))]
fn run_command(
    live: &mut LiveTables,
    command: PlanCommand,
    lines: &mut List<LiveLine>,
) -> Result<LiveReply, Memory>
    requires serials { live.old.world.next < 2 ^ 63 }
    requires group { IsOnGroup live.old.site.groups command }
    ensures { IfOk result (Answers live.old live.new lines.old lines.new (rule.answer live.old.site live.old.world command)) }
{
    match command {
        PlanCommand::Add(group) => live.add(group, lines),
        PlanCommand::Remove(group) => live.remove(group, lines),
        PlanCommand::Scan => {
            live.scan(lines)?;
            Ok(LiveReply::Ok)
        }
    }
}

/// Gives a command to live tables, and appends what it is told.
fn tell_command(
    alloc: Global,
    live: &mut LiveTables,
    command: PlanCommand,
    out: &mut List<Text>,
) -> Result<(), Memory>
    requires serials { live.old.world.next < 2 ^ 63 }
    requires group { IsOnGroup live.old.site.groups command }
    ensures { OnOk result (Tells live.old live.new command out.old out.new) }
{
    live.stands();
    let mut lines = List::make(alloc);
    let reply = run_command(live, command, &mut lines)?;
    live.stands();
    push_answer(alloc, out, live.groups(), command, &reply, lines.items())
}

/// Gives commands to live tables, and appends what they are told.
fn tell_commands(
    alloc: Global,
    live: &mut LiveTables,
    commands: &[PlanCommand],
    out: &mut List<Text>,
) -> Result<(), Memory>
    requires first { live.old.world.next ≤ 1 }
    requires few { length commands.now ≤ 500 }
    requires groups { All (IsOnGroup live.old.site.groups) commands.now }
    ensures text { OnOk result (out.new ≡ out.old ++ commands_texts live.old.site live.old.world commands.now) }
    ensures site { OnOk result (live.new.site ≡ live.old.site) }
    ensures world { OnOk result (live.new.world ≡ rule.after live.old.site live.old.world commands.now) }
{
    for command in commands {
        tell_command(alloc, live, *command, out)?;
    }
    Ok(())
}

/// The lines that a plan prints behind the listing.
fn lines_by(
    alloc: Global,
    live: &mut LiveTables,
    commands: &[PlanCommand],
) -> Result<List<Text>, Memory>
    requires first { live.old.world ≡ rule.opening }
    requires few { length commands.now ≤ 500 }
    requires groups { All (IsOnGroup live.old.site.groups) commands.now }
    ensures lines { IfOk result (λ lines. lines ≡ live_texts live.old.site commands.now) }
    ensures site { OnOk result (live.new.site ≡ live.old.site) }
{
    let mut out = List::make(alloc);
    push_word(alloc, &mut out, b"live 1")?;
    tell_commands(alloc, live, commands, &mut out)?;
    let devices = live.tree_lines()?;
    push_tree(alloc, &mut out, devices.items())?;
    Ok(out)
}

/// Follows a plan on a machine that fits formed tables: the lines that it prints behind the listing, the head first, then
/// each command with its reply and its lines, then the device tree that is left.
pub fn live_run(
    alloc: Global,
    tables: Compiled,
    machine: Machine,
    plan: Plan,
) -> Result<LiveRun, Memory>
    requires formed { FormedTables tables }
    requires fits { FittingMachine tables machine }
    requires plan { FormedPlan plan }
    ensures tables { IfOk result (λ run. run.tables ≡ tables) }
    ensures lines { IfOk result (λ run. run.lines ≡ live_texts (site_of tables machine plan) plan.commands) }
{
    let Plan { groups, commands } = plan;
    let mut live = LiveTables::start(alloc, tables, machine, groups)?;
    match lines_by(alloc, &mut live, commands.items()) {
        Ok(lines) => Ok(LiveRun {
            tables: live.into_tables(),
            lines,
        }),
        Err(stop) => {
            drop(live);
            Err(stop)
        }
    }
}
