//! Reads a plan. The format is this project's own.
ghost use Rattle.std.specs.Prelude.{◌≡◌, ◌≤◌, ◌+◌, ◌++◌, ◌∷◌, [], nat_le, length, IfOk, IsTrue};
ghost use Rattle.cf_text.specs.Shapes.{is_written};
ghost use Rattle.config_rules.specs.MachineText.{has_bad_byte, words_of};
ghost use Rattle.machine_text.specs.Words.{seen};
ghost use Rattle.script_text.specs.Left.{Gives, Leaves};
ghost use Rattle.live_rules.specs.PlanText as rule;
ghost use Rattle.live_rules.specs.PlanText.{FormedPlan};
ghost use Rattle.live_tables.specs.Reading.{Becomes, group_named, line_by, one_group, with_group};
ghost use Rattle.live_tables.specs.declared.verb.Verb.TheVariants as verbs;

use crate::members::{are_written, group_number, is_written, members_of};
use crate::verb::{Verb, verb_of};
use cf_types::code::script as code;
use cf_types::{List, Name, Tables};
use live_rules::{Group, Plan, PlanCommand, code as plan_code};
use machine_text::{LineStop, cut_words, has_bad_byte};
use script_text::ScriptStop;
use std::alloc::Global;

/// The most lines with words.
const MAX_LINES: usize = 500;

/// A plan before its first line.
#[tactic(auto, using(crate::proofs::PlanLaws::none_formed))]
fn no_plan(alloc: Global) -> Plan
    ensures empty { result ≡ rule.no_plan }
    ensures formed { FormedPlan result }
{
    Plan {
        groups: List::make(alloc),
        commands: List::make(alloc),
    }
}

/// Whether a plan has no room for one more line.
fn is_full(plan: &Plan) -> bool
    requires few { length plan.now.groups + length plan.now.commands ≤ 500 }
    ensures { result ≡ nat_le 500 (length plan.now.groups + length plan.now.commands) }
{
    plan.groups.len() + plan.commands.len() >= MAX_LINES
}

/// Adds a command, if there is room.
fn push_command(plan: &mut Plan, command: PlanCommand) -> Result<(), LineStop>
    requires few { length plan.old.groups + length plan.old.commands ≤ 500 }
    ensures { Becomes (rule.with_command plan.old command) plan.new result }
{
    if is_full(plan) {
        return Err(LineStop::Code(code::TOO_MANY_COMMANDS));
    }
    plan.commands.push(command)?;
    Ok(())
}

/// The group of an earlier line that a word names.
fn group_named(groups: &[Group], word: &[u8]) -> Result<u32, LineStop>
    requires few { length groups.now ≤ 500 }
    ensures { Leaves (group_named groups.now word.now) result }
{
    if !is_written(word) {
        return Err(LineStop::Code(code::WRONG_WORDS));
    }
    match group_number(groups, word) {
        Some(group) => Ok(group),
        None => Err(LineStop::Code(plan_code::NO_GROUP)),
    }
}

/// The group that the one word of a command names.
fn one_group(groups: &[Group], words: &[&[u8]]) -> Result<u32, LineStop>
    requires few { length groups.now ≤ 500 }
    ensures { Leaves (one_group groups.now (seen words.now)) result }
{
    match words {
        [word] => group_named(groups, *word),
        _ => Err(LineStop::Code(code::WRONG_WORDS)),
    }
}

/// Adds a group, if there is room.
fn push_group(plan: &mut Plan, name: Name, devices: List<u32>) -> Result<(), LineStop>
    requires few { length plan.old.groups + length plan.old.commands ≤ 500 }
    ensures { Becomes (rule.unless_full plan.old (with_group plan.old name devices)) plan.new result }
{
    if is_full(plan) {
        return Err(LineStop::Code(code::TOO_MANY_COMMANDS));
    }
    plan.groups.push(Group { name, devices })?;
    Ok(())
}

/// Adds a group of this name with the devices that words name.
fn add_group(
    alloc: Global,
    tables: &Tables,
    plan: &mut Plan,
    name: &[u8],
    devices: &[&[u8]],
) -> Result<(), LineStop>
    requires name { IsTrue (is_written name.now) }
    requires few { length plan.old.groups + length plan.old.commands ≤ 500 }
    requires few_devices { length tables.now.devices ≤ 65536 }
    ensures { Becomes (rule.with_group tables.now plan.old name.now (seen devices.now)) plan.new result }
{
    if group_number(plan.groups.items(), name).is_some() {
        return Err(LineStop::Code(plan_code::GROUP_TWICE));
    }
    let members = members_of(alloc, tables, plan.groups.items(), devices)?;
    push_group(plan, Name::make(alloc, name)?, members)
}

/// Adds the group of a line by the words behind `group`.
fn group_line(
    alloc: Global,
    tables: &Tables,
    plan: &mut Plan,
    words: &[&[u8]],
) -> Result<(), LineStop>
    requires few { length plan.old.groups + length plan.old.commands ≤ 500 }
    requires few_devices { length tables.now.devices ≤ 65536 }
    ensures { Becomes (line_by tables.now plan.old verbs.Group (seen words.now)) plan.new result }
{
    match words.split_first() {
        Some((name, devices)) if !devices.is_empty() && are_written(words) => {
            add_group(alloc, tables, plan, *name, devices)
        }
        _ => Err(LineStop::Code(code::WRONG_WORDS)),
    }
}

/// Adds what a line says by its verb and the words behind it.
fn verb_line(
    alloc: Global,
    tables: &Tables,
    plan: &mut Plan,
    verb: Verb,
    words: &[&[u8]],
) -> Result<(), LineStop>
    requires few { length plan.old.groups + length plan.old.commands ≤ 500 }
    requires few_devices { length tables.now.devices ≤ 65536 }
    ensures { Becomes (line_by tables.now plan.old verb (seen words.now)) plan.new result }
{
    match verb {
        Verb::Group => group_line(alloc, tables, plan, words),
        Verb::Add => {
            let group = one_group(plan.groups.items(), words)?;
            push_command(plan, PlanCommand::Add(group))
        }
        Verb::Remove => {
            let group = one_group(plan.groups.items(), words)?;
            push_command(plan, PlanCommand::Remove(group))
        }
        Verb::Scan => match words {
            [] => push_command(plan, PlanCommand::Scan),
            [..] => Err(LineStop::Code(code::WRONG_WORDS)),
        },
    }
}

/// Adds what the words of a line say, of which a byte may not be allowed.
fn add_words(
    alloc: Global,
    tables: &Tables,
    plan: &mut Plan,
    is_bad: bool,
    words: &[&[u8]],
) -> Result<(), LineStop>
    requires few { length plan.old.groups + length plan.old.commands ≤ 500 }
    requires few_devices { length tables.now.devices ≤ 65536 }
    ensures { Becomes (rule.after_words tables.now plan.old is_bad (seen words.now)) plan.new result }
{
    let Some((word, rest)) = words.split_first() else {
        return Ok(());
    };
    let verb = verb_of(*word)?;
    if is_bad {
        return Err(LineStop::Code(code::WRONG_WORDS));
    }
    verb_line(alloc, tables, plan, verb, rest)
}

/// Adds what a line says. Its words are lent, and stand in room that is used again.
fn add_line<'t>(
    alloc: Global,
    tables: &Tables,
    plan: &mut Plan,
    words: &mut Vec<&'t [u8]>,
    line: &'t [u8],
) -> Result<(), LineStop>
    requires few { length plan.old.groups + length plan.old.commands ≤ 500 }
    requires few_devices { length tables.now.devices ≤ 65536 }
    ensures { Becomes (rule.after_words tables.now plan.old (has_bad_byte line.now) (words_of line.now)) plan.new result }
{
    cut_words(words, line)?;
    add_words(alloc, tables, plan, has_bad_byte(line), words)
}

/// Reads a plan of at most 1,048,576 bytes: its groups and commands, at most 500 together, or the first bad line and its
/// code. Devices are those of the tables. The format is this project's own.
#[tactic(auto, unfolding(live_rules::specs::PlanText::plan_of))]
pub fn read_plan(alloc: Global, text: &[u8], tables: &Tables) -> Result<Plan, ScriptStop>
    requires short { length text.now ≤ 1048576 }
    requires few_devices { length tables.now.devices ≤ 65536 }
    ensures gives { Gives (rule.plan_of tables.now text.now) result }
    ensures formed { IfOk result FormedPlan }
{
    let mut words = Vec::new(alloc);
    let mut plan = no_plan(alloc);
    let mut number = 1;
    for line in text.split(|&byte| byte == b'\n') {
        if let Err(stop) = add_line(alloc, tables, &mut plan, &mut words, line) {
            return Err(ScriptStop::at(number, stop));
        }
        number += 1;
    }
    Ok(plan)
}
