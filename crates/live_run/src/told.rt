//! The lines of commands and of devices that came or went. They are this project's own.
ghost use Rattle.std.specs.Prelude.{◌≡◌, ◌++◌, OnOk, ◌∷◌, [], codes, map};
ghost use Rattle.run_rules.specs.Tree.{dev_text};
ghost use Rattle.live_rules.specs.LiveText.{answer_texts, command_text, group_name, line_text, reply_text, told_text};
ghost use Rattle.live_rules.specs.declared.plan.PlanCommand.TheVariants as commands;
ghost use Rattle.live_rules.specs.PlanText.{IsOnGroup};

use cf_types::{DevLine, List, Memory, Text, put_bytes, put_decimal};
use live_tables::{Group, LiveLine, LiveReply, PlanCommand};
use std::alloc::Global;
use tree_text::put_dev;

/// Appends a verb and the name of a group.
fn put_verb(out: &mut Vec<u8>, verb: &[u8], groups: &[Group], group: u32) -> Result<(), Memory>
    requires { IsOnGroup groups.now (commands.Add group) }
    ensures { OnOk result (out.new.items ≡ out.old.items ++ (verb.now ++ group_name groups.now group)) }
{
    put_bytes(out, verb)?;
    put_bytes(out, groups[group as usize].name.bytes())
}

/// Appends a command as it is written.
fn put_command(out: &mut Vec<u8>, groups: &[Group], command: PlanCommand) -> Result<(), Memory>
    requires { IsOnGroup groups.now command }
    ensures { OnOk result (out.new.items ≡ out.old.items ++ command_text groups.now command) }
{
    match command {
        PlanCommand::Add(group) => put_verb(out, b"add ", groups, group),
        PlanCommand::Remove(group) => put_verb(out, b"remove ", groups, group),
        PlanCommand::Scan => put_bytes(out, b"scan"),
    }
}

/// Appends a reply.
fn put_reply(out: &mut Vec<u8>, reply: &LiveReply) -> Result<(), Memory>
    ensures { OnOk result (out.new.items ≡ out.old.items ++ reply_text reply.now) }
{
    match reply {
        LiveReply::Ok => put_bytes(out, b"ok"),
        LiveReply::OnAlready => put_bytes(out, b"on already"),
        LiveReply::OffAlready => put_bytes(out, b"off already"),
        LiveReply::Busy(name) => {
            put_bytes(out, b"busy ")?;
            put_bytes(out, name.bytes())
        }
    }
}

/// Appends a command with its reply.
#[tactic(auto, unfolding(live_rules::specs::LiveText::told_text))]
fn put_told(
    out: &mut Vec<u8>,
    groups: &[Group],
    command: PlanCommand,
    reply: &LiveReply,
) -> Result<(), Memory>
    requires { IsOnGroup groups.now command }
    ensures { OnOk result (out.new.items ≡ out.old.items ++ told_text groups.now command reply.now) }
{
    put_command(out, groups, command)?;
    put_bytes(out, b": ")?;
    put_reply(out, reply)
}

/// Appends the line of a device that came or went.
#[tactic(auto, unfolding(live_rules::specs::LiveText::line_text))]
fn put_line(out: &mut Vec<u8>, line: &LiveLine) -> Result<(), Memory>
    ensures { OnOk result (out.new.items ≡ out.old.items ++ line_text line.now) }
{
    match line {
        LiveLine::Attached { name, parent, row } => {
            put_bytes(out, b"attach ")?;
            put_bytes(out, name.bytes())?;
            put_bytes(out, b" at ")?;
            put_bytes(out, parent.bytes())?;
            put_bytes(out, b" row ")?;
            put_decimal(out, i64::from(*row))
        }
        LiveLine::Freed { name } => {
            put_bytes(out, b"free ")?;
            put_bytes(out, name.bytes())
        }
    }
}

/// Appends a line to lines.
fn push_line(lines: &mut List<Text>, line: Vec<u8>) -> Result<(), Memory>
    ensures { OnOk result (lines.new ≡ lines.old ++ line.items ∷ []) }
{
    lines.push(List::from_vec(line))?;
    Ok(())
}

/// Appends the line of a device that came or went to lines.
fn push_live(alloc: Global, lines: &mut List<Text>, line: &LiveLine) -> Result<(), Memory>
    ensures { OnOk result (lines.new ≡ lines.old ++ line_text line.now ∷ []) }
{
    let mut text = Vec::new(alloc);
    put_line(&mut text, line)?;
    push_line(lines, text)
}

/// Appends a command with its reply to lines.
fn push_told(
    alloc: Global,
    lines: &mut List<Text>,
    groups: &[Group],
    command: PlanCommand,
    reply: &LiveReply,
) -> Result<(), Memory>
    requires { IsOnGroup groups.now command }
    ensures { OnOk result (lines.new ≡ lines.old ++ told_text groups.now command reply.now ∷ []) }
{
    let mut text = Vec::new(alloc);
    put_told(&mut text, groups, command, reply)?;
    push_line(lines, text)
}

/// Appends a command with its reply, and then its lines.
pub fn push_answer(
    alloc: Global,
    lines: &mut List<Text>,
    groups: &[Group],
    command: PlanCommand,
    reply: &LiveReply,
    told: &[LiveLine],
) -> Result<(), Memory>
    requires { IsOnGroup groups.now command }
    ensures { OnOk result (lines.new ≡ lines.old ++ answer_texts groups.now (command, (reply.now, told.now))) }
{
    push_told(alloc, lines, groups, command, reply)?;
    for line in told {
        push_live(alloc, lines, line)?;
    }
    Ok(())
}

/// Appends a word to lines.
pub fn push_word(alloc: Global, lines: &mut List<Text>, word: &[u8]) -> Result<(), Memory>
    ensures { OnOk result (lines.new ≡ lines.old ++ word.now ∷ []) }
{
    let text = Vec::from_slice(alloc, word)?;
    push_line(lines, text)
}

/// Appends the line of a device of the tree to lines.
fn push_device(alloc: Global, lines: &mut List<Text>, device: &DevLine) -> Result<(), Memory>
    ensures { OnOk result (lines.new ≡ lines.old ++ dev_text device.now ∷ []) }
{
    let mut text = Vec::new(alloc);
    put_dev(device, &mut text)?;
    push_line(lines, text)
}

/// Appends the line `tree`, and then those of the devices.
pub fn push_tree(alloc: Global, lines: &mut List<Text>, devices: &[DevLine]) -> Result<(), Memory>
    ensures { OnOk result (lines.new ≡ lines.old ++ codes "tree" ∷ map dev_text devices.now) }
{
    push_word(alloc, lines, b"tree")?;
    for device in devices {
        push_device(alloc, lines, device)?;
    }
    Ok(())
}
