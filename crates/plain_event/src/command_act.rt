//! What the event of a command says.
ghost use Rattle.std.specs.Prelude.{◌≡◌, ◌<◌, ◌≤◌, false, true, IfOk, None, Some, length, option_map};
ghost use Rattle.std.specs.Option.{option_map_or};
ghost use Rattle.run_rules.specs.declared.event.Act.TheVariants as act;
ghost use Rattle.run_rules.specs.declared.event.Reply.{Reply};
ghost use Rattle.run_rules.specs.Next as next;
ghost use Rattle.run_rules.specs.Run as run;
ghost use Rattle.run_rules.specs.World.{World};
ghost use Rattle.plain_event.specs.Tellers.{KeepsRules, world_in};
ghost use Rattle.run_rules.specs.Said.{AnswersLive, EndsLive, RefusesLive, answer_by, name_given, power_end_act};
ghost use Rattle.plain_world.specs.Plain.{state_at};

use crate::teller::Teller;
use crate::telling::live_name;
use cf_types::{Command, Memory, Name};
use plain_names::{list_names, tree_names};
use plain_world::{Plain, command_at};
use run_rules::{Act, CommandRefusal, PowerEnd, Reply, name_given, power_name};

/// The reply of a refusal.
fn reply_of(teller: &mut Teller, plain: &Plain, why: CommandRefusal) -> Result<Reply, Memory>
    requires live { RefusesLive plain.now.live.devices why }
    ensures reply { IfOk result (λ r. r ≡ run.reply_of (world_in teller.old plain.now) why) }
    ensures rules { KeepsRules teller.old teller.new }
{
    match why {
        CommandRefusal::Busy(serial) => {
            let name = live_name(teller, &plain.live, serial)?;
            Ok(Reply::Busy(name))
        }
        _ => Ok(Reply::of_refusal(why)),
    }
}

/// The reply of a command that was refused, or had its effect.
fn answer_by(
    teller: &mut Teller,
    plain: &Plain,
    refused: Option<CommandRefusal>,
) -> Result<Reply, Memory>
    requires live { AnswersLive plain.now.live.devices refused }
    ensures reply { IfOk result (λ r. r ≡ answer_by (world_in teller.old plain.now) refused) }
    ensures rules { KeepsRules teller.old teller.new }
{
    match refused {
        Some(why) => reply_of(teller, plain, why),
        None => Ok(Reply::Ok),
    }
}

/// The reply with which a power command ends.
fn end_of(teller: &mut Teller, plain: &Plain, end: PowerEnd) -> Result<Reply, Memory>
    requires live { EndsLive plain.now.live.devices end }
    ensures reply { IfOk result (λ r. r ≡ run.end_of (world_in teller.old plain.now) end) }
    ensures rules { KeepsRules teller.old teller.new }
{
    match end {
        PowerEnd::Done => Ok(Reply::Ok),
        PowerEnd::Gone => Ok(Reply::Gone),
        PowerEnd::NotSupported(serial) => {
            let name = live_name(teller, &plain.live, serial)?;
            Ok(Reply::NotSupported(name))
        }
        PowerEnd::Failed(serial) => {
            let name = live_name(teller, &plain.live, serial)?;
            Ok(Reply::SuspendFailed(name))
        }
    }
}

/// The name that a command gave, and the reply.
fn answered(
    teller: &mut Teller,
    plain: &Plain,
    name: &Name,
    refused: Option<CommandRefusal>,
) -> Result<(Name, Reply), Memory>
    requires live { AnswersLive plain.now.live.devices refused }
    ensures told { IfOk result (λ told. told ≡ (name.now, answer_by (world_in teller.old plain.now) refused)) }
    ensures rules { KeepsRules teller.old teller.new }
{
    let name = name.clone()?;
    let reply = answer_by(teller, plain, refused)?;
    Ok((name, reply))
}

/// A copy of a name, if there is one.
fn name_or_none(name: &Option<Name>) -> Result<Option<Name>, Memory>
    ensures { IfOk result (λ copy. copy ≡ name.now) }
{
    match name {
        Some(name) => {
            let copy = name.clone()?;
            Ok(Some(copy))
        }
        None => Ok(None),
    }
}

/// A list with its names.
fn list_act(teller: &Teller, plain: &Plain, name: &Option<Name>) -> Result<Act, Memory>
    ensures { IfOk result (λ a. a ≡ act.ListDev name.now (run.list_names (world_in teller.now plain.now) name.now)) }
{
    let device = name_or_none(name)?;
    let names = list_names(teller.alloc, teller.rules, plain, name)?;
    Ok(Act::ListDev { device, names })
}

/// A tree with its names.
fn tree_act(teller: &Teller, plain: &Plain, name: &Option<Name>) -> Result<Act, Memory>
    requires few { length plain.now.live.devices ≤ 1024 }
    ensures { IfOk result (λ a. a ≡ act.TreeDev name.now (run.tree_names (world_in teller.now plain.now) name.now)) }
{
    let device = name_or_none(name)?;
    let names = tree_names(teller.alloc, teller.rules, plain, name)?;
    Ok(Act::TreeDev { device, names })
}

/// The names in a list or a tree.
fn listing_act(teller: &Teller, plain: &Plain, said: &Command) -> Result<Act, Memory>
    requires few { length plain.now.live.devices ≤ 1024 }
    requires listing { name_given said.now ≡ None }
    ensures { (r : Reply) → IfOk result (λ a. a ≡ run.told (world_in teller.now plain.now) said.now r) }
{
    match said {
        Command::ListDev(name) => list_act(teller, plain, name),
        Command::TreeDev(name) => tree_act(teller, plain, name),
        _ => unreachable!(),
    }
}

/// A command that was refused, or had its effect.
fn command_act(
    teller: &mut Teller,
    plain: &Plain,
    said: &Command,
    refused: Option<CommandRefusal>,
) -> Result<Act, Memory>
    requires few { length plain.now.live.devices ≤ 1024 }
    requires live { AnswersLive plain.now.live.devices refused }
    ensures act { IfOk result (λ a. a ≡ run.told (world_in teller.old plain.now) said.now (answer_by (world_in teller.old plain.now) refused)) }
    ensures rules { KeepsRules teller.old teller.new }
{
    match name_given(said) {
        Some(name) => match answered(teller, plain, name, refused) {
            Ok((name, reply)) => Ok(Act::of_command(said, name, reply)),
            Err(_) => Err(Memory),
        },
        None => listing_act(teller, plain, said),
    }
}

/// How many commands of a caller are over.
pub fn over_of(plain: &Plain, caller: u8) -> u32
    requires { caller < length plain.now.callers.items }
    ensures { result ≡ (state_at plain.now.callers.items caller).over }
{
    plain.callers[caller as usize].over()
}

/// The line of the command that a caller is at, which was refused or had its effect.
#[inline(never)]
pub fn answered_act(
    teller: &mut Teller,
    plain: &Plain,
    caller: u8,
    refused: Option<CommandRefusal>,
) -> Result<Act, Memory>
    requires few { length plain.now.live.devices ≤ 1024 }
    requires there { caller < length plain.now.callers.items }
    requires live { AnswersLive plain.now.live.devices refused }
    ensures act { IfOk result (λ a. a ≡ run.answered (world_in teller.old plain.now) caller (answer_by (world_in teller.old plain.now) refused)) }
    ensures rules { KeepsRules teller.old teller.new }
{
    let rules = teller.rules;
    match command_at(rules, caller, over_of(plain, caller)) {
        Some(said) => command_act(teller, plain, said, refused),
        None => Ok(Act::End),
    }
}

/// The end of the power command that a caller is at.
#[inline(never)]
pub fn power_end_act(
    teller: &mut Teller,
    plain: &Plain,
    caller: u8,
    end: PowerEnd,
) -> Result<Act, Memory>
    requires there { caller < length plain.now.callers.items }
    requires live { EndsLive plain.now.live.devices end }
    requires power { option_map_or next.is_power (next.command_of (world_in teller.old plain.now) caller) false ≡ true }
    ensures act { IfOk result (λ a. a ≡ power_end_act (world_in teller.old plain.now) caller end) }
    ensures rules { KeepsRules teller.old teller.new }
{
    let rules = teller.rules;
    match command_at(rules, caller, over_of(plain, caller)) {
        Some(said) => {
            let device = power_name(said).clone()?;
            let reply = end_of(teller, plain, end)?;
            Ok(Act::PowerEnd { device, reply })
        }
        None => unreachable!(),
    }
}
