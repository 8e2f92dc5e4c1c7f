//! What the event of a command says.
ghost use Rattle.std.specs.Prelude.{◌≡◌, ◌<◌, false, true, IfOk, None, length};
ghost use Rattle.std.specs.Option.{option_map_or};
ghost use Rattle.run_rules.specs.declared.event.Act.TheVariants as act;
ghost use Rattle.run_rules.specs.declared.event.Reply.{Reply};
ghost use Rattle.run_rules.specs.Next as next;
ghost use Rattle.run_rules.specs.Run as run;
ghost use Rattle.run_rules.specs.Said.{AnswersLive, EndsLive, RefusesLive, answer_by, name_given, power_end_act};

use cf_types::{Command, Memory, Name, Ticket};
use run_rules::{Act, CommandRefusal, IoAnswer, PowerEnd, Reply, name_given, power_name};
use run_world::Going;
use told_names::{list_names, live_name, tree_names};

/// The result of a transfer: the number of the spot plus the value that was sent, modulo 2^32, or the error of a bad
/// spot.
#[inline(always)]
pub fn answer_for(ticket: Ticket) -> IoAnswer
    ensures { result ≡ run.answer_of ticket }
{
    IoAnswer::of(ticket)
}

/// The reply of a refusal.
fn reply_of(going: &Going, why: CommandRefusal) -> Result<Reply, Memory>
    requires live { RefusesLive going.now.live why }
    ensures { IfOk result (λ r. r ≡ run.reply_of going.now why) }
{
    match why {
        CommandRefusal::Busy(serial) => {
            let name = live_name(going, serial)?;
            Ok(Reply::Busy(name))
        }
        _ => Ok(Reply::of_refusal(why)),
    }
}

/// The reply of a command that was refused, or had its effect.
#[inline(always)]
fn answer_by(going: &Going, refused: Option<CommandRefusal>) -> Result<Reply, Memory>
    requires live { AnswersLive going.now.live refused }
    ensures { IfOk result (λ r. r ≡ answer_by going.now refused) }
{
    match refused {
        Some(why) => reply_of(going, why),
        None => Ok(Reply::Ok),
    }
}

/// The reply with which a power command ends.
fn end_of(going: &Going, end: PowerEnd) -> Result<Reply, Memory>
    requires live { EndsLive going.now.live end }
    ensures { IfOk result (λ r. r ≡ run.end_of going.now end) }
{
    match end {
        PowerEnd::Done => Ok(Reply::Ok),
        PowerEnd::Gone => Ok(Reply::Gone),
        PowerEnd::NotSupported(serial) => {
            let name = live_name(going, serial)?;
            Ok(Reply::NotSupported(name))
        }
        PowerEnd::Failed(serial) => {
            let name = live_name(going, serial)?;
            Ok(Reply::SuspendFailed(name))
        }
    }
}

/// The name that a command gave, and the reply.
fn answered(
    going: &Going,
    name: &Name,
    refused: Option<CommandRefusal>,
) -> Result<(Name, Reply), Memory>
    requires live { AnswersLive going.now.live refused }
    ensures { IfOk result (λ told. told ≡ (name.now, answer_by going.now refused)) }
{
    let name = name.clone()?;
    let reply = answer_by(going, refused)?;
    Ok((name, reply))
}

/// A copy of a name, if there is one.
fn name_or_none(name: &Option<Name>) -> Result<Option<Name>, Memory>
    ensures { IfOk result (λ copy. copy ≡ name.now) }
{
    match name {
        Some(name) => {
            let copy = name.clone()?;
            Ok(Some(copy))
        }
        None => Ok(None),
    }
}

/// A list with its names.
fn list_act(going: &Going, name: &Option<Name>) -> Result<Act, Memory>
    ensures { IfOk result (λ a. a ≡ act.ListDev name.now (run.list_names going.now name.now)) }
{
    let device = name_or_none(name)?;
    let names = list_names(going, name)?;
    Ok(Act::ListDev { device, names })
}

/// A tree with its names.
fn tree_act(going: &Going, name: &Option<Name>) -> Result<Act, Memory>
    ensures { IfOk result (λ a. a ≡ act.TreeDev name.now (run.tree_names going.now name.now)) }
{
    let device = name_or_none(name)?;
    let names = tree_names(going, name)?;
    Ok(Act::TreeDev { device, names })
}

/// The names in a list or a tree.
fn listing_act(going: &Going, said: &Command) -> Result<Act, Memory>
    requires listing { name_given said.now ≡ None }
    ensures { (r : Reply) → IfOk result (λ a. a ≡ run.told going.now said.now r) }
{
    match said {
        Command::ListDev(name) => list_act(going, name),
        Command::TreeDev(name) => tree_act(going, name),
        _ => unreachable!(),
    }
}

/// A command that was refused, or had its effect.
fn command_act(
    going: &Going,
    said: &Command,
    refused: Option<CommandRefusal>,
) -> Result<Act, Memory>
    requires live { AnswersLive going.now.live refused }
    ensures { IfOk result (λ a. a ≡ run.told going.now said.now (answer_by going.now refused)) }
{
    match name_given(said) {
        Some(name) => match answered(going, name, refused) {
            Ok((name, reply)) => Ok(Act::of_command(said, name, reply)),
            Err(_) => Err(Memory),
        },
        None => listing_act(going, said),
    }
}

/// The line of the command that a caller is at, which was refused or had its effect.
pub fn answered_act(
    going: &Going,
    caller: u8,
    refused: Option<CommandRefusal>,
) -> Result<Act, Memory>
    requires caller { caller < length going.now.callers }
    requires live { AnswersLive going.now.live refused }
    ensures { IfOk result (λ a. a ≡ run.answered going.now caller (answer_by going.now refused)) }
{
    match going.command(caller) {
        Some(said) => command_act(going, said, refused),
        None => Ok(Act::End),
    }
}

/// The end of the power command that a caller is at.
pub fn power_end_act(going: &Going, caller: u8, end: PowerEnd) -> Result<Act, Memory>
    requires live { EndsLive going.now.live end }
    requires caller { caller < length going.now.callers }
    requires power { option_map_or next.is_power (next.command_of going.now caller) false ≡ true }
    ensures { IfOk result (λ a. a ≡ power_end_act going.now caller end) }
{
    match going.command(caller) {
        Some(said) => {
            let device = power_name(said).clone()?;
            let reply = end_of(going, end)?;
            Ok(Act::PowerEnd { device, reply })
        }
        None => unreachable!(),
    }
}
