//! What a caller does next.
ghost use Rattle.std.specs.Prelude.{◌≡◌, ◌≤◌, ◌<◌, ◌-◌, ℕ, List, [], ◌∷◌, ◌&&◌, ◌==◌, IfOk, length, slice_index_or, if◌then◌else◌};
ghost use Rattle.run_rules.specs.Next as next;
ghost use Rattle.run_rules.specs.declared.deed.Choice.TheVariants.{Does};
ghost use Rattle.run_rules.specs.declared.world.Frame as frames;
ghost use Rattle.plain_search.specs.Open.{Follows};
ghost use Rattle.plain_world.specs.Plain.{world_of, state_at, IsReady};

use crate::command::{Asker, command_deed};
use crate::late::finalise;
use crate::power::{closing, freeing, powering};
use cf_types::{Command, Memory};
use plain_search::{Seeker, next_scan};
use plain_world::{Caller, Plain, Rules, command_at, has_ended};
use run_rules::{Activity, Choice, Deed, Frame, Wait};
use std::alloc::Global;

/// What the boot does without a frame: interrupts first, then the finalizers, in passes until none answers 1. See
/// autoconf(9).
#[tactic(auto, unfolding(run_rules::specs::Next::next_boot))]
fn next_boot(seeker: &Seeker, plain: &Plain) -> Choice
    requires few { length plain.now.live.devices ≤ 1024 }
    requires follows { Follows seeker.now plain.now.live.devices }
    ensures { next.next_boot (world_of seeker.now.rules.now plain.now) ≡ result }
{
    if !plain.interrupts_on {
        return Choice::Does(Deed::BeginInterrupts);
    }
    let place = plain.next_finaliser;
    if place < plain.finalisers.len() as u64 {
        let serial = finaliser_at(&plain.finalisers, place);
        return Choice::Does(finalise(seeker, plain, serial, Some(place), false));
    }
    if plain.pass_repeats {
        let serial = finaliser_at(&plain.finalisers, 0);
        return Choice::Does(finalise(seeker, plain, serial, Some(0), true));
    }
    Choice::Does(Deed::EndCaller)
}

/// The device at a place of the boot's list; 0 if there is none.
fn finaliser_at(finalisers: &[u64], place: u64) -> u64
    ensures { slice_index_or finalisers.now place 0 ≡ result }
{
    match finalisers.get(place as usize) {
        Some(serial) => *serial,
        None => 0,
    }
}

/// Whether a command is one of pmf(9).
fn is_power(said: &Command) -> bool
    ensures { result ≡ next.is_power said.now }
{
    matches!(
        said,
        Command::Suspend(_) | Command::Resume(_) | Command::ResumeTree(_)
    )
}

/// The caller, not this one, that has the power turn.
fn other_turn(owner: Option<u8>, caller: u8) -> Option<u8>
    ensures { result ≡ next.other_turn owner caller }
{
    match owner {
        None => None,
        Some(other) => { if other == caller { None } else { Some(other) } }
    }
}

/// The caller that a command waits for.
fn waits_for(plain: &Plain, caller: u8, said: &Command) -> Option<u8>
    ensures { (if next.is_power said.now then next.other_turn plain.now.power_owner caller else None) ≡ result }
{
    if is_power(said) {
        other_turn(plain.power_owner, caller)
    } else {
        None
    }
}

/// A command begins, or it waits for the power turn.
fn starting(
    alloc: Global,
    rules: &Rules,
    plain: &Plain,
    caller: u8,
    over: u32,
    said: &Command,
) -> Result<Choice, Memory>
    requires ready { IsReady plain.now }
    requires over { over ≡ (state_at plain.now.callers.items caller).over }
    ensures { IfOk result (λ does. next.starting (world_of rules.now plain.now) caller said.now ≡ does) }
{
    match waits_for(plain, caller, said) {
        Some(other) => Ok(Choice::Waits(Wait::Power(other))),
        None => {
            let asker = Asker {
                caller,
                number: over + 1,
            };
            let deed = command_deed(alloc, rules, plain, asker, said)?;
            Ok(Choice::Does(deed))
        }
    }
}

/// What the caller of a script does without a frame: its next command begins, or it has none left.
#[tactic(auto, unfolding(run_rules::specs::Next::next_command))]
fn next_command(
    alloc: Global,
    rules: &Rules,
    plain: &Plain,
    caller: u8,
    over: u32,
) -> Result<Choice, Memory>
    requires ready { IsReady plain.now }
    requires over { over ≡ (state_at plain.now.callers.items caller).over }
    ensures { IfOk result (λ does. next.next_command (world_of rules.now plain.now) caller ≡ does) }
{
    match command_at(rules, caller, over) {
        Some(said) => starting(alloc, rules, plain, caller, over, said),
        None => Ok(closing(plain, caller)),
    }
}

/// What a frame on top leads to.
#[inline(always)]
fn next_frame(seeker: &Seeker, plain: &Plain, frame: &Frame) -> Deed
    requires few { length plain.now.live.devices ≤ 1024 }
    requires follows { Follows seeker.now plain.now.live.devices }
    ensures { (k : ℕ) (rest : List frames.Frame) → next.on_top (world_of seeker.now.rules.now plain.now) k (frame.now ∷ rest) ≡ Does result }
{
    match frame {
        Frame::Scan {
            serial,
            only,
            filter,
            position,
        } => next_scan(seeker, plain, *serial, *only, filter.items(), *position),
        Frame::Finaliser { serial } => finalise(seeker, plain, *serial, None, false),
    }
}

/// What a caller that is in no transfer, detachment or power command does: its frames go first.
#[inline(always)]
fn on_top(
    alloc: Global,
    seeker: &Seeker,
    plain: &Plain,
    caller: u8,
    state: &Caller,
) -> Result<Choice, Memory>
    requires ready { IsReady plain.now }
    requires follows { Follows seeker.now plain.now.live.devices }
    requires state { state.now ≡ state_at plain.now.callers.items caller }
    ensures { IfOk result (λ does. next.on_top (world_of seeker.now.rules.now plain.now) caller state.now.stack ≡ does) }
{
    match state.stack() {
        [frame, ..] => Ok(Choice::Does(next_frame(seeker, plain, frame))),
        [] => {
            if caller == 0 {
                Ok(next_boot(seeker, plain))
            } else {
                next_command(alloc, seeker.rules, plain, caller, state.over())
            }
        }
    }
}

/// What a caller that is in the middle of something does.
#[inline(always)]
fn by_activity(
    alloc: Global,
    seeker: &Seeker,
    plain: &Plain,
    caller: u8,
    state: &Caller,
) -> Result<Choice, Memory>
    requires ready { IsReady plain.now }
    requires follows { Follows seeker.now plain.now.live.devices }
    requires state { state.now ≡ state_at plain.now.callers.items caller }
    ensures { IfOk result (λ does. next.by_activity (world_of seeker.now.rules.now plain.now) caller state.now.doing ≡ does) }
{
    match state.doing() {
        Activity::Ended => Ok(Choice::Ended),
        Activity::Transfer(ticket) => Ok(Choice::Does(Deed::Done(ticket))),
        Activity::Frees(_) => Ok(freeing(plain, caller)),
        Activity::Power(kind, target) => Ok(powering(seeker.rules, plain, kind, target)),
        Activity::Scans => on_top(alloc, seeker, plain, caller, state),
        Activity::Idle => on_top(alloc, seeker, plain, caller, state),
    }
}

/// What a caller does next.
#[inline(always)]
#[tactic(auto, unfolding(run_rules::specs::Next::next))]
pub fn next(alloc: Global, seeker: &Seeker, plain: &Plain, caller: u8) -> Result<Choice, Memory>
    requires ready { IsReady plain.now }
    requires follows { Follows seeker.now plain.now.live.devices }
    ensures { IfOk result (λ does. next.next (world_of seeker.now.rules.now plain.now) caller ≡ does) }
{
    if has_ended(&plain.callers, caller) {
        return Ok(Choice::Ended);
    }
    if caller != 0 && !has_ended(&plain.callers, 0) {
        return Ok(Choice::Waits(Wait::Boot));
    }
    match plain.callers.get(caller as usize) {
        Some(state) => by_activity(alloc, seeker, plain, caller, state),
        None => Ok(Choice::Ended),
    }
}
