//! What a caller of a run does next.
ghost use Rattle.std.specs.Prelude.{◌≡◌, ◌≤◌, ◌<◌, ℕ, List, ◌∷◌, true, false, not, ◌&&◌, ◌==◌, Some, None, IfOk, IfSome, length, if◌then◌else◌};
ghost use Rattle.run_rules.specs.Next as next;
ghost use Rattle.run_rules.specs.World.{caller_at, has_ended};
ghost use Rattle.run_rules.specs.declared.deed.Choice.TheVariants.{Does};
ghost use Rattle.run_rules.specs.declared.world.Frame as frames;
ghost use Rattle.next_deed.specs.Choices.{GoesByFrames};

use crate::command::plan_command;
use crate::freeing::{plan_closing, plan_free};
use crate::looks::power_owner;
use crate::plan::{plan_boot, plan_call, plan_scan};
use crate::power::plan_power;
use cf_types::{Command, Memory};
use run_rules::{Activity, Choice, Deed, Frame, Wait};
use run_world::Going;

/// Whether a command is one of pmf(9).
#[inline(always)]
fn is_power(said: &Command) -> bool
    ensures { result ≡ next.is_power said.now }
{
    matches!(
        said,
        Command::Suspend(_) | Command::Resume(_) | Command::ResumeTree(_)
    )
}

/// The caller, not this one, that has the power turn.
#[inline(always)]
fn other_turn(turn: Option<u8>, caller: u8) -> Option<u8>
    ensures { result ≡ next.other_turn turn caller }
{
    match turn {
        None => None,
        Some(other) => { if other == caller { None } else { Some(other) } }
    }
}

/// The caller that a command waits for.
#[inline(always)]
fn waits_for(going: &Going, caller: u8, said: &Command) -> Option<u8>
    ensures { (if next.is_power said.now then next.other_turn going.now.power_owner caller else None) ≡ result }
{
    if is_power(said) {
        other_turn(power_owner(going), caller)
    } else {
        None
    }
}

/// A command begins, or it waits for the power turn.
fn plan_start(going: &Going, caller: u8, said: &Command) -> Result<Choice, Memory>
    requires caller { caller < length going.now.callers }
    requires said { next.command_of going.now caller ≡ Some said.now }
    ensures { IfOk result (λ does. next.starting going.now caller said.now ≡ does) }
{
    match waits_for(going, caller, said) {
        Some(other) => Ok(Choice::Waits(Wait::Power(other))),
        None => {
            let number = going.caller(caller).over + 1;
            let deed = plan_command(going, caller, number, said)?;
            Ok(Choice::Does(deed))
        }
    }
}

/// What the caller of a script does without a frame: its next command begins, or it has none left.
#[tactic(auto, unfolding(run_rules::specs::Next::next_command))]
fn plan_next(going: &Going, caller: u8) -> Result<Choice, Memory>
    requires caller { caller < length going.now.callers }
    requires script { 1 ≤ caller }
    ensures { IfOk result (λ does. next.next_command going.now caller ≡ does) }
{
    match going.command(caller) {
        Some(said) => plan_start(going, caller, said),
        None => Ok(plan_closing(going, caller)),
    }
}

/// What a frame on top leads to.
#[inline(always)]
fn plan_frame(going: &Going, frame: &Frame) -> Deed
    ensures { (k : ℕ) (rest : List frames.Frame) → next.on_top going.now k (frame.now ∷ rest) ≡ Does result }
{
    match frame {
        Frame::Scan {
            serial,
            only,
            filter,
            position,
        } => plan_scan(going, *serial, *only, filter.items(), *position),
        Frame::Finaliser { serial } => plan_call(going, *serial, None, false),
    }
}

/// What a caller that is in no transfer, detachment or power command does next: its frames go first.
#[inline(always)]
fn plan_stack(going: &Going, caller: u8) -> Result<Choice, Memory>
    requires caller { caller < length going.now.callers }
    requires goes { has_ended going.now caller ≡ false }
    ensures { IfOk result (λ does. next.on_top going.now caller (caller_at going.now caller).stack ≡ does) }
{
    going.stands();
    match going.caller(caller).stack.top() {
        Some(frame) => Ok(Choice::Does(plan_frame(going, frame))),
        None => {
            if caller == 0 {
                Ok(Choice::Does(plan_boot(going)))
            } else {
                plan_next(going, caller)
            }
        }
    }
}

/// What a caller that is in the middle of this does next.
#[inline(always)]
fn plan_activity(going: &Going, caller: u8, doing: Activity) -> Result<Choice, Memory>
    requires caller { caller < length going.now.callers }
    requires goes { has_ended going.now caller ≡ false }
    ensures { IfOk result (λ does. next.by_activity going.now caller doing ≡ does) }
{
    match doing {
        Activity::Ended => Ok(Choice::Ended),
        Activity::Transfer(ticket) => Ok(Choice::Does(Deed::Done(ticket))),
        Activity::Frees(_) => Ok(plan_free(going, caller)),
        Activity::Power(kind, target) => Ok(plan_power(going, kind, target)),
        Activity::Scans => plan_stack(going, caller),
        Activity::Idle => plan_stack(going, caller),
    }
}

/// Whether a caller waits for the boot to be over.
#[inline(always)]
fn waits_for_boot(going: &Going, caller: u8) -> bool
    requires there { caller < length going.now.callers }
    ensures { (not (caller == 0) && not (has_ended going.now 0)) ≡ result }
{
    caller != 0 && !going.has_ended(0)
}

/// Whether a caller goes on by its frames: it does not wait for the boot, and is in the middle of nothing but scans.
#[inline(always)]
pub fn goes_by_frames(going: &Going, caller: u8) -> bool
    requires { caller < length going.now.callers }
    ensures { result ≡ true → GoesByFrames going.now caller }
{
    if waits_for_boot(going, caller) {
        return false;
    }
    match going.caller(caller).doing {
        Activity::Scans => true,
        Activity::Idle => true,
        _ => false,
    }
}

/// What a caller that goes on by its frames does next, if a scan is on top; none if `choose` has to decide.
#[inline(always)]
pub fn next_on_scan(going: &Going, caller: u8) -> Option<Deed>
    requires caller { caller < length going.now.callers }
    requires goes { GoesByFrames going.now caller }
    ensures { IfSome result (λ deed. next.next going.now caller ≡ Does deed) }
{
    let frame = going.caller(caller).stack.top()?;
    match frame {
        Frame::Scan {
            serial,
            only,
            filter,
            position,
        } => Some(plan_scan(going, *serial, *only, filter.items(), *position)),
        Frame::Finaliser { serial: _ } => None,
    }
}

/// What a caller that is in the middle of a power command does next; none if `choose` has to decide.
#[inline(always)]
pub fn next_in_power(going: &Going, caller: u8) -> Option<Deed>
    requires { caller < length going.now.callers }
    ensures { IfSome result (λ deed. next.next going.now caller ≡ Does deed) }
{
    if waits_for_boot(going, caller) {
        return None;
    }
    let Activity::Power(kind, target) = going.caller(caller).doing else {
        return None;
    };
    match plan_power(going, kind, target) {
        Choice::Does(deed) => Some(deed),
        _ => None,
    }
}

/// What a caller does next.
#[inline(never)]
pub fn choose(going: &Going, caller: u8) -> Result<Choice, Memory>
    requires { caller < length going.now.callers }
    ensures { IfOk result (λ does. next.next going.now caller ≡ does) }
{
    if going.has_ended(caller) {
        return Ok(Choice::Ended);
    }
    if waits_for_boot(going, caller) {
        return Ok(Choice::Waits(Wait::Boot));
    }
    let doing = going.caller(caller).doing;
    plan_activity(going, caller, doing)
}
