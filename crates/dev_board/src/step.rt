//! One step over the parts of a board.
ghost use Rattle.std.specs.Prelude.{◌≡◌, ◌≢◌, ◌≤◌, false, length, IfErr, IfOk, OnOk, OnErr};
ghost use Rattle.cf_types.specs.declared.machine.Ticket.{Ticket};
ghost use Rattle.run_rules.specs.declared.deed.Deed.TheVariants.{Done};
ghost use Rattle.run_rules.specs.declared.deed.Choice.TheVariants.{Does};
ghost use Rattle.run_rules.specs.Next.{next};
ghost use Rattle.run_rules.specs.World.{has_ended};
ghost use Rattle.next_deed.specs.Choices.{GoesByFrames};
ghost use Rattle.deed_effect.specs.Agreement.{slots_of};
ghost use Rattle.dev_board.specs.Performing.{Performed, TellsDeed};
ghost use Rattle.deed_effect.specs.SlotDeeds.{HaltIs};
ghost use Rattle.dev_board.specs.Stepping.{StepIs, IsDid, IsOfBoot, DenialsAre};
ghost use Rattle.dev_board.specs.Steps.{HasStepped, MayStep};
ghost use Rattle.dev_board.specs.StateKept.{StateKept, BootFalls, shown_of};

use crate::board_state::BoardState;
use crate::history::append_event;
use crate::lease::lease_of;
use crate::stepped::Stepped;
use crate::told::Told;
use deed_effect::{Halt, make_room, run_deed};
use deed_event::deed_event;
use next_deed::{choose, goes_by_frames, next_in_power, next_on_scan};
use ref_ledger::Slots;
use run_rules::{Choice, Deed};
use std::mem::drop;

/// Does what a caller chose, and appends its event; or nothing changes except the denials.
#[inline(always)]
fn perform<S: Slots>(
    state: &mut BoardState,
    caller: u8,
    deed: &Deed,
    slots: &mut S,
) -> Result<Told, Halt>
    requires kept { StateKept state.old }
    requires agree { S.states slots.old ≡ slots_of state.old.going }
    requires chosen { next state.old.going caller ≡ Does deed.now }
    ensures ok { OnOk result (Performed state.old state.new caller deed.now) }
    ensures told { IfOk result (TellsDeed state.old caller deed.now) }
    ensures quiet { OnOk result ((S.denials slots.new ≡ S.denials slots.old) × (S.last_denial slots.new ≡ S.last_denial slots.old)) }
    ensures err { OnErr result (shown_of state.new ≡ shown_of state.old) }
    ensures halt { IfErr result (λ why. HaltIs state.old.going.live deed.now
        (S.denials slots.old) (S.last_denial slots.old) why (S.denials slots.new) (S.last_denial slots.new)) }
    ensures agree { S.states slots.new ≡ slots_of state.new.going }
{
    if make_room(&mut state.events).is_err() {
        return Err(Halt::Memory);
    }
    let event = match deed_event(&mut state.going, caller, deed) {
        Ok(event) => event,
        Err(_) => return Err(Halt::Memory),
    };
    let lease = lease_of(&state.going, caller, deed);
    match run_deed(&mut state.going, caller, deed, slots) {
        Ok(()) => Ok(append_event(state.going.setup(), &mut state.events, caller, event, lease)),
        Err(why) => {
            drop(event);
            Err(why)
        }
    }
}

/// Does what a caller chose, which ends no transfer; else memory ran out, or the caller waits for those who hold the slot of
/// the device that it frees.
#[inline(always)]
fn step_by<S: Slots>(state: &mut BoardState, caller: u8, deed: &Deed, slots: &mut S) -> Stepped
    requires may { MayStep state.old caller (S.states slots.old) }
    requires chosen { next state.old.going caller ≡ Does deed.now }
    requires other { (ticket : Ticket) → deed.now ≢ Done ticket }
    ensures stepped { HasStepped state.old state.new caller result (S.states slots.new) }
    ensures denials { DenialsAre state.old.going.live
        (S.denials slots.old) (S.last_denial slots.old) result (S.denials slots.new) (S.last_denial slots.new) }
{
    state.going.stands();
    let place = state.events.len() as u64;
    match perform(state, caller, deed, slots) {
        Ok(told) => Stepped::Did(place, told),
        Err(Halt::Memory) => Stepped::Memory,
        Err(Halt::Waits(why)) => Stepped::Waits(why),
    }
}

/// Does what a caller chose, except the end of a transfer, whose result the caller waits for.
#[inline(never)]
fn step_deed<S: Slots>(state: &mut BoardState, caller: u8, deed: &Deed, slots: &mut S) -> Stepped
    requires may { MayStep state.old caller (S.states slots.old) }
    requires chosen { next state.old.going caller ≡ Does deed.now }
    ensures stepped { HasStepped state.old state.new caller result (S.states slots.new) }
    ensures denials { DenialsAre state.old.going.live
        (S.denials slots.old) (S.last_denial slots.old) result (S.denials slots.new) (S.last_denial slots.new) }
{
    state.going.stands();
    match *deed {
        Deed::Done(ticket) => Stepped::Transfer(
            ticket,
            Told::of_transfer(state.going.setup(), caller, ticket),
        ),
        _ => step_by(state, caller, deed, slots),
    }
}

/// The next event of a caller that has not ended, chosen among all that it may do.
#[inline(never)]
fn chosen_step<S: Slots>(state: &mut BoardState, caller: u8, slots: &mut S) -> Stepped
    requires may { MayStep state.old caller (S.states slots.old) }
    requires lasts { has_ended state.old.going caller ≡ false }
    ensures stepped { HasStepped state.old state.new caller result (S.states slots.new) }
    ensures denials { DenialsAre state.old.going.live
        (S.denials slots.old) (S.last_denial slots.old) result (S.denials slots.new) (S.last_denial slots.new) }
{
    state.going.stands();
    match choose(&state.going, caller) {
        Err(_) => Stepped::Memory,
        Ok(Choice::Ended) => Stepped::Closed,
        Ok(Choice::Waits(why)) => Stepped::Waits(why),
        Ok(Choice::Does(deed)) => step_deed(state, caller, &deed, slots),
    }
}

/// The next event of a caller that goes on by its frames. A search, which most events are, branches off early: its deed
/// is made here, so that nothing checks its kind again.
#[inline(never)]
fn framed_step<S: Slots>(state: &mut BoardState, caller: u8, slots: &mut S) -> Stepped
    requires may { MayStep state.old caller (S.states slots.old) }
    requires lasts { has_ended state.old.going caller ≡ false }
    requires goes { GoesByFrames state.old.going caller }
    ensures stepped { HasStepped state.old state.new caller result (S.states slots.new) }
    ensures denials { DenialsAre state.old.going.live
        (S.denials slots.old) (S.last_denial slots.old) result (S.denials slots.new) (S.last_denial slots.new) }
{
    match next_on_scan(&state.going, caller) {
        Some(
            Deed::Search {
                parent,
                spot,
                moved,
                got,
            },
        ) => {
            let search = Deed::Search {
                parent,
                spot,
                moved,
                got,
            };
            step_by(state, caller, &search, slots)
        }
        _ => {
            // Bound to a local, so that the other arm is not built in the return slot.
            let stepped = chosen_step(state, caller, slots);
            stepped
        }
    }
}

/// The next event of a caller that goes on by no frame. Sleep and wake, the events of power commands, branch off early,
/// as a search does.
#[inline(never)]
fn powered_step<S: Slots>(state: &mut BoardState, caller: u8, slots: &mut S) -> Stepped
    requires may { MayStep state.old caller (S.states slots.old) }
    requires lasts { has_ended state.old.going caller ≡ false }
    ensures stepped { HasStepped state.old state.new caller result (S.states slots.new) }
    ensures denials { DenialsAre state.old.going.live
        (S.denials slots.old) (S.last_denial slots.old) result (S.denials slots.new) (S.last_denial slots.new) }
{
    match next_in_power(&state.going, caller) {
        Some(Deed::Sleep { of }) => { step_by(state, caller, &Deed::Sleep { of }, slots) }
        Some(Deed::Wake { of }) => { step_by(state, caller, &Deed::Wake { of }, slots) }
        _ => {
            // Bound to a local, as in `framed_step`.
            let stepped = chosen_step(state, caller, slots);
            stepped
        }
    }
}

/// The next event of a caller, on a board that was not stopped.
#[inline(always)]
fn next_step<S: Slots>(state: &mut BoardState, caller: u8, slots: &mut S) -> Stepped
    requires may { MayStep state.old caller (S.states slots.old) }
    ensures stepped { HasStepped state.old state.new caller result (S.states slots.new) }
    ensures denials { DenialsAre state.old.going.live
        (S.denials slots.old) (S.last_denial slots.old) result (S.denials slots.new) (S.last_denial slots.new) }
{
    if state.going.has_ended(caller) {
        return Stepped::Closed;
    }
    if goes_by_frames(&state.going, caller) {
        framed_step(state, caller, slots)
    } else {
        powered_step(state, caller, slots)
    }
}

/// One step of a caller: the one that boots, or that of a script.
#[inline(always)]
pub fn step_state<S: Slots>(state: &mut BoardState, caller: u8, slots: &mut S) -> Stepped
    requires kept { StateKept state.old }
    requires caller { caller ≤ length state.old.going.setup.scripts }
    requires agree { S.states slots.old ≡ slots_of state.old.going }
    ensures step { StepIs (shown_of state.old) caller result (shown_of state.new) }
    ensures boot { caller ≡ 0 → IsOfBoot result }
    ensures kept { StateKept state.new }
    ensures agree { S.states slots.new ≡ slots_of state.new.going }
    ensures denials { DenialsAre state.old.going.live
        (S.denials slots.old) (S.last_denial slots.old) result (S.denials slots.new) (S.last_denial slots.new) }
    ensures falls { IsDid result → caller ≡ 0 → BootFalls state.old state.new }
{
    state.going.stands();
    match state.stopped {
        Some(first) => Stepped::Stopped(first, Told::of_stop(state.going.setup(), caller, first)),
        None => next_step(state, caller, slots),
    }
}
