//! Posting the result of a transfer, over the parts of a board.
ghost use Rattle.std.specs.Prelude.{◌≡◌, IfOk, None, OnErr, OnOk, Some, length};
ghost use Rattle.run_rules.specs.declared.deed.Choice.TheVariants.{Does};
ghost use Rattle.run_rules.specs.declared.deed.Deed.TheVariants.{Done};
ghost use Rattle.run_rules.specs.Next.{next};
ghost use Rattle.run_rules.specs.Run.{event_of};
ghost use Rattle.run_rules.specs.World.{opening};
ghost use Rattle.deed_effect.specs.Agreement.{slots_of};
ghost use Rattle.dev_board.specs.Performing.{Performed};
ghost use Rattle.dev_board.specs.Stepping as stepping;
ghost use Rattle.dev_board.specs.Posting.{PostIs};
ghost use Rattle.dev_board.specs.StateKept.{shown_of, StateKept};
ghost use Rattle.dev_board.specs.Witness.{told_did};
ghost use Rattle.dev_board.specs.declared.answer.LeaseStep.TheVariants.{Keep};

use crate::answer::LeaseStep;
use crate::board_state::BoardState;
use crate::history::append_event;
use crate::posted::Posted;
use crate::told::Told;
use cf_types::{Memory, Ticket};
use deed_effect::finish_transfer;
use deed_event::deed_event;
use run_rules::{Activity, Deed};
use run_world::Going;

/// The transfer that a caller is in the middle of.
fn ticket_in(doing: Activity) -> Option<Ticket>
    ensures { result ≡ stepping.ticket_in doing }
{
    match doing {
        Activity::Transfer(ticket) => Some(ticket),
        _ => None,
    }
}

/// The transfer that the board keeps for a caller.
fn kept_ticket(going: &Going, caller: u8) -> Option<Ticket>
    ensures { stepping.kept_ticket going.now caller ≡ result }
{
    let held = &going.held;
    match held.core.callers.get(caller as usize) {
        Some(state) => ticket_in(state.doing),
        None => None,
    }
}

/// A transfer ends, and its event is appended. At `Memory` all is as before.
fn end_transfer(state: &mut BoardState, ticket: Ticket) -> Result<Told, Memory>
    requires { next state.old.going ticket.caller ≡ Does (Done ticket) }
    ensures ok { OnOk result (Performed state.old state.new ticket.caller (Done ticket)) }
    ensures told { IfOk result (λ told. told
        ≡ told_did (opening state.old.going.setup) ticket.caller (length state.old.events.items)
        (event_of state.old.going ticket.caller (Done ticket)) Keep) }
    ensures err { OnErr result (shown_of state.new ≡ shown_of state.old) }
{
    state.events.reserve(1)?;
    let event = deed_event(&mut state.going, ticket.caller, &Deed::Done(ticket))?;
    finish_transfer(&mut state.going, ticket);
    Ok(append_event(
        state.going.setup(),
        &mut state.events,
        ticket.caller,
        event,
        LeaseStep::Keep,
    ))
}

/// Posts the result of the transfer that the board keeps.
fn post_kept(state: &mut BoardState, ticket: Ticket) -> Posted
    requires kept { StateKept state.old }
    requires goes_on { state.old.stopped ≡ None }
    requires held { stepping.kept_ticket state.old.going ticket.caller ≡ Some ticket }
    ensures post { PostIs (shown_of state.old) ticket result (shown_of state.new) }
    ensures kept { StateKept state.new }
    ensures slots { slots_of state.new.going ≡ slots_of state.old.going }
{
    state.going.stands();
    let place = state.events.len() as u64;
    match end_transfer(state, ticket) {
        Ok(told) => Posted::Did(place, told),
        Err(_) => Posted::Memory,
    }
}

/// Posts the result of a transfer, on a board that was not stopped.
fn post_result(state: &mut BoardState, ticket: Ticket) -> Posted
    requires kept { StateKept state.old }
    requires goes_on { state.old.stopped ≡ None }
    ensures post { PostIs (shown_of state.old) ticket result (shown_of state.new) }
    ensures kept { StateKept state.new }
    ensures slots { slots_of state.new.going ≡ slots_of state.old.going }
{
    let held = kept_ticket(&state.going, ticket.caller);
    if held == Some(ticket) {
        post_kept(state, ticket)
    } else {
        Posted::Stale(
            held,
            Told::of_stale(state.going.setup(), ticket.caller, held),
        )
    }
}

/// Posts the result of a transfer: the transfer ends by it, or nothing changes.
pub fn post_state(state: &mut BoardState, ticket: Ticket) -> Posted
    requires kept { StateKept state.old }
    ensures post { PostIs (shown_of state.old) ticket result (shown_of state.new) }
    ensures kept { StateKept state.new }
    ensures slots { slots_of state.new.going ≡ slots_of state.old.going }
{
    match state.stopped {
        Some(first) => Posted::Stopped(
            first,
            Told::of_stop(state.going.setup(), ticket.caller, first),
        ),
        None => post_result(state, ticket),
    }
}
