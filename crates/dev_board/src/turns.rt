//! Turns of callers over slots that nobody holds. See drvctl(8).
ghost use Rattle.std.specs.Prelude.{◌≡◌, ◌≤◌, ◌∷◌, [], None, OnErr, OnOk, length};
ghost use Rattle.std.specs.List.{AllByRecursion};
ghost use Rattle.run_rules.specs.declared.deed.Choice.TheVariants.{Does};
ghost use Rattle.run_rules.specs.declared.deed.Deed.TheVariants.{Done};
ghost use Rattle.run_rules.specs.Next.{next};
ghost use Rattle.deed_effect.specs.Agreement.{slots_of};
ghost use Rattle.dev_board.specs.Playing.{Plays, PlaysSome};

use crate::board::Board;
use crate::io_result::IoResult;
use crate::posted::Posted;
use crate::stepped::Stepped;
use cf_types::{Memory, Ticket};
use deed_event::answer_for;
use ref_ledger::PlainSlots;

/// A transfer gets its answer at once. At `Memory` all is as before.
fn answer_transfer(board: &mut Board, ticket: Ticket) -> Result<(), Memory>
    requires goes_on { board.old.stopped ≡ None }
    requires chosen { next board.old.world ticket.caller ≡ Does (Done ticket) }
    ensures played { OnOk result (Plays board.old (ticket.caller ∷ []) board.new) }
    ensures err { OnErr result (board.new ≡ board.old) }
    ensures slots { slots_of board.new.world ≡ slots_of board.old.world }
{
    let done = IoResult::make(ticket, answer_for(ticket));
    match board.post(done) {
        Posted::Did(_, _) => Ok(()),
        Posted::Stale(_, _) => unreachable!(),
        Posted::Stopped(_, _) => unreachable!(),
        Posted::Memory => Err(Memory),
    }
}

/// One turn of a caller: its next event, or nothing if it waits or has ended. At `Memory` all is as before.
#[inline(always)]
fn turn(board: &mut Board, slots: &mut PlainSlots, caller: u8) -> Result<(), Memory>
    requires caller { caller ≤ length board.old.world.setup.scripts }
    requires agree { slots.old ≡ slots_of board.old.world }
    requires goes_on { board.old.stopped ≡ None }
    ensures played { OnOk result (Plays board.old (caller ∷ []) board.new) }
    ensures err { OnErr result (board.new ≡ board.old) }
    ensures agree { slots.new ≡ slots_of board.new.world }
{
    match board.step(caller, slots) {
        Stepped::Did(_, _) => Ok(()),
        Stepped::Waits(_) => Ok(()),
        Stepped::Transfer(ticket, _) => answer_transfer(board, ticket),
        Stepped::Stopped(_, _) => unreachable!(),
        Stepped::Closed => Ok(()),
        Stepped::Memory => Err(Memory),
    }
}

/// Takes the turns of an order, one after the other.
fn take_turns(board: &mut Board, slots: &mut PlainSlots, order: &[u8]) -> Result<(), Memory>
    requires agree { slots.old ≡ slots_of board.old.world }
    requires goes_on { board.old.stopped ≡ None }
    requires callers { AllByRecursion (λ k. k ≤ length board.old.world.setup.scripts) order.now }
    ensures played { OnOk result (Plays board.old order.now board.new) }
    ensures some { OnErr result (PlaysSome board.old order.now board.new) }
    ensures agree { slots.new ≡ slots_of board.new.world }
{
    for caller in order {
        turn(board, slots, *caller)?;
    }
    Ok(())
}

/// Takes the turns of an order, one after the other; a caller that waits or has ended is skipped. If memory runs out,
/// the turns up to then stay. Room for an event of each turn is taken at once, if there is that much.
pub fn run_turns(board: &mut Board, slots: &mut PlainSlots, order: &[u8]) -> Result<(), Memory>
    requires agree { slots.old ≡ slots_of board.old.world }
    requires goes_on { board.old.stopped ≡ None }
    requires callers { AllByRecursion (λ k. k ≤ length board.old.world.setup.scripts) order.now }
    ensures played { OnOk result (Plays board.old order.now board.new) }
    ensures some { OnErr result (PlaysSome board.old order.now board.new) }
    ensures agree { slots.new ≡ slots_of board.new.world }
{
    board.make_room(order.len());
    take_turns(board, slots, order)
}
