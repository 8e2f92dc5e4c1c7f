ghost use Rattle.std.specs.Prelude.{◌≡◌, ◌<◌, ⊤, IfOk, IfSome, Some, length};
ghost use Rattle.dev_board.specs.Booting.{IsBooted};
ghost use Rattle.board_lock.specs.Boards.{scripts_of};
ghost use Rattle.board_lock.specs.Carried.{CarriesFor};
ghost use Rattle.board_lock.specs.Names.{AreNames};
ghost use Rattle.board_lock.specs.Seats.{PartsFit};

use crate::turns::{place_of, started};
use board_lock::{Done, DoneEnd, Finished, Naming, RunParts, Seat, SharedBoard};
use cf_types::{List, Memory, Ticket};
use deed_event::answer_for;
use dev_board::{Board, IoResult};
use lease_table::SlotWord;
use run_rules::Act;
use sample_machine::booted;
use std::alloc::Global;
use std::marker::Brand;
use std::sync::Wait;
use std::test::*;

// What caller 1 saw of the slot of its transfer, before and after its device was condemned, and whether its lease was gone in
// the end.
#[derive(Debug, Drop, PartialEq)]
struct Looks {
    slot: u16,
    value: u32,
    before: SlotWord,
    after: SlotWord,
    gone: bool,
}

// The transfer's end, and the close after it.
fn ended<N: Naming, R: Wait>(
    rt: &R,
    shared: &SharedBoard<N>,
    seat: &mut Seat<N>,
    ticket: Ticket,
) -> Option<u64>
    requires caller { ticket.caller ≡ seat.old.caller }
    requires looked { seat.old.looked ≡ Some ticket.slot }
    requires carries { CarriesFor (λ _. ⊤) N.carried }
{
    let done = IoResult::make(ticket, answer_for(ticket));
    let _ = place_of(shared.post(rt, seat, done))?;
    place_of(shared.step(rt, seat))
}

// Caller 1 holds com0 while caller 2 condemns it: the place at which it was freed at last, and what caller 1 saw.
fn look_around<N: Naming, R: Wait>(
    rt: &R,
    shared: &SharedBoard<N>,
    first: &mut Seat<N>,
    second: &mut Seat<N>,
) -> Option<(u64, Looks)>
    requires { CarriesFor (λ _. ⊤) N.carried }
{
    let ticket = started(rt, shared, first)?;
    let before = shared.look(first, &ticket)?;
    let _ = place_of(shared.step(rt, second))?;
    let after = shared.look(first, &ticket)?;
    let _ = ended(rt, shared, first, ticket)?;
    let place = place_of(shared.step(rt, second))?;
    let gone = shared.look(first, &ticket).is_none();
    Some((
        place,
        Looks {
            slot: ticket.slot,
            value: ticket.value,
            before,
            after,
            gone,
        },
    ))
}

// Whether a device was freed by the event at a place.
fn is_free(board: &Board, place: u64) -> bool {
    place < board.events() && matches!(board.event(place).act.get(), Act::Free { device: _ })
}

// Whether a device was freed by the event at a place, in a run that is over.
fn has_freed(left: Finished, place: u64) -> bool {
    let freed = is_free(left.board(), place);
    drop(left);
    freed
}

// What a caller that stops the board leaves.
fn stopped_done<N: Naming, R: Wait>(rt: &R, shared: &SharedBoard<N>, seat: Seat<N>) -> Done<N> {
    let mut seat = seat;
    shared.stop(rt, &mut seat);
    seat.into_done(DoneEnd::Memory)
}

// What two callers leave.
fn both_done<N: Naming>(
    alloc: Global,
    first: Done<N>,
    second: Done<N>,
) -> Result<List<Done<N>>, Memory>
    ensures { IfOk result (λ done. length done ≡ 2) }
{
    let mut done = List::make(alloc);
    done.push(first)?;
    done.push(second)?;
    Ok(done)
}

// What two seats that looked around leave: the place and what caller 1 saw, and what is left of both; nothing if there
// are more or fewer seats, or if they went another way.
fn looked_with<N: Naming, R: Wait>(
    rt: &R,
    alloc: Global,
    shared: &SharedBoard<N>,
    seats: List<Seat<N>>,
) -> Option<(u64, Looks, List<Done<N>>)>
    requires { CarriesFor (λ _. ⊤) N.carried }
    ensures each { IfSome result (λ r. length r.2 ≡ length seats) }
    ensures some { IfSome result (λ r. 0 < length r.2) }
{
    if seats.len() != 2 {
        return None;
    }
    let mut seats = seats.into_vec();
    let mut second = seats.pop()?;
    let mut first = seats.pop()?;
    let (place, seen) = look_around(rt, shared, &mut first, &mut second)?;
    let first = stopped_done(rt, shared, first);
    let second = stopped_done(rt, shared, second);
    match both_done(alloc, first, second) {
        Ok(done) => Some((place, seen, done)),
        Err(_) => None,
    }
}

// What caller 1 saw, and whether the device was freed, on a board that both callers have left.
fn looks_left<N: Naming, R: Wait>(
    rt: &R,
    alloc: Global,
    shared: SharedBoard<N>,
    seats: List<Seat<N>>,
) -> Option<(Looks, bool)>
    requires each { length seats ≡ scripts_of N.opening }
    requires carries { CarriesFor (λ _. ⊤) N.carried }
{
    match looked_with(rt, alloc, &shared, seats) {
        Some((place, seen, done)) => Some((seen, has_freed(shared.finish(done), place))),
        None => None,
    }
}

fn looks_of<N: Naming, R: Wait>(
    rt: &R,
    alloc: Global,
    board: Board,
    parts: RunParts,
) -> Option<(Looks, bool)>
    requires names { AreNames N.opening N.closings N.dids N.stops N.table board parts }
    requires fits { PartsFit parts board }
    requires booted { IsBooted board }
    requires some { 0 < scripts_of board.world }
    requires carries { CarriesFor (λ _. ⊤) N.carried }
{
    match SharedBoard::<N>::make(alloc, board, parts) {
        Ok((shared, seats)) => looks_left(rt, alloc, shared, seats),
        Err(_) => None,
    }
}

// What caller 1 saw, and whether the device was freed; nothing if memory ran out, or if a caller went another way.
fn looked<R: Wait>(rt: &R, alloc: Global) -> Option<(Looks, bool)> {
    let board = booted(
        alloc,
        &[b"open com0\nio com0 5\nclose com0\n", b"detach com0\n"],
    )?;
    match RunParts::make(alloc, &board) {
        Ok(parts) => looks_of::<Brand, R>(rt, alloc, board, parts),
        Err(_) => {
            drop(board);
            None
        }
    }
}

#[test]
fn a_look_sees_that_its_slot_was_condemned(rt: HostRuntime) -> Result<(), Fail> {
    let held = SlotWord {
        generation: 0,
        live: true,
        condemned: false,
        holders: 1,
    };
    let seen = Looks {
        slot: 2,
        value: 5,
        before: held,
        after: SlotWord {
            condemned: true,
            ..held
        },
        gone: true,
    };
    assert_eq!(rt; looked(&rt, rt.alloc()), Some((seen, true)));
    Ok(())
}
