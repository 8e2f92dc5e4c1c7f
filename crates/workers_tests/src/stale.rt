ghost use Rattle.std.specs.Prelude.{◌≡◌, ◌<◌, ⊤, IfSome, Some};
ghost use Rattle.dev_board.specs.Booting.{IsBooted};
ghost use Rattle.board_lock.specs.Boards.{scripts_of};
ghost use Rattle.board_lock.specs.Carried.{CarriesFor};
ghost use Rattle.board_lock.specs.Names.{AreNames};
ghost use Rattle.board_lock.specs.Seats.{PartsFit};

use crate::turns::{place_of, started};
use board_lock::{LockAnswer, Naming, RunParts, Seat, SharedBoard};
use cf_types::Ticket;
use deed_event::answer_for;
use dev_board::{Board, IoResult};
use sample_machine::booted;
use std::alloc::Global;
use std::marker::Brand;
use std::sync::Wait;
use std::test::*;

// The ticket that the board keeps, told to a result of another one; nothing where the answer is another.
fn kept_by<N: Naming, R: Wait>(
    rt: &R,
    shared: &SharedBoard<N>,
    seat: &mut Seat<N>,
    other: Ticket,
) -> Option<Ticket>
    requires caller { other.caller ≡ seat.old.caller }
    requires looked { seat.old.looked ≡ Some other.slot }
    requires carries { CarriesFor (λ _. ⊤) N.carried }
    ensures { IfSome result (λ _. seat.new ≡ seat.old) }
{
    match shared.post(rt, seat, IoResult::make(other, answer_for(other))) {
        LockAnswer::Stale(kept, _) => kept,
        _ => None,
    }
}

// Caller 1 is in a transfer, and hands in a result of another value, then its own: whether the first was stale, with the ticket
// that was kept, and the second ended the transfer.
fn posted_twice<N: Naming, R: Wait>(
    rt: &R,
    shared: &SharedBoard<N>,
    seat: &mut Seat<N>,
) -> Option<(bool, bool)>
    requires { CarriesFor (λ _. ⊤) N.carried }
{
    let ticket = started(rt, shared, seat)?;
    let _ = shared.look(seat, &ticket)?;
    let other = Ticket { value: 6, ..ticket };
    let kept = kept_by(rt, shared, seat, other)?;
    let done = IoResult::make(ticket, answer_for(ticket));
    let ended = place_of(shared.post(rt, seat, done)).is_some();
    Some((kept == ticket, ended))
}

fn posted_of<N: Naming, R: Wait>(
    rt: &R,
    alloc: Global,
    board: Board,
    parts: RunParts,
) -> Option<(bool, bool)>
    requires names { AreNames N.opening N.closings N.dids N.stops N.table board parts }
    requires fits { PartsFit parts board }
    requires booted { IsBooted board }
    requires some { 0 < scripts_of board.world }
    requires carries { CarriesFor (λ _. ⊤) N.carried }
{
    let Ok((shared, seats)) = SharedBoard::<N>::make(alloc, board, parts) else {
        return None;
    };
    let mut seat = seats.into_vec().pop()?;
    posted_twice(rt, &shared, &mut seat)
}

// The same on a fresh board; nothing where memory ran out, or where the caller went another way.
fn posted<R: Wait>(rt: &R, alloc: Global) -> Option<(bool, bool)> {
    let board = booted(alloc, &[b"open com0\nio com0 5\n"])?;
    match RunParts::make(alloc, &board) {
        Ok(parts) => posted_of::<Brand, R>(rt, alloc, board, parts),
        Err(_) => {
            drop(board);
            None
        }
    }
}

#[test]
fn a_result_of_another_ticket_is_stale(rt: HostRuntime) -> Result<(), Fail> {
    assert_eq!(rt; posted(&rt, rt.alloc()), Some((true, true)));
    Ok(())
}
