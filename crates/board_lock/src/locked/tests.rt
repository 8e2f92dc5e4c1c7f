ghost use Rattle.std.specs.Prelude.{◌≡◌, ◌<◌};
ghost use Rattle.dev_board.specs.Booting.{IsBooted};
ghost use Rattle.board_lock.specs.Boards.{scripts_of};
ghost use Rattle.board_lock.specs.Names.{AreNames};
ghost use Rattle.board_lock.specs.Seats.{PartsFit};

use crate::locked::{Locked, settle};
use crate::{LockAnswer, Naming, RunParts, Seat, SharedBoard};
use cf_types::Memory;
use dev_board::{Board, LeaseStep};
use lease_table::LeaseTable;
use run_rules::Act;
use sample_machine::booted;
use std::alloc::Global;
use std::marker::Brand;
use std::sync::Wait;
use std::test::*;
use std::thread;
use std::thread::Threads;

// The spot of com0.
const COM0: u16 = 2;

// Takes a lease for which its caller has no reference, as no program can.
fn lend<N: Naming>(locked: &Locked<N>, table: &LeaseTable, seat: &mut Seat<N>, slot: u16)
    requires { table.now ≡ N.table }
{
    if slot < locked.board.spots() {
        settle(table, seat, LeaseStep::Take(slot));
    }
}

impl<N: Naming> Locked<N> {
    // Whether a device was freed by the event at a place.
    fn has_freed(&self, place: u64) -> bool {
        place < self.board.events()
            && matches!(self.board.event(place).act.get(), Act::Free { device: _ })
    }
}

// The place of the event, where there was one.
fn place_of(turn: LockAnswer) -> Option<u64> {
    match turn {
        LockAnswer::Did(place, _) => Some(place),
        _ => None,
    }
}

// Caller 1 takes a lease on com0's slot, to which nobody has a reference, and caller 2 condemns com0: whether its burial is denied.
fn is_denied<N: Naming, R: Wait>(
    rt: &R,
    shared: &SharedBoard<N>,
    first: &mut Seat<N>,
    second: &mut Seat<N>,
) -> bool {
    lend(&shared.lock.lock(rt), &shared.table, first, COM0);
    let _ = place_of(shared.step(rt, second));
    shared.lock.lock(rt).turn(&shared.table, second).is_none()
}

// A thread waits for the slot. An event of caller 1 wakes it for nothing; then the lease goes back, and the next event lets
// the thread free com0: whether it did.
fn freed<N: Naming + Send + Sync, R: Threads + Wait + Sync>(
    rt: &R,
    shared: &SharedBoard<N>,
    first: Seat<N>,
    second: Seat<N>,
) -> bool {
    let place = thread::scope(thread::scope_env(), rt, move |scope| {
        let mut second = second;
        match scope.spawn(move || place_of(shared.step(rt, &mut second))) {
            Ok(handle) => {
                let mut first = first;
                let _ = place_of(shared.step(rt, &mut first));
                first.leases.give(&shared.table, COM0);
                let _ = place_of(shared.step(rt, &mut first));
                handle.join(rt)
            }
            Err(_) => None,
        }
    });
    match place {
        Some(place) => shared.lock.lock(rt).has_freed(place),
        None => false,
    }
}

fn denied_of<N: Naming + Send + Sync, R: Threads + Wait + Sync>(
    rt: &R,
    alloc: Global,
    board: Board,
    parts: RunParts,
) -> Result<Option<(bool, bool)>, Memory>
    requires names { AreNames N.opening N.closings N.dids N.stops N.table board parts }
    requires fits { PartsFit parts board }
    requires booted { IsBooted board }
    requires some { 0 < scripts_of board.world }
{
    let (shared, seats) = SharedBoard::<N>::make(alloc, board, parts)?;
    let mut seats = seats.into_vec();
    let Some(mut second) = seats.pop() else {
        return Ok(None);
    };
    let Some(mut first) = seats.pop() else {
        return Ok(None);
    };
    let denied = is_denied(rt, &shared, &mut first, &mut second);
    Ok(Some((denied, freed(rt, &shared, first, second))))
}

fn denials<R: Threads + Wait + Sync>(
    rt: &R,
    alloc: Global,
) -> Result<Option<(bool, bool)>, Memory> {
    let Some(board) = booted(alloc, &[b"close com1\nclose com1\n", b"detach com0\n"]) else {
        return Ok(None);
    };
    let parts = RunParts::make(alloc, &board)?;
    denied_of::<Brand, R>(rt, alloc, board, parts)
}

#[test]
fn a_burial_is_denied_while_a_thread_waits(rt: HostRuntime) -> Result<(), Fail> {
    assert_eq!(rt; denials(&rt, rt.alloc()), Ok(Some((true, true))));
    Ok(())
}
