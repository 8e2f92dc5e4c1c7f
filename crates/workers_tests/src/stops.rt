ghost use Rattle.std.specs.Prelude.{◌<◌, ⊤};
ghost use Rattle.dev_board.specs.Booting.{IsBooted};
ghost use Rattle.board_lock.specs.Boards.{scripts_of};
ghost use Rattle.board_lock.specs.Carried.{CarriesFor};
ghost use Rattle.board_lock.specs.Names.{AreNames};
ghost use Rattle.board_lock.specs.Seats.{PartsFit};

use crate::turns::started;
use board_lock::{Done, DoneEnd, Naming, RunParts, Seat, SharedBoard};
use cf_types::{List, Ticket};
use dev_board::Board;
use drv_workers::{SoftMedium, work};
use sample_machine::booted;
use std::alloc::Global;
use std::marker::Brand;
use std::sync::Wait;
use std::test::*;
use std::thread;
use std::thread::Threads;

// How often a caller looks at its slot.
const LOOKS: u64 = 10_000_000;

// Looks at the slot of a transfer until it is condemned, for a bounded number of looks.
fn await_condemned<N: Naming>(shared: &SharedBoard<N>, seat: &mut Seat<N>, ticket: &Ticket) {
    for _ in 0..LOOKS {
        match shared.look(seat, ticket) {
            Some(word) if !word.condemned => thread::yield_now(),
            _ => return,
        }
    }
}

// The caller that stopped the board, if a worker ended because of that.
fn stopper(end: &DoneEnd) -> Option<u8> {
    match end {
        DoneEnd::Stopped(first, _) => Some(*first),
        _ => None,
    }
}

// A worker runs beside a caller, which stops the board once the worker has condemned the device of this transfer, for whose
// references it waits then: by whom the worker was stopped.
fn stopped_by<N: Naming + Send + Sync, R: Threads + Wait + Sync>(
    rt: &R,
    shared: &SharedBoard<N>,
    stops: Seat<N>,
    ticket: Ticket,
    works: Seat<N>,
) -> Option<u8>
    requires { CarriesFor (λ _. ⊤) N.carried }
{
    thread::scope(
        thread::scope_env(),
        rt,
        move |scope| -> Option<u8>
            requires { CarriesFor (λ _. ⊤) N.carried }
        {
            match scope.spawn(
                move || -> Done<N>
                    requires { CarriesFor (λ _. ⊤) N.carried }
                { work(rt, shared, works, &SoftMedium) },
            ) {
                Ok(handle) => {
                    let mut stops = stops;
                    await_condemned(shared, &mut stops, &ticket);
                    shared.stop(rt, &mut stops);
                    stopper(handle.join(rt).end())
                }
                Err(_) => None,
            }
        },
    )
}

// Which caller is in a transfer, and stops the board.
#[derive(Clone, Copy)]
enum Stops {
    First,
    Second,
}

// One caller is in a transfer, and the other takes the device of it away: by whom the worker of the other was stopped.
fn stopped_with<N: Naming + Send + Sync, R: Threads + Wait + Sync>(
    rt: &R,
    shared: &SharedBoard<N>,
    seats: List<Seat<N>>,
    which: Stops,
) -> Option<u8>
    requires { CarriesFor (λ _. ⊤) N.carried }
{
    let mut seats = seats.into_vec();
    let second = seats.pop()?;
    let first = seats.pop()?;
    let (mut stops, works) = match which {
        Stops::First => (first, second),
        Stops::Second => (second, first),
    };
    let ticket = started(rt, shared, &mut stops)?;
    stopped_by(rt, shared, stops, ticket, works)
}

fn stopped_of<N: Naming + Send + Sync, R: Threads + Wait + Sync>(
    rt: &R,
    alloc: Global,
    board: Board,
    parts: RunParts,
    which: Stops,
) -> Option<u8>
    requires names { AreNames N.opening N.closings N.dids N.stops N.table board parts }
    requires fits { PartsFit parts board }
    requires booted { IsBooted board }
    requires some { 0 < scripts_of board.world }
    requires carries { CarriesFor (λ _. ⊤) N.carried }
{
    match SharedBoard::<N>::make(alloc, board, parts) {
        Ok((shared, seats)) => stopped_with(rt, &shared, seats, which),
        Err(_) => None,
    }
}

// By whom the worker of the other caller was stopped; nothing where memory ran out, or where it went another way.
fn stopped<R: Threads + Wait + Sync>(
    rt: &R,
    alloc: Global,
    scripts: &[&[u8]],
    which: Stops,
) -> Option<u8> {
    let board = booted(alloc, scripts)?;
    match RunParts::make(alloc, &board) {
        Ok(parts) => stopped_of::<Brand, R>(rt, alloc, board, parts, which),
        Err(_) => {
            drop(board);
            None
        }
    }
}

#[test]
fn a_stop_ends_a_worker_that_waits(rt: HostRuntime) -> Result<(), Fail> {
    let scripts: [&[u8]; 2] = [b"open com0\nio com0 5\n", b"detach com0\n"];
    assert_eq!(rt; stopped(&rt, rt.alloc(), &scripts, Stops::First), Some(1));
    Ok(())
}

#[test]
fn caller_2_stops_in_its_own_name(rt: HostRuntime) -> Result<(), Fail> {
    let scripts: [&[u8]; 2] = [b"detach com0\n", b"open com0\nio com0 5\n"];
    assert_eq!(rt; stopped(&rt, rt.alloc(), &scripts, Stops::Second), Some(2));
    Ok(())
}
