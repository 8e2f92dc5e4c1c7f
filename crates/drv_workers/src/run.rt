//! A whole run.
ghost use Rattle.std.specs.Prelude.{◌≡◌, ◌<◌, ◌≤◌, ◌+◌, IfOk, length, vec_len, vec_capacity};
ghost use Rattle.run_rules.specs.Counts.{ends_of};
ghost use Rattle.run_rules.specs.Run.{Run};
ghost use Rattle.run_sound.specs.Kept.{MayRun};
ghost use Rattle.dev_board.specs.Booting.{IsBooted};
ghost use Rattle.dev_board.specs.Shown.{began};
ghost use Rattle.board_lock.specs.Boards.{scripts_of};
ghost use Rattle.board_lock.specs.Carried.{CarriedRun, CarriesFor};
ghost use Rattle.board_lock.specs.Names.{AreNames};
ghost use Rattle.board_lock.specs.Seats.{PartsFit};
ghost use Rattle.drv_workers.specs.Whole.{IsOver};

use crate::medium::Medium;
use crate::worker::work;
use board_lock::{Done, Finished, Naming, RunParts, Seat, SharedBoard};
use cf_types::{List, Memory};
use dev_board::{Board, Outlook};
use std::alloc::Global;
use std::marker::Brand;
use std::sync::Wait;
use std::thread;
use std::thread::{Scope, Threads};

// Appends a value to a list that has room.
fn append<T: Drop>(list: &mut Vec<T>, value: T)
    requires { vec_len list.old < vec_capacity list.old }
    ensures len { vec_len list.new ≡ vec_len list.old + 1 }
    ensures capacity { vec_capacity list.new ≡ vec_capacity list.old }
{
    list.push_reserved(value);
}

// The values of a list.
fn values_of<T>(list: List<T>) -> Vec<T>
    ensures { vec_len result ≡ length list }
{
    list.into_vec()
}

// The list of these values.
fn list_of<T>(values: Vec<T>) -> List<T>
    ensures { length result ≡ vec_len values }
{
    List::from_vec(values)
}

// Runs each seat in a thread of its own; a seat whose thread does not start is run here, after the others were started.
fn run_seats<'s, E, M: Medium + Sync, N: Naming + Send + Sync, R: Threads + Wait + Sync>(
    scope: &'s Scope<'s, E>,
    rt: &'s R,
    shared: &'s SharedBoard<N>,
    medium: &'s M,
    seats: &mut Vec<Seat<N>>,
    done: &mut Vec<Done<N>>,
)
    requires carries { CarriesFor M.carried N.carried }
    requires room { vec_len done.old + vec_len seats.old ≤ vec_capacity done.old }
    ensures len { vec_len done.new ≡ vec_len done.old + vec_len seats.old }
    ensures capacity { vec_capacity done.new ≡ vec_capacity done.old }
{
    let Some(seat) = seats.pop() else {
        return;
    };
    match scope.spawn(
        move || -> Done<N>
            requires { CarriesFor M.carried N.carried }
        { work(rt, shared, seat, medium) },
    ) {
        Ok(handle) => {
            run_seats(scope, rt, shared, medium, seats, done);
            append(done, handle.join(rt));
        }
        Err(refused) => {
            run_seats(scope, rt, shared, medium, seats, done);
            append(done, (refused.value)());
        }
    }
}

// Runs all seats, and returns what their callers leave.
fn run_scope<N: Naming + Send + Sync, M: Medium + Sync, R: Threads + Wait + Sync>(
    rt: &R,
    shared: &SharedBoard<N>,
    medium: &M,
    seats: Vec<Seat<N>>,
    done: Vec<Done<N>>,
) -> Vec<Done<N>>
    requires carries { CarriesFor M.carried N.carried }
    requires room { (vec_len done ≡ 0) × (vec_len seats ≤ vec_capacity done) }
    ensures { vec_len result ≡ vec_len seats }
{
    thread::scope(
        thread::scope_env(),
        rt,
        move |scope| -> Vec<Done<N>>
            requires carries { CarriesFor M.carried N.carried }
            requires room { (vec_len done ≡ 0) × (vec_len seats ≤ vec_capacity done) }
            ensures { vec_len result ≡ vec_len seats }
        {
            let mut seats = seats;
            let mut done = done;
            run_seats(scope, rt, shared, medium, &mut seats, &mut done);
            done
        },
    )
}

// Runs all seats. Room for what their callers leave is taken before a thread starts.
fn run_all<N: Naming + Send + Sync, M: Medium + Sync, R: Threads + Wait + Sync>(
    rt: &R,
    alloc: Global,
    shared: &SharedBoard<N>,
    medium: &M,
    seats: List<Seat<N>>,
) -> Result<List<Done<N>>, Memory>
    requires { CarriesFor M.carried N.carried }
    ensures { IfOk result (λ done. length done ≡ length seats) }
{
    let seats = values_of(seats);
    let done = Vec::with_capacity(alloc, seats.len())?;
    let done = run_scope(rt, shared, medium, seats, done);
    Ok(list_of(done))
}

// What is left, if every script has ended, or if nobody goes on; else memory ran out.
fn over_only(left: Finished, scripts: u64) -> Result<Finished, Memory>
    requires scripts { (scripts ≡ scripts_of left.board.world) × (0 < scripts) }
    requires may { MayRun left.board.world.setup }
    requires run { Run (began left.board) left.board.events left.board.world }
    requires ends { left.ended ≡ ends_of left.board.events }
    ensures same { IfOk result (λ r. r ≡ left) }
    ensures over { IfOk result (λ r. IsOver r.ended r.board) }
{
    let ended = left.ended();
    if ended == scripts {
        return Ok(left);
    }
    match left.board().standing() {
        Ok(Outlook::Stuck) => Ok(left),
        _ => Err(Memory),
    }
}

// A run whose names were chosen.
fn run_named<N: Naming + Send + Sync, M: Medium + Sync, R: Threads + Wait + Sync>(
    rt: &R,
    alloc: Global,
    board: Board,
    parts: RunParts,
    medium: &M,
) -> Result<Finished, Memory>
    requires names { AreNames N.opening N.closings N.dids N.stops N.table board parts }
    requires fits { PartsFit parts board }
    requires booted { IsBooted board }
    requires some { 0 < scripts_of board.world }
    requires carries { CarriesFor M.carried N.carried }
    ensures opening { IfOk result (λ r. began r.board ≡ began board) }
    ensures run { IfOk result (λ r. Run (began board) r.board.events r.board.world) }
    ensures carried { IfOk result (λ r. CarriedRun N.carried (began board) r.board.events r.board.world) }
    ensures ended { IfOk result (λ r. r.ended ≡ ends_of r.board.events) }
    ensures over { IfOk result (λ r. IsOver r.ended r.board) }
{
    let (shared, seats) = SharedBoard::<N>::make(alloc, board, parts)?;
    let scripts = seats.len() as u64;
    let done = run_all(rt, alloc, &shared, medium, seats)?;
    over_only(shared.finish(done), scripts)
}

/// Runs the scripts of a board that has done its boot, each in a thread of its own, until every one has ended, or until nobody
/// goes on. A script whose thread can't be started is run by the caller's thread. A worker ends before its script does only if
/// memory ran out or nobody went on, for it or for the one that stopped the board; if the board does not stand still then, the
/// answer is `Memory`. The history that is left is one run from where the board began, and each transfer that ended in it was
/// carried out by the medium.
pub fn run_scripts<M: Medium + Sync, R: Threads + Wait + Sync>(
    rt: &R,
    alloc: Global,
    board: Board,
    medium: &M,
) -> Result<Finished, Memory>
    requires booted { IsBooted board }
    requires some { 0 < scripts_of board.world }
    ensures opening { IfOk result (λ r. began r.board ≡ began board) }
    ensures run { IfOk result (λ r. Run (began board) r.board.events r.board.world) }
    ensures carried { IfOk result (λ r. CarriedRun M.carried (began board) r.board.events r.board.world) }
    ensures ended { IfOk result (λ r. r.ended ≡ ends_of r.board.events) }
    ensures over { IfOk result (λ r. IsOver r.ended r.board) }
{
    match RunParts::make(alloc, &board) {
        Ok(parts) => run_named::<Brand, M, R>(rt, alloc, board, parts, medium),
        Err(_) => {
            drop(board);
            Err(Memory)
        }
    }
}
