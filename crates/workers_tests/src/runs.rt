ghost use Rattle.std.specs.Prelude.{⊤};

use board_lock::Finished;
use cf_types::{Memory, Ticket, put_bytes};
use dev_board::{Board, IoResult};
use dev_event::put_event;
use drv_workers::{Medium, SoftMedium, run_scripts};
use sample_machine::booted;
use std::alloc::Global;
use std::sync::Wait;
use std::sync::atomic::{AtomicU64, Ordering};
use std::test::*;
use std::thread;
use std::thread::Threads;

// How often a transfer looks for another one.
const LOOKS: u64 = 10_000_000;

// Keeps the first transfer until the second has come, for a bounded number of looks, and counts those that met another.
#[derive(Drop)]
struct Meeting {
    inside: AtomicU64,
    met: AtomicU64,
}

impl Medium for Meeting {
    ghost carried = { λ ticket. ⊤ };

    fn transfer<R: Wait>(&self, rt: &R, ticket: Ticket) -> IoResult {
        self.inside.fetch_add(1, Ordering::SeqCst);
        for _ in 0..LOOKS {
            if self.inside.load(Ordering::SeqCst) >= 2 {
                self.met.fetch_add(1, Ordering::SeqCst);
                break;
            }
            thread::yield_now();
        }
        SoftMedium.transfer(rt, ticket)
    }
}

// Appends the lines of a caller's events.
fn put_lines(board: &Board, caller: u8, lines: &mut Vec<u8>) -> Result<(), Memory> {
    for place in 0..board.events() {
        let event = board.event(place);
        if event.caller == caller {
            put_event(event, lines)?;
            put_bytes(lines, b"\n")?;
        }
    }
    Ok(())
}

// What the callers did, those of the first one first.
fn lines_of(alloc: Global, board: &Board) -> Result<Vec<u8>, Memory> {
    let mut lines = Vec::new(alloc);
    for caller in 1..=board.callers() {
        put_lines(board, caller, &mut lines)?;
    }
    Ok(lines)
}

// What scripts leave over a medium; nothing if memory ran out.
fn ran<M: Medium + Sync, R: Threads + Wait + Sync>(
    rt: &R,
    alloc: Global,
    medium: &M,
    scripts: &[&[u8]],
) -> Option<Finished> {
    run_scripts(rt, alloc, booted(alloc, scripts)?, medium).ok()
}

// What the callers did in a run that is over; nothing if memory ran out.
fn lines_left(alloc: Global, left: Finished) -> Option<Vec<u8>> {
    let lines = lines_of(alloc, left.board()).ok();
    drop(left);
    lines
}

// How many callers ended in a run that is over.
fn ended_left(left: Finished) -> u64 {
    let ended = left.ended();
    drop(left);
    ended
}

// The events of two callers that each open a device, carry out a transfer of 5, and close it.
const DONE: &[u8] =
    b"1.1 open com0: ok\n1.2 io com0 5: started\n1.2 done com0: 7\n1.3 close com0: ok\n1.4 end\n2.1 open com1: ok\n2.2 io com1 5: started\n2.2 done com1: 8\n2.3 close com1: ok\n2.4 end\n";

#[test]
fn two_transfers_are_under_way_at_once(rt: HostRuntime) -> Result<(), Fail> {
    let meeting = Meeting {
        inside: AtomicU64::new(0),
        met: AtomicU64::new(0),
    };
    let scripts: [&[u8]; 2] = [
        b"open com0\nio com0 5\nclose com0\n",
        b"open com1\nio com1 5\nclose com1\n",
    ];
    let lines = match ran(&rt, rt.alloc(), &meeting, &scripts) {
        Some(left) => lines_left(rt.alloc(), left),
        None => None,
    };
    assert_eq!(rt; meeting.met.load(Ordering::SeqCst), 2);
    assert_eq!(rt; lines.as_deref(), Some(DONE));
    Ok(())
}

// Wants the same as the others of its kind: to hold, search, suspend and remove the same devices. It holds nothing
// while it waits, so some caller can always go on.
const GREEDY: &[u8] =
    b"open com0\nio com0 1\nclose com0\nsuspend isa0\nresumetree isa0\nrescan isa0\nunplug u1\nplug u1\nopen -x com1\nclose com1\ndetach com0\nrescan isa0\n";

#[test]
fn sixteen_scripts_that_want_the_same_end(rt: HostRuntime) -> Result<(), Fail> {
    let ended = match ran(&rt, rt.alloc(), &SoftMedium, &[GREEDY; 16]) {
        Some(left) => ended_left(left),
        None => 0,
    };
    assert_eq!(rt; ended, 16);
    Ok(())
}
