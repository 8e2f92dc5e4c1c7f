//! One worker.
ghost use Rattle.board_lock.specs.Carried.{CarriesFor};
ghost use Rattle.drv_workers.specs.Ends.{WorkEnds};

use crate::medium::Medium;
use board_lock::{Done, DoneEnd, LockAnswer, Naming, Seat, SharedBoard};
use std::sync::Wait;

/// Steps a seat until its caller has ended, the board was stopped, or memory ran out or nobody goes on, at which it stops the board
/// once. A transfer is carried out outside the lock, after a look that showed the slot of its device live and leased to the caller. Without
/// a lease there it steps again.
pub fn work<M: Medium, N: Naming, R: Wait>(
    rt: &R,
    shared: &SharedBoard<N>,
    seat: Seat<N>,
    medium: &M,
) -> Done<N>
    requires { CarriesFor M.carried N.carried }
    ensures { WorkEnds N.opening seat result }
{
    let mut seat = seat;
    for _ in rt.forever() {
        let turn = match shared.steps(rt, &mut seat) {
            LockAnswer::Transfer(ticket, _) => match shared.look(&mut seat, &ticket) {
                Some(_) => shared.post(rt, &mut seat, medium.transfer(rt, ticket)),
                None => continue,
            },
            turn => turn,
        };
        match turn {
            LockAnswer::Closed => return seat.into_done(DoneEnd::Closed),
            LockAnswer::Stopped(by, told) => return seat.into_done(DoneEnd::Stopped(by, told)),
            LockAnswer::Memory => {
                shared.stop(rt, &mut seat);
                return seat.into_done(DoneEnd::Memory);
            }
            LockAnswer::Stuck => {
                shared.stop(rt, &mut seat);
                return seat.into_done(DoneEnd::Stuck);
            }
            _ => {}
        }
    }
    unreachable!()
}
