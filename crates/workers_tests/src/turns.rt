ghost use Rattle.std.specs.Prelude.{◌≡◌, IfSome};

use board_lock::{LockAnswer, Naming, Seat, SharedBoard};
use cf_types::Ticket;
use std::sync::Wait;

// The place of the event, if there was one.
pub fn place_of(turn: LockAnswer) -> Option<u64> {
    match turn {
        LockAnswer::Did(place, _) => Some(place),
        _ => None,
    }
}

// The transfer that a caller waits for, after an open and the start of a transfer.
pub fn started<N: Naming, R: Wait>(
    rt: &R,
    shared: &SharedBoard<N>,
    seat: &mut Seat<N>,
) -> Option<Ticket>
    ensures { IfSome result (λ ticket. ticket.caller ≡ seat.new.caller) }
{
    let _ = place_of(shared.step(rt, seat));
    let _ = place_of(shared.step(rt, seat));
    match shared.step(rt, seat) {
        LockAnswer::Transfer(ticket, _) => Some(ticket),
        _ => None,
    }
}
