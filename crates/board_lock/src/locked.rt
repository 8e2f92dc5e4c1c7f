//! What is behind the lock.
ghost use Rattle.std.specs.Prelude.{◌≡◌, ◌≢◌, ◌<◌, ◌≤◌, ◌+◌, true, false, Some};
ghost use Rattle.std.specs.Option.{option_or};
ghost use Rattle.dev_board.specs.Shown.{Shown};
ghost use Rattle.board_lock.specs.Boards.{spots_of, LeaseFits};
ghost use Rattle.board_lock.specs.Carried.{CarriedRun};
ghost use Rattle.board_lock.specs.Holding.{Settles};
ghost use Rattle.board_lock.specs.Kept.{LockedKept};
ghost use Rattle.board_lock.specs.Tallies.{more_in_all};
ghost use Rattle.board_lock.specs.Turning.{EndsNone, IsEvent, PostIs, RestIs, TriesAre, TryIs, counted, halted, settled};

#[cfg(test)]
mod tests;

use crate::lease_slots::LeaseSlots;
use crate::names::Naming;
use crate::seat::Seat;
use crate::tally::{Books, ends_caller};
use crate::turn::LockAnswer;
use dev_board::{Board, IoResult, LeaseStep, Outlook, Posted, Stepped};
use lease_table::LeaseTable;
use quiet_events::may_end_wait;
use run_rules::Event;
use std::marker::Model;

/// The most events of one caller while it has the lock once.
const MANY: u32 = 32;

/// The board, with the slots of its spots and the books of its ledgers. Contracts see the board.
#[derive(Drop)]
pub struct Locked<N: Naming> {
    board: Board,
    slots: LeaseSlots<N>,
    books: Books<N>,
    /// How many callers neither wait for a notice nor have ended.
    at_work: u8,
}

impl<N: Naming> Model for Locked<N> {
    ghost Value = { Shown };

    ghost view = { λ l. l.board };

    ghost invariant = { λ l. LockedKept N.opening N.table l.board l.books l.slots × CarriedRun N.carried N.opening l.board.events l.board.world };
}

// Counts an event of the seat's caller.
#[inline(always)]
fn count_event<N: Naming>(books: &mut Books<N>, seat: &mut Seat<N>, event: &Event)
    requires { event.now.caller ≢ 0 }
    ensures books { books.new ≡ more_in_all books.old event.now }
    ensures seat { seat.new ≡ counted seat.old event.now }
{
    books.count(&mut seat.shares, event);
    if ends_caller(event) && seat.ends < 2 {
        seat.ends += 1;
    }
    seat.looked = None;
}

// Takes or gives back the lease that a step names.
#[inline(always)]
fn settle<N: Naming>(table: &LeaseTable, seat: &mut Seat<N>, step: LeaseStep)
    requires table { table.now ≡ N.table }
    requires slots { spots_of N.opening + 1 ≡ N.table.words }
    requires fits { LeaseFits (spots_of N.opening) step }
    ensures leases { Settles seat.old.leases step seat.new.leases }
    ensures rest { seat.new ≡ settled seat.old seat.new.leases }
{
    match step {
        LeaseStep::Keep => {}
        LeaseStep::Take(slot) => seat.leases.take(table, slot),
        LeaseStep::Give(slot) => seat.leases.give(table, slot),
    }
}

// One caller fewer is at work if it has ended.
#[inline(always)]
fn leave(at_work: &mut u8, ended: bool) {
    if ended {
        *at_work = at_work.saturating_sub(1);
    }
}

impl<N: Naming> Locked<N> {
    /// The board of a run, with its slots and its books.
    pub fn make(board: Board, slots: LeaseSlots<N>, books: Books<N>) -> Locked<N>
        requires kept { LockedKept N.opening N.table board books slots }
        requires carried { CarriedRun N.carried N.opening board.events board.world }
        ensures { result ≡ board }
    {
        let at_work = board.callers();
        Locked {
            board,
            slots,
            books,
            at_work,
        }
    }

    /// One step of the seat's caller; none if the caller has to wait.
    #[tactic(auto, using(crate::proofs::Opened::kept_same))]
    #[inline(always)]
    pub fn turn(&mut self, table: &LeaseTable, seat: &mut Seat<N>) -> Option<LockAnswer>
        requires { table.now ≡ N.table }
        ensures { TryIs N.opening seat.old result seat.new }
    {
        let Locked {
            board,
            slots,
            books,
            at_work,
        } = self;
        board.stands();
        let (place, told) = match board.step(seat.caller(), slots) {
            Stepped::Did(place, told) => (place, told),
            Stepped::Waits(_) => return None,
            Stepped::Transfer(ticket, told) => return Some(LockAnswer::Transfer(ticket, told)),
            Stepped::Closed => {
                if seat.has_ended() {
                    return Some(LockAnswer::Closed);
                }
                return None;
            }
            Stepped::Stopped(first, told) => return Some(LockAnswer::Stopped(first, told)),
            Stepped::Memory => return Some(LockAnswer::Memory),
        };
        count_event(books, seat, board.event(place));
        leave(at_work, seat.has_ended());
        settle(table, seat, told.lease());
        Some(LockAnswer::Did(place, told))
    }

    /// Whether an answer is an event that ends no other caller's wait.
    #[inline(always)]
    fn is_quiet(&self, turn: &LockAnswer) -> bool
        ensures { result ≡ true → IsEvent turn.now }
    {
        matches!(turn, LockAnswer::Did(..)) && !self.may_end_waits(turn)
    }

    /// Steps of the seat's caller as long as each is an event that ends no other caller's wait, at most `MANY` of them.
    /// It returns the last answer; none if the caller has to wait.
    #[inline(always)]
    pub fn turns(&mut self, table: &LeaseTable, seat: &mut Seat<N>) -> Option<LockAnswer>
        requires { table.now ≡ N.table }
        ensures { TriesAre N.opening seat.old result seat.new }
    {
        for _many in 1..MANY {
            let turn = self.turn(table, seat)?;
            if !self.is_quiet(&turn) {
                return Some(turn);
            }
        }
        self.turn(table, seat)
    }

    /// The end of a transfer of the seat's caller, which was carried out.
    pub fn accept(&mut self, seat: &mut Seat<N>, done: IoResult) -> LockAnswer
        requires caller { done.caller ≡ seat.old.caller }
        requires carried { N.carried done }
        ensures { PostIs N.opening done seat.old result seat.new }
    {
        let Locked {
            board,
            slots: _,
            books,
            at_work: _,
        } = self;
        let _ = seat.caller();
        let (place, told) = match board.post(done) {
            Posted::Did(place, told) => (place, told),
            Posted::Stale(kept, told) => return LockAnswer::Stale(kept, told),
            Posted::Stopped(first, told) => return LockAnswer::Stopped(first, told),
            Posted::Memory => return LockAnswer::Memory,
        };
        count_event(books, seat, board.event(place));
        LockAnswer::Did(place, told)
    }

    /// Stops the board for the seat's caller.
    pub fn halt(&mut self, seat: &mut Seat<N>)
        requires { seat.old.stops ≡ 0 }
        ensures seat { seat.new ≡ halted seat.old }
        ensures named { self.new.stopped ≡ option_or self.old.stopped (Some seat.old.caller) }
    {
        let Locked {
            board,
            slots: _,
            books,
            at_work: _,
        } = self;
        board.stands();
        books.halt(&mut seat.shares);
        seat.halted = true;
        board.stop(seat.caller);
    }

    /// What a caller that has to wait is answered: that nobody goes on, or that memory ran out as that was looked at; none if it
    /// is to wait for a notice. While another caller is at work, nothing is looked at.
    #[cold]
    pub fn rest(&mut self) -> Option<LockAnswer>
        ensures rest { RestIs N.opening result }
        ensures same { self.new ≡ self.old }
    {
        if self.at_work <= 1 {
            self.board.stands();
            match self.board.standing() {
                Ok(Outlook::Stuck) => return Some(LockAnswer::Stuck),
                Ok(_) => {}
                Err(_) => return Some(LockAnswer::Memory),
            }
        }
        self.at_work = self.at_work.saturating_sub(1);
        None
    }

    /// A caller that waited goes on.
    pub fn wake(&mut self)
        ensures { self.new ≡ self.old }
    {
        self.at_work = self.at_work.saturating_add(1);
    }

    /// Whether an answer may end the wait of another caller. If not, no other caller's wait ends with it.
    #[inline(always)]
    pub fn may_end_waits(&self, turn: &LockAnswer) -> bool
        ensures { result ≡ false → EndsNone self.now turn.now }
    {
        let LockAnswer::Did(place, _) = turn else {
            return false;
        };
        let place = *place;
        if place >= self.board.events() {
            return true;
        }
        may_end_wait(self.board.event(place).act.get())
    }

    /// The board, the slots and the books.
    pub fn into_parts(self) -> (Board, LeaseSlots<N>, Books<N>)
        ensures kept { LockedKept N.opening N.table result.0 result.2 result.1 }
        ensures carried { CarriedRun N.carried N.opening result.0.events result.0.world }
        ensures board { result.0 ≡ self }
    {
        let Locked {
            board,
            slots,
            books,
            at_work: _,
        } = self;
        (board, slots, books)
    }
}
