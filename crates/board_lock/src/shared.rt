//! The board behind its lock.
ghost use Rattle.std.specs.Prelude.{◌≡◌, ◌<◌, ◌+◌, ◌==◌, IfOk, Some, length, sum_by};
ghost use Rattle.std.specs.Arc.{arc_value};
ghost use Rattle.atomic_table.specs.Seated.{TableId};
ghost use Rattle.lease_table.specs.Holding.{LookIs};
ghost use Rattle.run_rules.specs.Counts.{ends_of, dids_of};
ghost use Rattle.run_rules.specs.Run.{Run};
ghost use Rattle.run_sound.specs.Kept.{MayRun};
ghost use Rattle.dev_board.specs.Booting.{IsBooted};
ghost use Rattle.dev_board.specs.Shown.{began};
ghost use Rattle.board_lock.specs.Boards.{scripts_of, spots_of};
ghost use Rattle.board_lock.specs.Carried.{CarriedRun};
ghost use Rattle.board_lock.specs.Kept.{LockedKept};
ghost use Rattle.board_lock.specs.Names.{AreNames};
ghost use Rattle.board_lock.specs.Seats.{PartsFit, seats_below};
ghost use Rattle.board_lock.specs.Turning.{LastIs, PostIs, StepsAre, TurnIs, halted, looking};

use crate::deal::deal_seats;
use crate::finish::gather_all;
use crate::lease_slots::LeaseSlots;
use crate::locked::Locked;
use crate::names::Naming;
use crate::parts::RunParts;
use crate::seat::{Done, Seat};
use crate::tally::Books;
use crate::turn::LockAnswer;
use cf_types::{List, Memory, Ticket};
use dev_board::{Board, IoResult};
use lease_table::{LeaseKeeper, LeaseTable, SlotWord};
use std::alloc::Global;
use std::marker::Model;
use std::sync::{Arc, Condvar, Mutex, Wait};

/// A board that threads share.
#[derive(Drop)]
pub struct SharedBoard<N: Naming> {
    pub(crate) lock: Mutex<Locked<N>>,
    moved: Condvar,
    pub(crate) table: Arc<LeaseTable, Global>,
}

impl<N: Naming> Model for SharedBoard<N> {
    ghost Value = { TableId };

    ghost view = { λ s. arc_value s.table };

    ghost invariant = { λ s. arc_value s.table ≡ N.table };
}

/// What is left of a run of scripts: the board that was behind its lock, and how many scripts have ended. Only `finish` of a
/// `SharedBoard` makes one.
#[derive(Drop)]
pub struct Finished {
    board: Board,
    ended: u64,
}

impl Model for Finished {
    ghost use Rattle.board_lock.specs.Boards.{FinishedShown};

    ghost Value = { FinishedShown };

    ghost view = { λ f. record { board = f.board; ended = f.ended } };
}

impl Finished {
    /// The board.
    pub fn board(&self) -> &Board
        ensures { result.now ≡ self.now.board }
    {
        &self.board
    }

    /// Whether all scripts have ended.
    pub fn have_all_ended(&self) -> bool
        ensures { result ≡ (self.now.ended == scripts_of self.now.board.world) }
    {
        self.ended == u64::from(self.board.callers())
    }

    /// How many scripts have ended.
    pub fn ended(&self) -> u64
        ensures { result ≡ self.now.ended }
    {
        self.ended
    }
}

// A board for threads. The table is also beside the lock, because a look at a lease takes no lock.
fn share<N: Naming>(
    board: Board,
    outside: Arc<LeaseTable, Global>,
    behind: Arc<LeaseTable, Global>,
    keeper: LeaseKeeper,
    books: Books<N>,
) -> SharedBoard<N>
    requires kept { LockedKept N.opening N.table board books keeper }
    requires carried { CarriedRun N.carried N.opening board.events board.world }
    requires table { (arc_value outside ≡ N.table) × (arc_value behind ≡ N.table) × (keeper.table ≡ N.table) }
{
    let locked = Locked::make(board, LeaseSlots::make(behind, keeper), books);
    SharedBoard {
        lock: Mutex::new(locked),
        moved: Condvar::new(),
        table: outside,
    }
}

impl<N: Naming> SharedBoard<N> {
    /// A board for threads, and a seat for each script. On `Memory` the board and the parts are dropped.
    pub fn make(
        alloc: Global,
        board: Board,
        parts: RunParts,
    ) -> Result<(SharedBoard<N>, List<Seat<N>>), Memory>
        requires names { AreNames N.opening N.closings N.dids N.stops N.table board parts }
        requires fits { PartsFit parts board }
        requires booted { IsBooted board }
        requires some { 0 < scripts_of board.world }
        ensures seats { IfOk result (λ r. r.1 ≡ seats_below (spots_of N.opening) (scripts_of N.opening)) }
        ensures count { IfOk result (λ r. length r.1 ≡ scripts_of N.opening) }
        ensures each { IfOk result (λ r. length r.1 ≡ scripts_of board.world) }
    {
        let RunParts {
            closings,
            dids,
            stops,
            outside,
            behind,
            keeper,
            callers,
        } = parts;
        board.stands();
        let (books, shares) = Books::open(closings, dids, stops, board.callers());
        match deal_seats(alloc, board.spots(), shares, callers) {
            Ok(seats) => Ok((share(board, outside, behind, keeper, books), seats)),
            Err(_) => {
                drop(board);
                drop(books);
                Err(Memory)
            }
        }
    }

    /// One step of the seat's caller. If the caller has to wait, the call waits for a notice and steps again; if no other caller is
    /// at work then and nobody goes on, it returns `Stuck`. At an event, the lease that it names is taken or given back
    /// before the lock is released.
    #[inline(always)]
    pub fn step<R: Wait>(&self, rt: &R, seat: &mut Seat<N>) -> LockAnswer
        ensures { TurnIs N.opening seat.old result seat.new }
    {
        let mut guard = self.lock.lock(rt);
        for _ in rt.forever() {
            if let Some(turn) = guard.turn(&self.table, seat) {
                let may_end_waits = guard.may_end_waits(&turn);
                drop(guard);
                if may_end_waits {
                    self.moved.notify_all();
                }
                return turn;
            }
            if let Some(turn) = guard.rest() {
                return turn;
            }
            guard = self.moved.wait(rt, guard);
            guard.wake();
        }
        unreachable!()
    }

    /// Steps of the seat's caller while it has the lock once, as long as each is an event that ends no other caller's
    /// wait, at most 32 of them; the answer is that of the last. If the caller has to wait, it goes on as `step` does. The
    /// contract has them as a list of turns, each as `step` answers it.
    pub fn steps<R: Wait>(&self, rt: &R, seat: &mut Seat<N>) -> LockAnswer
        ensures turns { StepsAre N.opening seat.old result seat.new }
        ensures last { LastIs N.opening seat.old result seat.new }
    {
        let mut guard = self.lock.lock(rt);
        match guard.turns(&self.table, seat) {
            Some(turn) => {
                let may_end_waits = guard.may_end_waits(&turn);
                drop(guard);
                if may_end_waits {
                    self.moved.notify_all();
                }
                turn
            }
            None => {
                drop(guard);
                self.step(rt, seat)
            }
        }
    }

    /// Hands in the result of a transfer of the seat's caller, which was carried out after a look that showed its slot live. The result
    /// is spent at every answer. Nobody is woken, since the end of a transfer ends no wait.
    pub fn post<R: Wait>(&self, rt: &R, seat: &mut Seat<N>, done: IoResult) -> LockAnswer
        requires caller { done.caller ≡ seat.old.caller }
        requires carried { N.carried done }
        requires looked { seat.old.looked ≡ Some done.slot }
        ensures { PostIs N.opening done seat.old result seat.new }
    {
        self.lock.lock(rt).accept(seat, done)
    }

    /// What the word of a transfer's slot says, without the lock; none if the seat has no lease on that slot.
    pub fn look(&self, seat: &mut Seat<N>, ticket: &Ticket) -> Option<SlotWord>
        ensures look { LookIs seat.old.leases seat.old.caller ticket.now.slot result seat.new.leases }
        ensures rest { seat.new ≡ looking seat.old ticket.now.slot result seat.new.leases }
    {
        let word = seat.leases.look(&self.table, ticket.slot);
        seat.looked = match word {
            Some(_) => Some(ticket.slot),
            None => None,
        };
        word
    }

    /// Stops the board once for the seat's caller, and wakes all who wait.
    pub fn stop<R: Wait>(&self, rt: &R, seat: &mut Seat<N>)
        ensures { seat.new ≡ halted seat.old }
    {
        if seat.has_stopped() {
            return;
        }
        self.lock.lock(rt).halt(seat);
        self.moved.notify_all();
    }

    /// The board, once every caller is done; leases that callers still hold are given back.
    pub fn finish(self, done: List<Done<N>>) -> Finished
        requires all { length done ≡ scripts_of N.opening }
        requires some { 0 < length done }
        ensures opening { began result.board ≡ N.opening }
        ensures run { Run N.opening result.board.events result.board.world }
        ensures carried { CarriedRun N.carried N.opening result.board.events result.board.world }
        ensures may { MayRun result.board.world.setup }
        ensures ended { result.ended ≡ sum_by (λ d. d.closings) done }
        ensures ends { result.ended ≡ ends_of result.board.events }
        ensures dids { sum_by (λ d. d.dids) done ≡ dids_of result.board.events }
        ensures stops { sum_by (λ d. d.stops) done ≡ result.board.stops }
    {
        let SharedBoard {
            lock,
            moved: _,
            table,
        } = self;
        let (board, _slots, mut books) = lock.into_inner().into_parts();
        let mut all = gather_all(&table, done.into_vec());
        all.audit(&mut books);
        board.stands();
        let ended = board.closed_scripts();
        Finished { board, ended }
    }
}
