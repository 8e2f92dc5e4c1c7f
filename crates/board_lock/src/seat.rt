//! What a caller has, and what it leaves.
ghost use Rattle.std.specs.Prelude.{◌≡◌, ◌≤◌, ◌-◌, ◌+◌, ◌==◌, not};
ghost use Rattle.board_lock.specs.Boards.{scripts_of, one_end};
ghost use Rattle.board_lock.specs.Kept.{SeatKept, DoneKept};
ghost use Rattle.board_lock.specs.Seats.{SeatShown, DoneShown, EndFits, left_by};

use crate::names::Naming;
use crate::returned::Returned;
use crate::tally::Shares;
use dev_board::Told;
use lease_table::{LeaseTable, Leases};
use std::marker::Model;

/// A caller's seat. Contracts see the caller, how often it ended, how many events it did, how often it stopped the board, the slot
/// that it looked at since its last event, if that look gave a word, and what it knows of the slots.
#[derive(Drop)]
pub struct Seat<N: Naming> {
    pub(crate) caller: u8,
    pub(crate) shares: Shares<N>,
    /// How often the caller ended, or 2 if it is more often.
    pub(crate) ends: u8,
    pub(crate) halted: bool,
    /// The slot of the last look, if it gave a word and no event of the caller came after it.
    pub(crate) looked: Option<u16>,
    pub(crate) leases: Leases,
}

impl<N: Naming> Model for Seat<N> {
    ghost Value = { SeatShown };

    ghost view = { λ s. record {
      caller = s.caller;
      closings = s.shares.closings;
      dids = s.shares.dids;
      stops = 1 - s.shares.rights;
      looked = s.looked;
      leases = s.leases.view;
    } };

    ghost invariant = { λ s. SeatKept (scripts_of N.opening) N.table s.caller s.ends s.halted s.shares s.leases };
}

/// How a caller's work ended.
#[derive(Drop)]
pub enum DoneEnd {
    /// The caller has ended.
    Closed,
    /// Memory ran out, and the caller stopped the board.
    Memory,
    /// Nobody went on, and the caller stopped the board.
    Stuck,
    /// The board was stopped, first by this caller.
    Stopped(u8, Told),
}

/// What a caller leaves. Contracts see the caller, the three numbers of its seat, and how it ended, which agrees with
/// the numbers.
#[derive(Drop)]
pub struct Done<N: Naming> {
    pub(crate) caller: u8,
    pub(crate) shares: Shares<N>,
    pub(crate) end: DoneEnd,
    pub(crate) leases: Leases,
}

impl<N: Naming> Model for Done<N> {
    ghost Value = { DoneShown };

    ghost view = { λ s. record { caller = s.caller; closings = s.shares.closings; dids = s.shares.dids; stops = 1 - s.shares.rights; end = s.end } };

    ghost invariant = { λ s. DoneKept N.opening N.table s.caller s.end s.shares s.leases };
}

impl<N: Naming> Seat<N> {
    /// The caller's number.
    #[inline(always)]
    pub fn caller(&self) -> u8
        ensures caller { result ≡ self.now.caller }
        ensures range { (1 ≤ result) × (result ≤ scripts_of N.opening) }
    {
        self.caller
    }

    /// Whether the caller ended, once.
    #[inline(always)]
    pub fn has_ended(&self) -> bool
        ensures { result ≡ (self.now.closings == 1) }
    {
        self.ends == 1
    }

    /// Whether the caller has stopped the board.
    pub fn has_stopped(&self) -> bool
        ensures stopped { result ≡ not (self.now.stops == 0) }
        ensures once { self.now.stops ≤ 1 }
    {
        self.halted
    }

    /// The caller is done, and leaves what it has. `Closed` is for a caller that ended, `Memory` and `Stuck` for
    /// one that stopped the board, `Stopped` for one with a witness that another one did.
    pub fn into_done(self, end: DoneEnd) -> Done<N>
        requires { EndFits N.opening self.caller self.closings self.stops end }
        ensures { result ≡ left_by self end }
    {
        let Seat {
            caller,
            shares,
            ends: _,
            halted: _,
            looked: _,
            leases,
        } = self;
        Done {
            caller,
            shares,
            end,
            leases,
        }
    }
}

impl<N: Naming> Done<N> {
    /// How the caller's work ended.
    pub fn end(&self) -> &DoneEnd
        ensures end { result.now ≡ self.now.end }
        ensures fits { EndFits N.opening self.now.caller self.now.closings self.now.stops result.now }
    {
        &self.end
    }

    /// The shares, once all leases are given back.
    pub(crate) fn give_back(self, table: &LeaseTable) -> Returned<N>
        requires table { table.now ≡ N.table }
        ensures parts { result.parts ≡ 1 }
        ensures counts { (result.closings ≡ self.closings) × (result.dids ≡ self.dids) }
        ensures rights { result.rights + self.stops ≡ 1 }
    {
        let Done {
            caller: _,
            shares,
            end: _,
            mut leases,
        } = self;
        leases.give_all(table);
        Returned { shares, leases }
    }
}
