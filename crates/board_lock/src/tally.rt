//! The three ledgers of a run: shares of them, and their books.
ghost use Rattle.std.specs.Prelude.{◌≡◌, ◌≢◌, ◌<◌, ◌≤◌, ◌+◌};
ghost use Rattle.run_rules.specs.Counts.{closes_script};
ghost use Rattle.board_lock.specs.Boards.{scripts_of};
ghost use Rattle.board_lock.specs.Tallies.{Tally, Totals, Agrees, SameCounts, SameShares, more_in_all, none_yet, one_more, together, unused};

use crate::names::{Closings, Dids, Naming, Stops};
use run_rules::{Act, Event};
use std::marker::Model;
use std::sync::ledger::{Blank, Book, Share};

/// Shares of the three ledgers, of equally many seats in each. Contracts see the numbers.
#[derive(Drop)]
pub struct Shares<N: Naming> {
    closings: Share<Closings<N>>,
    dids: Share<Dids<N>>,
    stops: Share<Stops<N>>,
}

impl<N: Naming> Model for Shares<N> {
    ghost Value = { Tally };

    ghost view = { λ s. record { parts = s.closings.parts; closings = s.closings.amount; dids = s.dids.amount; rights = s.stops.amount } };

    ghost invariant = { λ s. (s.dids.parts ≡ s.closings.parts) × (s.stops.parts ≡ s.closings.parts) };
}

/// The books of the three ledgers. Contracts see the totals of all shares.
#[derive(Drop)]
pub struct Books<N: Naming> {
    closings: Book<Closings<N>>,
    dids: Book<Dids<N>>,
    stops: Book<Stops<N>>,
}

impl<N: Naming> Model for Books<N> {
    ghost Value = { Totals };

    ghost view = { λ b. record { closings = b.closings.total; dids = b.dids.total; rights = b.stops.total } };
}

/// Whether an event is the end of its caller.
#[tactic(auto, unfolding(run_rules::specs::Counts::closes_script))]
#[inline(always)]
pub fn ends_caller(event: &Event) -> bool
    requires { event.now.caller ≢ 0 }
    ensures { result ≡ closes_script event.now }
{
    matches!(event.act.get(), Act::End)
}

impl<N: Naming> Shares<N> {
    /// Splits off the shares of one seat from those of many that have done nothing yet.
    pub fn split_off(&mut self) -> Shares<N>
        requires { (self.old ≡ unused self.old.parts) × (0 < self.old.parts) }
        ensures one { result ≡ unused 1 }
        ensures rest { (self.new ≡ unused self.new.parts) × (self.new.parts + 1 ≡ self.old.parts) }
    {
        Shares {
            closings: self.closings.split_off(1, 0),
            dids: self.dids.split_off(1, 0),
            stops: self.stops.split_off(1, 1),
        }
    }

    /// Adds other shares to these.
    pub fn merge(&mut self, other: Shares<N>)
        ensures { self.new ≡ together self.old other }
    {
        let Shares {
            closings,
            dids,
            stops,
        } = other;
        self.closings.merge(closings);
        self.dids.merge(dids);
        self.stops.merge(stops);
    }
}

// Opens the ledger of the rights to stop: each of the seats has one.
fn charged<N: Naming>(stops: Blank, seats: u8) -> (Book<Stops<N>>, Share<Stops<N>>)
    requires name { stops.name ≡ N.stops }
    requires parts { stops.parts ≡ scripts_of N.opening }
    requires seats { (seats ≡ scripts_of N.opening) × (0 < seats) }
    ensures book { result.0.total ≡ seats }
    ensures share { (result.1.amount ≡ seats) × (result.1.parts ≡ seats) }
{
    let (mut book, mut share) = stops.open::<Stops<N>>();
    book.add(&mut share, seats as u64);
    (book, share)
}

impl<N: Naming> Books<N> {
    /// Opens the ledgers: nothing has been done yet, and each seat has one right to stop.
    pub fn open(closings: Blank, dids: Blank, stops: Blank, seats: u8) -> (Books<N>, Shares<N>)
        requires names { (closings.name ≡ N.closings) × (dids.name ≡ N.dids) × (stops.name ≡ N.stops) }
        requires closings { closings.parts ≡ scripts_of N.opening }
        requires dids { dids.parts ≡ scripts_of N.opening }
        requires stops { stops.parts ≡ scripts_of N.opening }
        requires seats { (seats ≡ scripts_of N.opening) × (0 < seats) }
        ensures books { result.0 ≡ none_yet seats }
        ensures shares { result.1 ≡ unused seats }
    {
        let (closings, all_closings) = closings.open::<Closings<N>>();
        let (dids, all_dids) = dids.open::<Dids<N>>();
        let (stops, all_stops) = charged(stops, seats);
        let books = Books {
            closings,
            dids,
            stops,
        };
        let shares = Shares {
            closings: all_closings,
            dids: all_dids,
            stops: all_stops,
        };
        (books, shares)
    }

    /// Counts an event of a script's caller, in the books and in the caller's shares.
    #[inline(always)]
    pub fn count(&mut self, shares: &mut Shares<N>, event: &Event)
        requires part { 0 < shares.old.parts }
        requires caller { event.now.caller ≢ 0 }
        ensures books { self.new ≡ more_in_all self.old event.now }
        ensures shares { shares.new ≡ one_more shares.old event.now }
    {
        self.dids.add(&mut shares.dids, 1);
        if ends_caller(event) {
            self.closings.add(&mut shares.closings, 1);
        }
    }

    /// Takes a right to stop, in the books and in the caller's shares. There is one, because the caller has it.
    pub fn halt(&mut self, shares: &mut Shares<N>)
        requires { (0 < shares.old.parts) × (0 < shares.old.rights) }
        ensures right { self.new.rights + 1 ≡ self.old.rights }
        ensures same { SameCounts self.old self.new }
        ensures own_right { shares.new.rights + 1 ≡ shares.old.rights }
        ensures own_same { SameShares shares.old shares.new }
    {
        self.stops.audit(&mut shares.stops);
        self.stops.sub(&mut shares.stops, 1);
    }

    /// Shows that the shares of all seats add up to what the books say.
    pub fn audit(&mut self, all: &mut Shares<N>)
        requires { all.old.parts ≡ scripts_of N.opening }
        ensures agree { Agrees all.old self.old }
        ensures same { (self.new ≡ self.old) × (all.new ≡ all.old) }
    {
        self.closings.audit(&mut all.closings);
        self.dids.audit(&mut all.dids);
        self.stops.audit(&mut all.stops);
    }
}
