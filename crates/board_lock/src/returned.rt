//! Shares whose callers no longer hold anything.
ghost use Rattle.std.specs.Prelude.{◌≡◌};
ghost use Rattle.board_lock.specs.Boards.{scripts_of};
ghost use Rattle.lease_table.specs.Holding.{HoldsNothing};
ghost use Rattle.board_lock.specs.Tallies.{Tally, Agrees, together};

use crate::names::Naming;
use crate::tally::{Books, Shares};
use lease_table::Leases;
use std::marker::Model;

/// Shares of callers that gave all their leases back. Only such shares are added up and compared with the books.
#[derive(Drop)]
pub struct Returned<N: Naming> {
    pub(crate) shares: Shares<N>,
    pub(crate) leases: Leases,
}

impl<N: Naming> Model for Returned<N> {
    ghost Value = { Tally };

    ghost view = { λ r. r.shares };

    ghost invariant = { λ r. HoldsNothing r.leases.view };
}

impl<N: Naming> Returned<N> {
    /// Adds the shares of another caller to these.
    pub fn merge(&mut self, other: Returned<N>)
        ensures { self.new ≡ together self.old other }
    {
        let Returned { shares, leases: _ } = other;
        self.shares.merge(shares);
    }

    /// Shows that the shares of all seats add up to what the books say.
    pub fn audit(&mut self, books: &mut Books<N>)
        requires { self.old.parts ≡ scripts_of N.opening }
        ensures { Agrees self.old books.old }
    {
        books.audit(&mut self.shares);
    }
}
