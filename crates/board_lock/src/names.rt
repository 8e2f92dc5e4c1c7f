//! The names of one run.
ghost use Rattle.std.specs.Prelude.{ℕ, ⊤};
ghost use Rattle.atomic_table.specs.Seated.{TableId};
ghost use Rattle.cf_types.specs.declared.machine.Ticket.{Ticket};
ghost use Rattle.run_rules.specs.World.{World};
ghost use Rattle.board_lock.specs.Boards.{nowhere, scripts_of};
ghost use Rattle.board_lock.specs.Names.{no_table};

use std::marker::{Brand, PhantomData};
use std::sync::ledger::Ledger;

/// The names of one run, which contracts alone see: its opening world, its three ledgers, its table of leases, and which transfers
/// were carried out for it. What lies behind the lock and every seat carry them in their types, so a seat of one run can't be used
/// on the board of another.
pub trait Naming {
    ghost opening: { World };

    ghost closings: { ℕ };

    ghost dids: { ℕ };

    ghost stops: { ℕ };

    ghost table: { TableId };

    ghost carried: { Ticket → Type 0 };
}

impl Naming for Brand {
    ghost opening = { nowhere };

    ghost closings = { 0 };

    ghost dids = { 0 };

    ghost stops = { 0 };

    ghost table = { no_table };

    ghost carried = { λ ticket. ⊤ };
}

/// The ledger of the callers that have ended.
pub struct Closings<N> {
    of: PhantomData<N>,
}

impl<N: Naming> Ledger for Closings<N> {
    ghost name = { N.closings };

    ghost parts = { scripts_of N.opening };
}

/// The ledger of the callers' events.
pub struct Dids<N> {
    of: PhantomData<N>,
}

impl<N: Naming> Ledger for Dids<N> {
    ghost name = { N.dids };

    ghost parts = { scripts_of N.opening };
}

/// The ledger of the rights to stop that are left: each caller has one.
pub struct Stops<N> {
    of: PhantomData<N>,
}

impl<N: Naming> Ledger for Stops<N> {
    ghost name = { N.stops };

    ghost parts = { scripts_of N.opening };
}
