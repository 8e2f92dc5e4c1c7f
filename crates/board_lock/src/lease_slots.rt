//! The slots of a run in which callers hold leases.
ghost use Rattle.std.specs.Prelude.{◌≡◌};
ghost use Rattle.std.specs.Arc.{arc_value};
ghost use Rattle.lease_table.specs.Shown.{KeeperShown, states_in, denial_in};

use crate::names::Naming;
use lease_table::{LeaseKeeper, LeaseTable};
use ref_ledger::{Bury, Slots};
use std::alloc::Global;
use std::marker::{Model, PhantomData};
use std::sync::Arc;

/// The slots of a table of leases: a burial is denied while a caller holds one. Contracts see what the keeper knows.
#[derive(Drop)]
pub struct LeaseSlots<N: Naming> {
    table: Arc<LeaseTable, Global>,
    keeper: LeaseKeeper,
    of: PhantomData<N>,
}

impl<N: Naming> Model for LeaseSlots<N> {
    ghost Value = { KeeperShown };

    ghost view = { λ s. s.keeper };

    ghost invariant = { λ s. (arc_value s.table ≡ N.table) × (s.keeper.table ≡ N.table) };
}

impl<N: Naming> LeaseSlots<N> {
    /// The slots of the run's table, with its keeper.
    pub fn make(table: Arc<LeaseTable, Global>, keeper: LeaseKeeper) -> LeaseSlots<N>
        requires { (arc_value table ≡ N.table) × (keeper.table ≡ N.table) }
        ensures { result ≡ keeper }
    {
        LeaseSlots {
            table,
            keeper,
            of: PhantomData,
        }
    }
}

impl<N: Naming> Slots for LeaseSlots<N> {
    ghost states = { λ s. states_in s.view };

    ghost denials = { λ s. s.view.shown };

    ghost last_denial = { λ s. denial_in s.view };

    fn publish(&mut self, slot: u16) {
        let LeaseSlots {
            table,
            keeper,
            of: _,
        } = self;
        table.publish(keeper, slot);
    }

    fn condemn(&mut self, slot: u16) {
        let LeaseSlots {
            table,
            keeper,
            of: _,
        } = self;
        table.condemn(keeper, slot);
    }

    fn bury(&mut self, slot: u16) -> Bury {
        let LeaseSlots {
            table,
            keeper,
            of: _,
        } = self;
        table.bury(keeper, slot)
    }
}
