use std::marker::Model;

/// A lease on a slot, of the slot's generation when it was taken. It can't be dropped, and outside this crate it can be neither
/// made nor taken apart: it is given back. What it is worth is in its seat's view alone. Contracts see the slot and the
/// generation.
pub struct Lease {
    pub(crate) slot: u16,
    pub(crate) generation: u64,
}

impl Model for Lease {
    ghost use Rattle.lease_table.specs.Shown.{LeaseShown};

    ghost Value = { LeaseShown };

    ghost view = { λ l. record { slot = l.slot; generation = l.generation } };
}
