//! The rule of the leases, and what each kind of atomic step shows to the one who takes it.
ghost use Rattle.std.specs.Prelude.{◌≡◌, map};
ghost use Rattle.lease_table.specs.Leases.{Ruled, standing, keeper_view, knowing, Looked, Took, Gave, Peeked, Buries};
ghost use Rattle.lease_table.specs.Words.{said};
ghost use Rattle.ref_ledger.specs.declared.state.SlotState.TheVariants.{Live, Condemned};

use crate::view::View;
use atomic_table::{Play, Split, TableRule};

/// The rule of the leases: how the words of a table and the views of its seats agree at every moment. The key is the
/// number of slots.
pub struct LeaseRule;

impl TableRule<(), View, u16> for LeaseRule {
    ghost holds = { λ n s. Ruled n s.words (map standing s.views) };

    ghost first = { λ n. keeper_view n };
}

/// A caller's load.
pub struct Looks;

impl Play<(), View> for Looks {
    ghost then = { λ st m found w. Looked st.word m.0 (said found) w.0 };
}

/// A caller sets its own bit.
pub struct Takes;

impl Play<(), View> for Takes {
    ghost then = { λ st m found w. Took st.word m.0 (said found) w.0 };
}

/// A caller clears its own bit.
pub struct Gives;

impl Play<(), View> for Gives {
    ghost then = { λ st m found w. Gave st.word m.0 w.0 };
}

/// A caller's seat is split from the keeper's, while the table is made.
pub struct Deals;

impl Split<View> for Deals {
    ghost use Rattle.lease_table.specs.Leases.{dealt, dealt_to};

    ghost left = { λ v. dealt v };

    ghost right = { λ v. dealt_to v };
}

/// The keeper makes a free slot live.
pub struct Publishes;

impl Play<(), View> for Publishes {
    ghost then = { λ st m found w. w.0 ≡ knowing m.0 st.word Live };
}

/// The keeper condemns a live slot.
pub struct Condemns;

impl Play<(), View> for Condemns {
    ghost then = { λ st m found w. w.0 ≡ knowing m.0 st.word Condemned };
}

/// The keeper's load.
pub struct Peeks;

impl Play<(), View> for Peeks {
    ghost then = { λ st m found w. Peeked st.word m.0 (said found) w.0 };
}

/// The keeper frees a condemned slot, if the word still has no holder's bit.
pub struct Frees;

impl Play<(), View> for Frees {
    ghost then = { λ st m found w. Buries st.word st.first m.0 found w.0 };
}
