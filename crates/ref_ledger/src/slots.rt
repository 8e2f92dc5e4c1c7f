ghost use Rattle.std.specs.Prelude.{◌≡◌, ℕ, List, Option, Some, slice_get, slice_set};
ghost use Rattle.ref_ledger.specs.Slots.{Answers, Denial, Denies};
ghost use Rattle.ref_ledger.specs.declared.state.SlotState.{SlotState};
ghost use Rattle.ref_ledger.specs.declared.state.SlotState.TheVariants.{Free, Live, Condemned};

use crate::buried::Bury;

/// One slot for each spot. Contracts see the states of the slots, how often a burial was denied, and the last denial.
/// Each call changes the state of the slot that it names and of no other; only a denied burial changes the denials.
pub trait Slots {
    ghost states: { Self → List SlotState };

    ghost denials: { Self → ℕ };

    ghost last_denial: { Self → Option Denial };

    /// Takes a slot from free to live.
    fn publish(&mut self, slot: u16)
        requires { slice_get (states self.old) slot ≡ Some Free }
        ensures states { states self.new ≡ slice_set (states self.old) slot Live }
        ensures denials { denials self.new ≡ denials self.old }
        ensures last { last_denial self.new ≡ last_denial self.old };

    /// Takes a slot from live to condemned.
    fn condemn(&mut self, slot: u16)
        requires { slice_get (states self.old) slot ≡ Some Live }
        ensures states { states self.new ≡ slice_set (states self.old) slot Condemned }
        ensures denials { denials self.new ≡ denials self.old }
        ensures last { last_denial self.new ≡ last_denial self.old };

    /// Takes a slot from condemned to free, or returns who holds it; then nothing changes except the denials.
    fn bury(&mut self, slot: u16) -> Bury
        requires { slice_get (states self.old) slot ≡ Some Condemned }
        ensures states { Answers slot (states self.old) result (states self.new) }
        ensures denials { Denies slot (denials self.old) (last_denial self.old) result (denials self.new) (last_denial self.new) };
}
