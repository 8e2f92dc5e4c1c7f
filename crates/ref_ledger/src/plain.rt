ghost use Rattle.std.specs.Prelude.{◌≡◌, Some, None, IfOk, replicate, slice_get};
ghost use Rattle.ref_ledger.specs.Slots.{Answers, Denies, IsBuriedAs};
ghost use Rattle.ref_ledger.specs.declared.state.SlotState.TheVariants.{Free, Condemned};

use crate::buried::{Buried, Bury};
use crate::slots::Slots;
use crate::state::SlotState;
use cf_types::Memory;
use std::alloc::Global;
use std::marker::Model;

/// The slots of a run in which nobody holds a slot itself: a burial is never denied. Contracts see the states in a list.
#[derive(Drop)]
pub struct PlainSlots {
    states: Vec<SlotState>,
}

impl Model for PlainSlots {
    ghost use Rattle.std.specs.Prelude.{List};
    ghost use Rattle.ref_ledger.specs.declared.state.SlotState.{SlotState};

    ghost Value = { List SlotState };

    ghost view = { λ plain. plain.states.items };
}

impl PlainSlots {
    /// This many slots, all free.
    pub fn make(alloc: Global, slots: u16) -> Result<PlainSlots, Memory>
        ensures { IfOk result (λ plain. plain ≡ replicate slots Free) }
    {
        Ok(PlainSlots {
            states: vec![in alloc; SlotState::Free; slots as usize]?,
        })
    }
}

impl Slots for PlainSlots {
    ghost states = { λ plain. plain };

    ghost denials = { λ _. 0 };

    ghost last_denial = { λ _. None };

    fn publish(&mut self, slot: u16) {
        self.states[slot as usize] = SlotState::Live;
    }

    fn condemn(&mut self, slot: u16) {
        self.states[slot as usize] = SlotState::Condemned;
    }

    // Nobody holds a slot here, so each burial frees it; the generations are not counted.
    fn bury(&mut self, slot: u16) -> Bury
        requires { slice_get self.old slot ≡ Some Condemned }
        ensures states { Answers slot self.old result self.new }
        ensures denials { Denies slot 0 None result 0 None }
        ensures token { IsBuriedAs (record { slot = slot; generation = 0 }) result }
    {
        self.states[slot as usize] = SlotState::Free;
        Bury::Buried(Buried::make(slot, 0))
    }
}
