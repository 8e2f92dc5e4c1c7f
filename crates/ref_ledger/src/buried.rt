ghost use Rattle.std.specs.Prelude.{◌≡◌};

use std::marker::Model;

/// The token of a slot that was taken from condemned to free. It cannot be dropped: whoever frees the device spends it.
pub struct Buried {
    slot: u16,
    generation: u64,
}

impl Model for Buried {
    ghost use Rattle.ref_ledger.specs.Token.{Token};

    ghost Value = { Token };

    ghost view = { λ b. record { slot = b.slot; generation = b.generation } };
}

impl Buried {
    /// The token of a slot and of the generation that ended. Only implementations of `Slots` make one.
    pub fn make(slot: u16, generation: u64) -> Buried
        ensures { result ≡ record { slot = slot; generation = generation } }
    {
        Buried { slot, generation }
    }

    /// The slot and the generation. The token is gone.
    pub fn spend(self) -> (u16, u64)
        ensures slot { result.0 ≡ self.slot }
        ensures generation { result.1 ≡ self.generation }
    {
        let Buried { slot, generation } = self;
        (slot, generation)
    }
}

/// The answer of a burial: the slot is free, or callers hold it: bit k-1 of the mask is caller k.
pub enum Bury {
    Buried(Buried),
    Held(u16),
}
