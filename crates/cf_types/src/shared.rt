ghost use Rattle.std.specs.Prelude.{◌≡◌, IfOk};

use crate::Memory;
use std::alloc::{AllocError, Global};
use std::marker::Model;
use std::sync::ArcSlice;

/// A text that is shared: a clone is a further owner of the same bytes and takes no memory. Contracts see the bytes.
#[derive(Drop)]
pub struct SharedText {
    bytes: ArcSlice<u8>,
}

impl Model for SharedText {
    ghost use Rattle.std.specs.Prelude.{List, ℕ};
    ghost use Rattle.std.specs.Arc.{arc_slice_items};

    ghost Value = { List ℕ };

    ghost view = { λ text. arc_slice_items text.bytes };
}

impl SharedText {
    /// A copy of these bytes.
    pub fn copied(alloc: Global, bytes: &[u8]) -> Result<SharedText, Memory>
        ensures { IfOk result (λ text. text ≡ bytes.now) }
    {
        Ok(SharedText {
            bytes: ArcSlice::from_slice(alloc, bytes)?,
        })
    }

    /// The bytes.
    pub fn items(&self) -> &[u8]
        ensures { result.now ≡ self.now }
    {
        self.bytes.as_slice()
    }
}

impl Clone for SharedText {
    fn clone(&self) -> Result<SharedText, AllocError>
        ensures { IfOk result (λ text. text ≡ self.now) }
    {
        Ok(SharedText {
            bytes: self.bytes.clone()?,
        })
    }
}
