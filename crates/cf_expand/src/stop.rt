use cf_types::Memory;
use thiserror::Error;

/// Why reading a configuration ended without an answer.
#[derive(Clone, Copy, Debug, PartialEq, Eq, Error)]
pub enum ExpandStop {
    /// A file could not be read; its source counted that.
    #[error("read fault")]
    ReadFault,
    /// Memory ran out.
    #[error("out of memory")]
    Memory,
}

impl From<Memory> for ExpandStop {
    ghost use Rattle.std.specs.Prelude.{◌≡◌};
    ghost use Rattle.cf_expand.specs.declared.stop.ExpandStop.TheVariants as stops;

    ghost from_gives = { λ _ stop. stop ≡ stops.Memory };

    fn from(_memory: Memory) -> ExpandStop {
        ExpandStop::Memory
    }
}
