use cf_types::Memory as NoMemory;
use std::alloc::AllocError;
use thiserror::Error;

/// Why a line is refused.
#[derive(Clone, Copy, Debug, PartialEq, Eq, Error)]
pub enum LineStop {
    /// Its first code.
    #[error("code {0}")]
    Code(u8),
    /// Memory ran out.
    #[error("out of memory")]
    Memory,
}

impl From<NoMemory> for LineStop {
    ghost use Rattle.std.specs.Prelude.{◌≡◌};
    ghost use Rattle.machine_text.specs.declared.stop.LineStop.TheVariants.{Memory};

    ghost from_gives = { λ _ e. e ≡ Memory };

    fn from(_error: NoMemory) -> LineStop {
        LineStop::Memory
    }
}

impl From<AllocError> for LineStop {
    ghost use Rattle.std.specs.Prelude.{◌≡◌};
    ghost use Rattle.machine_text.specs.declared.stop.LineStop.TheVariants.{Memory};

    ghost from_gives = { λ _ e. e ≡ Memory };

    fn from(_error: AllocError) -> LineStop {
        LineStop::Memory
    }
}
