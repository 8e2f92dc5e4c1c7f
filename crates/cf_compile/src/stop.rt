ghost use Rattle.std.specs.Prelude.{◌≡◌};
ghost use Rattle.cf_compile.specs.Compiles.{stop_of};
ghost use Rattle.cf_compile.specs.declared.stop.CompileStop.TheVariants as stops;

use cf_expand::ExpandStop;
use cf_types::{Memory, Refusal};
use thiserror::Error;

/// Why a configuration was not compiled.
#[derive(Debug, Drop, Error)]
pub enum CompileStop {
    /// It has this fault, the first in reading order. See config(5).
    #[error("line {}: code {}", .0.line, .0.code)]
    Refused(Refusal),
    /// A file could not be read; its source counted that.
    #[error("read fault")]
    ReadFault,
    /// Memory ran out.
    #[error("out of memory")]
    Memory,
}

impl From<Memory> for CompileStop {
    ghost from_gives = { λ _ stop. stop ≡ stops.Memory };

    fn from(_memory: Memory) -> CompileStop {
        CompileStop::Memory
    }
}

impl From<ExpandStop> for CompileStop {
    ghost from_gives = { λ read stop. stop ≡ stop_of read };

    fn from(stop: ExpandStop) -> CompileStop {
        match stop {
            ExpandStop::ReadFault => CompileStop::ReadFault,
            ExpandStop::Memory => CompileStop::Memory,
        }
    }
}
