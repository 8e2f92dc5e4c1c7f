//! Why cases cannot be run.

use cf_types::Memory;
use std::alloc::{AllocError, AllocFailed};
use std::io;
use thiserror::Error;

/// Why the cases of a file cannot be run.
#[derive(Debug, Drop, Error)]
pub enum Stop {
    /// The line with this number, counted from 1, has none of the forms; line 0 if the file is not UTF-8.
    #[error("line {0} has none of the forms of docs/CASES.md")]
    BadLine(usize),
    /// The file is not there, or cannot be read.
    #[error("cannot be read")]
    NoFile,
    /// The words could not be read, or the result could not be written.
    #[error("fault of reading or writing")]
    Fault,
    /// Memory ran out.
    #[error("out of memory")]
    Memory,
}

impl From<Memory> for Stop {
    fn from(_error: Memory) -> Stop {
        Stop::Memory
    }
}

impl From<AllocError> for Stop {
    fn from(_error: AllocError) -> Stop {
        Stop::Memory
    }
}

impl<T: Drop> From<AllocFailed<T>> for Stop {
    fn from(_error: AllocFailed<T>) -> Stop {
        Stop::Memory
    }
}

impl From<io::Error> for Stop {
    fn from(_error: io::Error) -> Stop {
        Stop::Fault
    }
}
