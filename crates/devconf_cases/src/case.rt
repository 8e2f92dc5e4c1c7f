//! A case of a program.

use crate::stop::Stop;
use app_words::Program;
use cf_io::MemFile;
use cf_types::{List, Text};
use std::alloc::Global;

/// Numbers of calls that have to fail, counted from 1.
pub type Calls = List<u64>;

/// What a program is called with, and what it has to answer.
#[derive(Drop)]
pub struct Case {
    /// What the case shows.
    pub name: String,
    pub program: Program,
    /// The words after the program's name.
    pub words: Vec<String>,
    pub files: List<MemFile>,
    pub failing_loads: Calls,
    /// Calls of the output that have to fail.
    pub failing_puts: Calls,
    /// Calls of standard error that have to fail.
    pub failing_errors: Calls,
    /// How many transfers have to be in progress at the same time.
    pub together: u64,
    pub answer: Answer,
}

/// What the program writes to its output and to standard error, and its status.
#[derive(Drop)]
pub struct Answer {
    pub output: Vec<u8>,
    pub errors: Vec<u8>,
    pub status: u64,
}

impl Case {
    /// A case of devconf without words and files that has to print nothing and to end with status 0.
    pub fn make(alloc: Global, name: String) -> Case {
        Case {
            name,
            program: Program::Devconf,
            words: Vec::new(alloc),
            files: List::make(alloc),
            failing_loads: List::make(alloc),
            failing_puts: List::make(alloc),
            failing_errors: List::make(alloc),
            together: 0,
            answer: Answer {
                output: Vec::new(alloc),
                errors: Vec::new(alloc),
                status: 0,
            },
        }
    }
    /// Copies of the files.
    pub fn copied_files(&self, alloc: Global) -> Result<List<MemFile>, Stop> {
        let mut files = List::make(alloc);
        for file in self.files.items() {
            files.push(MemFile {
                name: Text::copied(alloc, file.name.items())?,
                bytes: Text::copied(alloc, file.bytes.items())?,
            })?;
        }
        Ok(files)
    }
}
