//! Hostile files: a load that is refused memory, a file with other bytes.
ghost use Rattle.std.specs.Prelude.{None};

use cf_io::{Files, Load, MAX_FILE};

/// Files, one load of which is refused memory.
#[derive(Drop)]
pub struct RefusedLoad<F: Files + Drop> {
    pub files: F,
    /// The number of the load that is refused, counted from 1.
    pub refused: u64,
    /// How many loads there were.
    pub loads: u64,
}

impl<F: Files + Drop> Files for RefusedLoad<F> {
    ghost told = { λ it. F.told it.files };

    ghost asked = { λ _. None };

    ghost faults = { λ it. F.faults it.files };

    fn load(&mut self, name: &[u8], into: &mut Vec<u8>) -> Load {
        into.clear();
        self.loads = self.loads.saturating_add(1);
        if self.loads == self.refused {
            return Load::Memory;
        }
        self.files.load(name, into)
    }
}

/// Files, one of which has other bytes.
#[derive(Drop)]
pub struct ChangedFile<'a, F: Files + Drop> {
    pub files: F,
    pub name: &'a [u8],
    pub bytes: &'a [u8],
}

impl<'a, F: Files + Drop> Files for ChangedFile<'a, F> {
    ghost told = { λ _. None };

    ghost asked = { λ _. None };

    ghost faults = { λ it. F.faults it.files };

    fn load(&mut self, name: &[u8], into: &mut Vec<u8>) -> Load {
        into.clear();
        if name != self.name {
            return self.files.load(name, into);
        }
        if self.bytes.len() > MAX_FILE {
            return Load::TooLong;
        }
        match into.extend_from_slice(self.bytes) {
            Ok(()) => Load::Whole,
            Err(_) => Load::Memory,
        }
    }
}
