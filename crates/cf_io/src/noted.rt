ghost use Rattle.std.specs.Prelude.{Some};

use crate::{Files, Load};
use cf_types::{List, Text};

/// Files with the names that they were asked for, in this order, so that a test can see them. A call for which memory ran
/// out is left out.
#[derive(Drop)]
pub struct NotedFiles<F: Files + Drop> {
    pub files: F,
    pub asked: Vec<Text>,
}

impl<F: Files + Drop> Files for NotedFiles<F> {
    ghost told = { λ it. F.told it.files };

    ghost asked = { λ it. Some it.asked.items };

    ghost faults = { λ it. F.faults it.files };

    fn load(&mut self, name: &[u8], into: &mut Vec<u8>) -> Load {
        into.clear();
        let Ok(noted) = List::copied(*self.asked.allocator(), name) else {
            return Load::Memory;
        };
        if self.asked.reserve(1).is_err() {
            return Load::Memory;
        }
        let load = self.files.load(name, into);
        if load != Load::Memory {
            self.asked.push_reserved(noted);
        }
        load
    }
}
