ghost use Rattle.std.specs.Prelude.{◌≡◌, ◌≤◌, IfOk, None, Some};
ghost use Rattle.cf_io.specs.Faults.{Counts};
ghost use Rattle.cf_io.specs.Load.{is_failed, Fills, Loads};
ghost use Rattle.cf_io.specs.Memory.{file_named};
ghost use Rattle.app_input.specs.Inputs.{made_files};

use cf_io::{Files, Load, MemFile, MemFiles};
use cf_types::{List, Memory, Text};
use load_maker::{conf_text, machine_text};
use std::alloc::Global;
use std::marker::Model;

/// Files that the program made. No reading of them fails, so its count of faults stays at 0.
#[derive(Drop)]
pub struct MadeFiles {
    files: MemFiles,
}

impl Model for MadeFiles {
    ghost use Rattle.std.specs.Prelude.{◌≡◌, List, []};
    ghost use Rattle.cf_io.specs.declared.file.MemFile.{MemFile};

    ghost Value = { List MemFile };

    ghost view = { λ it. it.files.files };

    ghost invariant = { λ it. it.files.fail ≡ [] };
}

impl Files for MadeFiles {
    ghost told = { λ it. Some (file_named it) };

    ghost asked = { λ _. None };

    ghost faults = { λ it. 0 };

    fn load(&mut self, name: &[u8], into: &mut Vec<u8>) -> Load {
        self.files.load(name, into)
    }
}

/// A file of this name that holds these bytes.
fn made_file(alloc: Global, name: &[u8], bytes: Text) -> Result<MemFile, Memory>
    ensures { IfOk result (λ file. file ≡ record { name = name.now; bytes = bytes }) }
{
    Ok(MemFile {
        name: Text::copied(alloc, name)?,
        bytes,
    })
}

/// The generated configuration and the generated machine with this many spots, under the names `conf` and `mach`.
#[tactic(auto, unfolding(crate::specs::Inputs::made_files))]
pub fn made_files(alloc: Global, count: u32) -> Result<MadeFiles, Memory>
    requires some { 1 ≤ count }
    requires few { count ≤ 1000 }
    ensures { IfOk result (λ files. files ≡ made_files count) }
{
    let mut files = List::make(alloc);
    files.push(made_file(alloc, b"conf", conf_text(alloc)?)?)?;
    files.push(made_file(alloc, b"mach", machine_text(alloc, count)?)?)?;
    Ok(MadeFiles {
        files: MemFiles::make(files, List::make(alloc)),
    })
}
