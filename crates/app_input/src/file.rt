ghost use Rattle.std.specs.Prelude.{◌≡◌, [], ◌∷◌};
ghost use Rattle.app_input.specs.Asked.{IsAskedFor};
ghost use Rattle.app_input.specs.Inputs.{IsAbsent, IsTooLong, ReadsFile};
ghost use Rattle.app_words.specs.Status.{Counts, status_of};

use app_words::Status;
use cf_io::{Files, Load};
use cf_types::{List, Text};
use std::alloc::Global;

/// There is no file of this name.
fn absent(alloc: Global, name: &[u8]) -> Status
    ensures { IsAbsent name.now result }
{
    match List::copied(alloc, name) {
        Ok(name) => Status::Absent { name },
        Err(_) => Status::Memory,
    }
}

/// The file of this name is too long.
fn too_long(alloc: Global, name: &[u8]) -> Status
    ensures { IsTooLong name.now result }
{
    match List::copied(alloc, name) {
        Ok(name) => Status::TooLong { name },
        Err(_) => Status::Memory,
    }
}

/// Loads a file that has to be there.
pub fn load_file<F: Files>(alloc: Global, files: &mut F, name: &[u8]) -> Result<Text, Status>
    ensures told { F.told files.new ≡ F.told files.old }
    ensures reads { ReadsFile (F.told files.old) name.now result }
    ensures asked { IsAskedFor (name.now ∷ []) (status_of result) (F.asked files.old) (F.asked files.new) }
    ensures counted { Counts (F.faults files.old) (F.faults files.new) result }
{
    let mut text = Vec::new(alloc);
    match files.load(name, &mut text) {
        Load::Whole => Ok(List::from_vec(text)),
        Load::Absent => Err(absent(alloc, name)),
        Load::TooLong => Err(too_long(alloc, name)),
        Load::Failed => Err(Status::ReadFault),
        Load::Memory => Err(Status::Memory),
    }
}
