ghost use Rattle.std.specs.Prelude.{◌≡◌, IfOk};
ghost use Rattle.load_maker.specs.Generated as generated;

use cf_types::{Memory, Text};
use std::alloc::Global;

/// A bus on the root, and disks on the bus, both starred.
const CONF: &[u8] =
    b"device bus {[slot = -1]}\nattach bus at root, bus\ndevice disk\nattach disk at bus\nbus* at root\ndisk* at bus?\n";

/// The generated configuration: a bus that takes disks, each on a slot. See config(5).
pub fn conf_text(alloc: Global) -> Result<Text, Memory>
    ensures { IfOk result (λ text. text ≡ generated.conf_text) }
{
    Text::copied(alloc, CONF)
}
