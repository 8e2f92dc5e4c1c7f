//! Puts the lines of a device tree.
ghost use Rattle.std.specs.Prelude.{map};
ghost use Rattle.run_rules.specs.Tree as tree;
ghost use Rattle.app_output.specs.Output.{Puts};
ghost use Rattle.app_output.specs.RunText.{tree_of};

use crate::lines::{Lines, put_headed};
use crate::stop::OutputStop;
use cf_io::Sink;
use cf_types::{DevLine, Memory};
use std::alloc::Global;
use tree_text::put_dev;

/// The lines of devices.
#[derive(Drop)]
struct Devices<'a> {
    lines: &'a [DevLine],
}

impl<'a> Lines for Devices<'a> {
    ghost lines = { λ it. map tree.dev_text it.lines.now };

    fn put_line(&self, place: u64, line: &mut Vec<u8>) -> Result<bool, Memory> {
        let Some(device) = self.lines.get(place as usize) else {
            return Ok(false);
        };
        put_dev(device, line)?;
        Ok(true)
    }
}

/// Puts the line `tree`, and the lines of the devices.
pub fn put_tree<S: Sink>(alloc: Global, devices: &[DevLine], out: &mut S) -> Result<(), OutputStop>
    ensures { Puts (tree_of devices.now) (S.told out.old) (S.told out.new) result }
{
    put_headed(alloc, b"tree\n", &Devices { lines: devices }, out)
}
