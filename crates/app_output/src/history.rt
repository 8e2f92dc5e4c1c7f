//! Puts a history that was read, followed by the device tree.
ghost use Rattle.std.specs.Prelude.{◌++◌, map};
ghost use Rattle.run_rules.specs.Lines as history;
ghost use Rattle.app_output.specs.Output.{Puts};
ghost use Rattle.app_output.specs.RunText.{tree_of};

use crate::lines::{Lines, put_headed};
use crate::stop::OutputStop;
use crate::tree::put_tree;
use cf_io::Sink;
use cf_types::{DevLine, Memory};
use dev_event::{Event, put_event};
use std::alloc::Global;

/// The lines of events.
#[derive(Drop)]
struct Events<'a> {
    events: &'a [Event],
}

impl<'a> Lines for Events<'a> {
    ghost lines = { λ it. map history.line_of it.events.now };

    fn put_line(&self, place: u64, line: &mut Vec<u8>) -> Result<bool, Memory> {
        let Some(event) = self.events.get(place as usize) else {
            return Ok(false);
        };
        put_event(event, line)?;
        Ok(true)
    }
}

/// Puts the line `history 2`, the lines of the events, the line `tree`, and the lines of the devices.
pub fn put_history<S: Sink>(
    alloc: Global,
    events: &[Event],
    devices: &[DevLine],
    out: &mut S,
) -> Result<(), OutputStop>
    ensures { Puts (history.lines events.now ++ tree_of devices.now) (S.told out.old) (S.told out.new) result }
{
    put_headed(alloc, b"history 2\n", &Events { events }, out)?;
    put_tree(alloc, devices, out)
}
