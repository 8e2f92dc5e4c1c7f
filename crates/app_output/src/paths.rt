//! Puts paths, one a line.
ghost use Rattle.cf_types.specs.Lines.{text_of};
ghost use Rattle.app_output.specs.Output.{Puts};

use crate::lines::{Lines, put_lines};
use crate::stop::OutputStop;
use cf_io::Sink;
use cf_types::{Memory, Text};
use std::alloc::Global;

/// The lines of paths.
#[derive(Drop)]
struct Paths<'a> {
    paths: &'a [Text],
}

impl<'a> Lines for Paths<'a> {
    ghost lines = { λ it. it.paths.now };

    fn put_line(&self, place: u64, line: &mut Vec<u8>) -> Result<bool, Memory> {
        let Some(path) = self.paths.get(place as usize) else {
            return Ok(false);
        };
        line.extend_from_slice(path.items())?;
        Ok(true)
    }
}

/// Puts the paths, each with a newline.
pub fn put_paths<S: Sink>(alloc: Global, paths: &[Text], out: &mut S) -> Result<(), OutputStop>
    ensures { Puts (text_of paths.now) (S.told out.old) (S.told out.new) result }
{
    put_lines(alloc, &Paths { paths }, out)
}
