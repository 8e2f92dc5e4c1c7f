//! Puts texts that are made line by line.
ghost use Rattle.std.specs.Prelude.{◌≡◌, ℕ, ◌++◌, ◌∷◌, [], IfOk, List, slice_get};
ghost use Rattle.cf_types.specs.Lines.{text_of};
ghost use Rattle.ioconf_text.specs.Seeking.{PutsLine};
ghost use Rattle.app_output.specs.NextLine.{IsNextLine};
ghost use Rattle.app_output.specs.Output.{Puts};

use crate::piece::put_piece;
use crate::stop::OutputStop;
use cf_io::Sink;
use cf_types::Memory;
use std::alloc::Global;

/// Lines that are made one at a time.
pub trait Lines {
    ghost lines: { Self → List (List ℕ) };

    /// Appends the line at a place, counted from 0, without its newline; `false` if there is none.
    fn put_line(&self, place: u64, line: &mut Vec<u8>) -> Result<bool, Memory>
        ensures { IfOk result (λ there. PutsLine (slice_get (lines self.now) place) there line.old.items line.new.items) };
}

/// Makes the line at a place with its newline, replacing what is there; `false` if there is none.
fn make_line<L: Lines>(lines: &L, place: u64, line: &mut Vec<u8>) -> Result<bool, Memory>
    ensures { IfOk result (λ there. IsNextLine (L.lines lines.now) place there line.new.items) }
{
    line.clear();
    if !lines.put_line(place, line)? {
        return Ok(false);
    }
    line.push(b'\n')?;
    Ok(true)
}

/// Puts the lines, one at a time. Memory never holds more lines than can be counted.
pub fn put_lines<L: Lines, S: Sink>(alloc: Global, lines: &L, out: &mut S) -> Result<(), OutputStop>
    ensures { Puts (text_of (L.lines lines.now)) (S.told out.old) (S.told out.new) result }
{
    let mut line = Vec::new(alloc);
    for place in 0..u64::MAX {
        let Ok(there) = make_line(lines, place, &mut line) else {
            return Err(OutputStop::Memory);
        };
        if !there {
            return Ok(());
        }
        put_piece(&line, out)?;
    }
    Err(OutputStop::Memory)
}

/// Puts a head with its newline, and the lines below it.
pub fn put_headed<L: Lines, S: Sink>(
    alloc: Global,
    head: &[u8],
    lines: &L,
    out: &mut S,
) -> Result<(), OutputStop>
    ensures { Puts (head.now ++ text_of (L.lines lines.now)) (S.told out.old) (S.told out.new) result }
{
    put_piece(head, out)?;
    put_lines(alloc, lines, out)
}
