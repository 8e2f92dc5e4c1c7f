//! Puts a run that was watched, with what was read of it.
ghost use Rattle.std.specs.Prelude.{◌≡◌, ◌++◌, OnOk, map};
ghost use Rattle.app_output.specs.NoteText.{lost_text, note_text, notes_text, reading_text, watch_text};
ghost use Rattle.app_output.specs.Output.{Puts};

use crate::count::put_count;
use crate::lines::{Lines, put_headed};
use crate::run::put_run;
use crate::stop::OutputStop;
use cf_io::Sink;
use cf_types::Memory;
use dev_board::Board;
use dev_monitor::{Note, Reading};
use std::alloc::Global;

/// Appends how many notes were lost, if any were.
fn put_lost(line: &mut Vec<u8>, lost: u64) -> Result<(), Memory>
    ensures { OnOk result (line.new.items ≡ line.old.items ++ lost_text lost) }
{
    if lost == 0 {
        return Ok(());
    }
    line.extend_from_slice(b" lost ")?;
    put_count(line, lost)
}

/// Appends an event with its device and its parent.
fn put_note(line: &mut Vec<u8>, note: &Note) -> Result<(), Memory>
    ensures { OnOk result (line.new.items ≡ line.old.items ++ note_text note.now) }
{
    if note.attach {
        line.extend_from_slice(b" device-attach ")?;
    } else {
        line.extend_from_slice(b" device-detach ")?;
    }
    line.extend_from_slice(note.device.bytes())?;
    line.extend_from_slice(b" ")?;
    line.extend_from_slice(note.parent.bytes())?;
    put_lost(line, note.lost)
}

/// Appends the line of a read.
fn put_reading(line: &mut Vec<u8>, reading: &Reading) -> Result<(), Memory>
    ensures { OnOk result (line.new.items ≡ line.old.items ++ reading_text reading.now) }
{
    put_count(line, u64::from(reading.who))?;
    match &reading.note {
        Some(note) => put_note(line, note),
        None => {
            line.extend_from_slice(b" none")?;
            Ok(())
        }
    }
}

/// The lines of reads.
#[derive(Drop)]
struct Readings<'a> {
    readings: &'a [Reading],
}

impl<'a> Lines for Readings<'a> {
    ghost lines = { λ it. map reading_text it.readings.now };

    fn put_line(&self, place: u64, line: &mut Vec<u8>) -> Result<bool, Memory> {
        let Some(reading) = self.readings.get(place as usize) else {
            return Ok(false);
        };
        put_reading(line, reading)?;
        Ok(true)
    }
}

/// Puts the line `notes`, and the lines of reads.
fn put_notes<S: Sink>(alloc: Global, readings: &[Reading], out: &mut S) -> Result<(), OutputStop>
    ensures { Puts (notes_text readings.now) (S.told out.old) (S.told out.new) result }
{
    put_headed(alloc, b"notes\n", &Readings { readings }, out)
}

/// Puts the listing of a board's tables, its history and its device tree, and then what was read of it.
pub fn put_watch<S: Sink>(
    alloc: Global,
    board: &Board,
    readings: &[Reading],
    out: &mut S,
) -> Result<(), OutputStop>
    ensures { Puts (watch_text board.now.world.setup.tables board.now.events board.now.world readings.now) (S.told out.old) (S.told out.new) result }
{
    put_run(alloc, board, out)?;
    put_notes(alloc, readings, out)
}
