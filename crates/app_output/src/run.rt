//! Puts the history of a board and its device tree.
ghost use Rattle.std.specs.Prelude.{◌++◌, map};
ghost use Rattle.run_rules.specs.Lines as history;
ghost use Rattle.run_rules.specs.Tree as tree;
ghost use Rattle.app_output.specs.Output.{Puts};
ghost use Rattle.app_output.specs.RunText.{run_text};

use crate::lines::{Lines, put_headed};
use crate::listing::put_listing;
use crate::stop::OutputStop;
use crate::tree::put_tree;
use cf_io::Sink;
use cf_types::Memory;
use dev_board::Board;
use dev_event::put_event;
use std::alloc::Global;

/// The lines of the events of a board.
#[derive(Drop)]
struct Events<'a> {
    board: &'a Board,
}

impl<'a> Lines for Events<'a> {
    ghost lines = { λ it. map history.line_of it.board.now.events };

    fn put_line(&self, place: u64, line: &mut Vec<u8>) -> Result<bool, Memory> {
        if place >= self.board.events() {
            return Ok(false);
        }
        put_event(self.board.event(place), line)?;
        Ok(true)
    }
}

/// Puts the device tree of a board.
fn put_board_tree<S: Sink>(alloc: Global, board: &Board, out: &mut S) -> Result<(), OutputStop>
    ensures { Puts (tree.tree_text board.now.world) (S.told out.old) (S.told out.new) result }
{
    let Ok(devices) = board.tree_lines() else {
        return Err(OutputStop::Memory);
    };
    put_tree(alloc, devices.items(), out)
}

/// Puts the history and the tree.
fn put_rest<S: Sink>(alloc: Global, board: &Board, out: &mut S) -> Result<(), OutputStop>
    ensures { Puts (history.lines board.now.events ++ tree.tree_text board.now.world) (S.told out.old) (S.told out.new) result }
{
    put_headed(alloc, b"history 2\n", &Events { board }, out)?;
    put_board_tree(alloc, board, out)
}

/// Puts the listing of a board's tables, its history and its device tree.
pub fn put_run<S: Sink>(alloc: Global, board: &Board, out: &mut S) -> Result<(), OutputStop>
    ensures { Puts (run_text board.now.world.setup.tables board.now.events board.now.world) (S.told out.old) (S.told out.new) result }
{
    put_listing(alloc, board.tables(), board.graph(), out)?;
    put_rest(alloc, board, out)
}
