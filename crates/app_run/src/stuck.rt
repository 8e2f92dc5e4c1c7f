//! What is said of scripts that stand still.
ghost use Rattle.std.specs.Prelude.{◌≡◌, ◌++◌, IfOk, OnOk};
ghost use Rattle.app_run.specs.StuckText.{stuck_line, stuck_text};

use cf_types::{List, Memory, Text};
use dev_board::Board;
use std::alloc::Global;

/// Appends the line of a caller that waits.
fn put_line(text: &mut Vec<u8>, line: &[u8]) -> Result<(), Memory>
    ensures { OnOk result (text.new.items ≡ text.old.items ++ stuck_line line.now) }
{
    text.extend_from_slice(b"stuck: ")?;
    text.extend_from_slice(line)?;
    text.push(b'\n')?;
    Ok(())
}

/// A line for each caller that waits: `stuck: 1 waits for wd0, held by 2`.
pub fn stuck_text(alloc: Global, board: &Board) -> Result<Text, Memory>
    ensures { IfOk result (λ text. text ≡ stuck_text board.now.world) }
{
    let lines = board.wait_lines()?;
    let mut text = Vec::new(alloc);
    for line in lines.items() {
        put_line(&mut text, line.items())?;
    }
    Ok(List::from_vec(text))
}
