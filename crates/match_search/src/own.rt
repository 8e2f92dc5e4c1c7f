//! The match lines of each spot.
ghost use Rattle.std.specs.Prelude.{[], IfOk, OnOk, length};
ghost use Rattle.run_rules.specs.MatchLines.{AreOwnLines, HaveLineMore, lines_in};

use cf_types::{MatchLine, Memory, Spot};
use std::alloc::Global;

/// No line for any spot.
fn no_lines(alloc: Global, spots: &[Spot]) -> Result<Vec<Vec<MatchLine>>, Memory>
    ensures { IfOk result (λ lists. AreOwnLines (length spots.now) [] (lines_in lists.items)) }
{
    let mut lists = Vec::with_capacity(alloc, spots.len())?;
    for _spot in spots {
        lists.push(Vec::new(alloc))?;
    }
    Ok(lists)
}

/// Adds a line to those of its spot, if it names a spot that exists.
fn add_line(lists: &mut Vec<Vec<MatchLine>>, line: &MatchLine) -> Result<(), Memory>
    ensures { OnOk result (HaveLineMore line.now (lines_in lists.old.items) (lines_in lists.new.items)) }
{
    if let Some(spot) = line.spot {
        let place = spot as usize;
        if place < lists.len() {
            lists[place].push(*line)?;
        }
    }
    Ok(())
}

/// The lines of each spot, in their order.
pub fn own_lines(
    alloc: Global,
    spots: &[Spot],
    lines: &[MatchLine],
) -> Result<Vec<Vec<MatchLine>>, Memory>
    ensures { IfOk result (λ lists. AreOwnLines (length spots.now) lines.now (lines_in lists.items)) }
{
    let mut lists = no_lines(alloc, spots)?;
    for line in lines {
        add_line(&mut lists, line)?;
    }
    Ok(lists)
}
