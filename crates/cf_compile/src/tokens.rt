//! Drops tokens that nobody reads later.
ghost use Rattle.std.specs.Prelude.{◌≡◌, map};
ghost use Rattle.cf_compile.specs.Emptied.{emptied_at, lightened};

use cf_types::{List, PieceList, Pieces, Placed, Stmt};
use std::alloc::Global;

/// Removes the tokens of a statement that may have any.
#[inline(always)]
fn empty(alloc: Global, statement: &mut Placed)
    ensures { statement.new ≡ emptied_at statement.old }
{
    if let Stmt::Free { rest, .. } = &mut statement.stmt {
        *rest = Pieces::own(PieceList::make(alloc));
    }
}

/// Placed statements without the tokens of those that may have any.
fn without_tokens(alloc: Global, placed: List<Placed>) -> List<Placed>
    ensures { result ≡ map emptied_at placed }
{
    let mut kept = placed.into_vec();
    for place in 0..kept.len() {
        empty(alloc, &mut kept[place]);
    }
    List::from_vec(kept)
}

/// The most statements that keep their tokens: to free these takes time, and more than a few would need much memory.
const FEW_STATEMENTS: usize = 4_096;

/// Placed statements, if they are many without the tokens of those that may have any: no table depends on these.
pub fn lightened(alloc: Global, placed: List<Placed>) -> List<Placed>
    ensures { result ≡ lightened placed }
{
    if placed.len() <= FEW_STATEMENTS {
        return placed;
    }
    without_tokens(alloc, placed)
}
