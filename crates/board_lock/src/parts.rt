//! What the names of a run stand for.
ghost use Rattle.std.specs.Prelude.{◌≡◌, ◌≢◌, ◌<◌, ◌+◌, ℕ, IfOk, Some, slice_get};
ghost use Rattle.std.specs.Arc.{arc_value};
ghost use Rattle.ref_ledger.specs.declared.state.SlotState.TheVariants.{Condemned};
ghost use Rattle.lease_table.specs.Shown.{states_in};
ghost use Rattle.deed_effect.specs.Agreement.{slots_of};
ghost use Rattle.dev_board.specs.Booting.{IsBooted};
ghost use Rattle.board_lock.specs.Boards.{spots_of};
ghost use Rattle.board_lock.specs.Seats.{Parts, PartsFit, published_below};

use cf_types::{List, Memory};
use dev_board::Board;
use lease_table::{LeaseKeeper, LeaseSeat, LeaseTable};
use std::alloc::Global;
use std::marker::Model;
use std::sync::Arc;
use std::sync::ledger::Blank;

/// Three blank ledgers, and the table of the leases, for each side of the lock, with its keeper and its seats.
#[derive(Drop)]
pub struct RunParts {
    pub(crate) closings: Blank,
    pub(crate) dids: Blank,
    pub(crate) stops: Blank,
    pub(crate) outside: Arc<LeaseTable, Global>,
    pub(crate) behind: Arc<LeaseTable, Global>,
    pub(crate) keeper: LeaseKeeper,
    pub(crate) callers: List<LeaseSeat>,
}

impl Model for RunParts {
    ghost Value = { Parts };

    ghost view = { λ p. record {
      closings = p.closings.name;
      dids = p.dids.name;
      stops = p.stops.name;
      seats = p.closings.parts;
      table = p.keeper.table;
      states = states_in p.keeper.view;
      callers = p.callers;
    } };

    ghost invariant = { λ p. (p.dids.parts ≡ p.closings.parts) × (p.stops.parts ≡ p.closings.parts)
        × (arc_value p.outside ≡ p.keeper.table) × (arc_value p.behind ≡ p.keeper.table) };
}

// Publishes the slot of a spot if a device is on it.
fn publish_at(table: &LeaseTable, keeper: &mut LeaseKeeper, board: &Board, slot: u16)
    requires table { keeper.old.table ≡ table.now }
    requires inside { slot < spots_of board.now.world }
    requires start { states_in keeper.old.view ≡ published_below (slots_of board.now.world) slot }
    requires none { (x : ℕ) → slice_get (slots_of board.now.world) x ≢ Some Condemned }
    ensures states { states_in keeper.new.view ≡ published_below (slots_of board.now.world) (slot + 1) }
    ensures same { keeper.new.table ≡ keeper.old.table }
{
    if !board.occupied(slot) {
        return;
    }
    table.publish(keeper, slot);
}

// Publishes the slot of each spot with a device on it.
fn publish(table: &LeaseTable, keeper: &mut LeaseKeeper, board: &Board)
    requires table { keeper.old.table ≡ table.now }
    requires start { states_in keeper.old.view ≡ published_below (slots_of board.now.world) 0 }
    requires none { (x : ℕ) → slice_get (slots_of board.now.world) x ≢ Some Condemned }
    ensures states { states_in keeper.new.view ≡ slots_of board.now.world }
    ensures same { keeper.new.table ≡ keeper.old.table }
{
    for slot in 0..board.spots() {
        publish_at(table, keeper, board, slot);
    }
}

impl RunParts {
    /// The parts of a run, for a board that has done its boot and nothing else.
    pub fn make(alloc: Global, board: &Board) -> Result<RunParts, Memory>
        requires booted { IsBooted board.now }
        ensures { IfOk result (λ p. PartsFit p board.now) }
    {
        board.stands();
        let seats = board.callers();
        let (table, mut keeper, callers) = LeaseTable::make(alloc, board.spots(), seats)?;
        publish(&table, &mut keeper, board);
        let outside = Arc::new(alloc, table)?;
        let behind = Arc::try_clone(&outside)?;
        Ok(RunParts {
            closings: Blank::new(seats as u64),
            dids: Blank::new(seats as u64),
            stops: Blank::new(seats as u64),
            outside,
            behind,
            keeper,
            callers,
        })
    }
}
