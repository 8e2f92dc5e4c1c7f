ghost use Rattle.std.specs.Prelude.{◌≡◌, [], OnOk, OnErr, None};
ghost use Rattle.deed_effect.specs.Agreement.{slots_of};
ghost use Rattle.dev_board.specs.Booting.{Boots, GoesOn};
ghost use Rattle.history_laws.specs.Calm.{IsCalm};

use crate::board::Board;
use crate::stepped::Stepped;
use cf_types::Memory;
use ref_ledger::Slots;

/// The boot: steps of caller 0 until it has ended. If memory runs out, the events up to then stay, and the boot can be
/// continued.
pub fn run_boot<S: Slots>(board: &mut Board, slots: &mut S) -> Result<(), Memory>
    requires agree { S.states slots.old ≡ slots_of board.old.world }
    requires goes_on { board.old.stopped ≡ None }
    ensures agree { S.states slots.new ≡ slots_of board.new.world }
    ensures booted { OnOk result (Boots board.old board.new) }
    ensures calm { OnOk result (board.old.events ≡ [] → IsCalm board.new.events board.new.world) }
    ensures going_on { OnErr result (GoesOn board.old board.new) }
{
    board.stands();
    loop {
        match board.step(0, slots) {
            Stepped::Did(_, _) => {}
            Stepped::Closed => return Ok(()),
            Stepped::Waits(_) => unreachable!(),
            Stepped::Transfer(_, _) => unreachable!(),
            Stepped::Stopped(_, _) => unreachable!(),
            Stepped::Memory => return Err(Memory),
        }
    }
}
