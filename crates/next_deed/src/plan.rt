//! What a caller does next.
ghost use Rattle.std.specs.Prelude.{◌≡◌, ◌<◌, true, length};
ghost use Rattle.run_rules.specs.declared.deed.Choice.TheVariants.{Does};
ghost use Rattle.run_rules.specs.Next.{next_boot, finalise};
ghost use Rattle.run_rules.specs.Search as rule;
ghost use Rattle.next_deed.specs.Turns.{next_scan_at};

use crate::due::{due_turn, who_searches};
use crate::late::shown_by;
use crate::search::{arrival, parent_ref};
use run_rules::{Deed, Position, Turn, Wanted};
use run_world::{Going, place_of};

/// The position after a turn: after it, or at the first pair of the same row.
#[tactic(auto, unfolding(run_rules::specs::Search::after_turn))]
#[inline(always)]
fn after_turn(turn: Turn) -> Position
    requires { turn.at.spot < 1024 }
    ensures { result ≡ rule.after_turn turn }
{
    if turn.indirect {
        Position {
            attr: turn.at.attr,
            row: turn.at.row,
            spot: 0,
        }
    } else {
        Position {
            attr: turn.at.attr,
            row: 0,
            spot: turn.at.spot + 1,
        }
    }
}

/// What is done next on a scan.
#[tactic(auto, unfolding(run_rules::specs::Next::next_scan))]
#[inline(always)]
pub fn plan_scan(
    going: &Going,
    serial: u64,
    only: Option<u32>,
    filter: &[Wanted],
    position: Position,
) -> Deed
    ensures { next_scan_at going.now serial only filter.now position ≡ result }
{
    going.stands();
    let by = who_searches(going, serial);
    match due_turn(going, serial, &by, only, filter, position) {
        None => Deed::EndScan { of: serial },
        Some(turn) => Deed::Search {
            parent: serial,
            spot: turn.at.spot,
            moved: after_turn(turn),
            got: arrival(going, serial, by.parent, turn.place, turn.at.spot),
        },
    }
}

/// What the finalizer of a device does.
#[tactic(auto, unfolding(run_rules::specs::Next::finalise))]
#[inline(never)]
pub fn plan_call(going: &Going, serial: u64, listed: Option<u64>, anew: bool) -> Deed
    ensures { finalise going.now serial listed anew ≡ result }
{
    match shown_by(going, serial) {
        None => Deed::Finalise {
            of: serial,
            shown: None,
            got: None,
            listed,
            anew,
        },
        Some(spot) => Deed::Finalise {
            of: serial,
            shown: Some(spot),
            got: arrival(
                going,
                serial,
                parent_ref(going, serial),
                place_of(going.setup(), spot),
                spot,
            ),
            listed,
            anew,
        },
    }
}

/// What the boot does without a frame: interrupts first, then the finalizers, in passes until none answers 1. See
/// autoconf(9).
pub fn plan_boot(going: &Going) -> Deed
    requires called { going.now.pass_repeats ≡ true → 0 < length going.now.finalisers }
    ensures { next_boot going.now ≡ Does result }
{
    let held = &going.held;
    let core = &held.core;
    if !core.interrupts_on {
        return Deed::BeginInterrupts;
    }
    if core.next_finaliser < core.finalisers.len() as u64 {
        let serial = core.finalisers[core.next_finaliser as usize];
        return plan_call(going, serial, Some(core.next_finaliser), false);
    }
    if core.pass_repeats {
        return plan_call(going, core.finalisers[0], Some(0), true);
    }
    Deed::EndCaller
}
