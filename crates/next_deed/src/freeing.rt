//! What a caller frees, and what it gives back after its last command. See config_detach(9).
ghost use Rattle.std.specs.Prelude.{◌≡◌};
ghost use Rattle.run_rules.specs.Next as next;

use detach_engine::next_free;
use run_rules::{Choice, Deed, Wait};
use run_world::Going;

/// How a detachment goes on: the device condemned that was attached last is freed once nobody holds it.
#[tactic(auto, unfolding(run_rules::specs::Next::freeing))]
#[inline(always)]
pub fn plan_free(going: &Going, caller: u8) -> Choice
    ensures { next.freeing going.now caller ≡ result }
{
    match next_free(going.tree(), caller) {
        None => Choice::Ended,
        Some(serial) => {
            if going.refs().refers(serial) {
                Choice::Waits(Wait::Refs(serial))
            } else {
                Choice::Does(Deed::Free { of: serial })
            }
        }
    }
}

/// What is done after the last command: the caller gives back what it holds, and then it ends.
pub fn plan_closing(going: &Going, caller: u8) -> Choice
    ensures { next.closing going.now caller ≡ result }
{
    going.stands();
    match going.refs().first_held(caller) {
        Some(serial) => Choice::Does(Deed::Drop { of: serial }),
        None => Choice::Does(Deed::EndCaller),
    }
}
