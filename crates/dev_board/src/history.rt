//! The history of a board grows.
ghost use Rattle.std.specs.Prelude.{◌≡◌, ◌<◌, ◌++◌, ◌∷◌, [], length, vec_len, vec_capacity};
ghost use Rattle.run_rules.specs.World.{opening};
ghost use Rattle.dev_board.specs.Witness.{told_did};

use crate::answer::LeaseStep;
use crate::told::Told;
use run_rules::{Event, Setup};
use run_world::append;

/// Appends the event of a caller, and returns its witness.
#[inline(always)]
pub fn append_event(
    setup: &Setup,
    events: &mut Vec<Event>,
    caller: u8,
    event: Event,
    lease: LeaseStep,
) -> Told
    requires room { vec_len events.old < vec_capacity events.old }
    ensures told { result ≡ told_did (opening setup.now) caller (length events.old.items) event lease }
    ensures events { events.new.items ≡ events.old.items ++ event ∷ [] }
{
    let place = events.len() as u64;
    let told = Told::of_event(setup, caller, place, &event, lease);
    append(events, event);
    told
}
