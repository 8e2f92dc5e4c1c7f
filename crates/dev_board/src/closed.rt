//! How many scripts have ended.
ghost use Rattle.std.specs.Prelude.{◌≡◌};
ghost use Rattle.run_rules.specs.Counts as count;

use run_rules::{Act, Event};

#[tactic(auto, unfolding(run_rules::specs::Counts::closes_script))]
fn closes_script(event: &Event) -> bool
    ensures { result ≡ count.closes_script event.now }
{
    event.caller != 0 && matches!(event.act.get(), Act::End)
}

/// The ends of callers other than 0.
pub fn closed_in(events: &[Event]) -> u64
    ensures { result ≡ count.ends_of events.now }
{
    let mut closed = 0;
    for event in events {
        if closes_script(event) {
            closed += 1;
        }
    }
    closed
}
