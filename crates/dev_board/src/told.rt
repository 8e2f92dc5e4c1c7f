ghost use Rattle.std.specs.Prelude.{◌≡◌};
ghost use Rattle.run_rules.specs.World.{opening};

use crate::answer::{Answer, LeaseStep};
use crate::seen::Seen;
use cf_types::Ticket;
use run_rules::{Event, Setup};
use std::marker::Model;

/// The witness of an answer: of which board it is, for which caller, and of which event. Only this crate makes one; it
/// takes no memory. Nearly all of it is notes for proofs, so it is small.
#[derive(Drop)]
pub struct Told {
    setup: Seen<Setup>,
    caller: Seen<u8>,
    answer: Seen<Answer>,
    event: Option<Seen<Event>>,
    lease: LeaseStep,
}

impl Model for Told {
    ghost use Rattle.dev_board.specs.Witness.{Witness};
    ghost use Rattle.run_rules.specs.World.{opening};
    ghost use Rattle.std.specs.Prelude.{option_map};

    ghost Value = { Witness };

    ghost view = { λ t. record {
      began = opening t.setup.value;
      caller = t.caller.value;
      answer = t.answer.value;
      event = option_map (λ e. e.value) t.event;
      lease = t.lease;
    } };
}

impl Told {
    ghost use Rattle.dev_board.specs.Witness.{told_did, told_stale, told_stop, told_transfer};

    /// The witness of an event of a caller, with what it means for the caller's leases.
    #[inline(always)]
    pub(crate) fn of_event(
        setup: &Setup,
        caller: u8,
        place: u64,
        event: &Event,
        lease: LeaseStep,
    ) -> Told
        ensures { result ≡ told_did (opening setup.now) caller place event.now lease }
    {
        Told {
            setup: Seen::of(setup),
            caller: Seen::of(&caller),
            answer: Seen::of(&Answer::Did(place)),
            event: Some(Seen::of(event)),
            lease,
        }
    }

    /// The witness of a transfer whose result its caller waits for.
    pub(crate) fn of_transfer(setup: &Setup, caller: u8, ticket: Ticket) -> Told
        ensures { result ≡ told_transfer (opening setup.now) caller ticket }
    {
        Told {
            setup: Seen::of(setup),
            caller: Seen::of(&caller),
            answer: Seen::of(&Answer::Transfer(ticket)),
            event: None,
            lease: LeaseStep::Keep,
        }
    }

    /// The witness of a result whose ticket is not the one that the board keeps.
    pub(crate) fn of_stale(setup: &Setup, caller: u8, held: Option<Ticket>) -> Told
        ensures { result ≡ told_stale (opening setup.now) caller held }
    {
        Told {
            setup: Seen::of(setup),
            caller: Seen::of(&caller),
            answer: Seen::of(&Answer::Stale(held)),
            event: None,
            lease: LeaseStep::Keep,
        }
    }

    /// The witness of a stop.
    pub(crate) fn of_stop(setup: &Setup, caller: u8, first: u8) -> Told
        ensures { result ≡ told_stop (opening setup.now) caller first }
    {
        Told {
            setup: Seen::of(setup),
            caller: Seen::of(&caller),
            answer: Seen::of(&Answer::Stopped(first)),
            event: None,
            lease: LeaseStep::Keep,
        }
    }

    /// What the answer means for the leases of its caller.
    pub fn lease(&self) -> LeaseStep
        ensures { result ≡ self.now.lease }
    {
        self.lease
    }
}
