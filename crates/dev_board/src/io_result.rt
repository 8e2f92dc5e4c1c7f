ghost use Rattle.std.specs.Prelude.{◌≡◌};
ghost use Rattle.run_rules.specs.Run.{answer_of};

use cf_types::Ticket;
use run_rules::IoAnswer;
use std::marker::Model;

/// The result of a transfer: its ticket, with the answer that belongs to it. It cannot be dropped: whoever has it has
/// to post it.
pub struct IoResult {
    ticket: Ticket,
    answer: IoAnswer,
}

impl Model for IoResult {
    ghost use Rattle.cf_types.specs.declared.machine.Ticket.{Ticket};

    ghost Value = { Ticket };

    ghost view = { λ done. done.ticket };
}

impl IoResult {
    /// The result of a transfer. The answer is the slot plus the value, modulo 2^32, or the device error of a bad spot.
    pub fn make(ticket: Ticket, answer: IoAnswer) -> IoResult
        requires { answer ≡ answer_of ticket }
        ensures { result ≡ ticket }
    {
        IoResult { ticket, answer }
    }

    /// The ticket. The result is used up.
    pub(crate) fn spend(self) -> Ticket
        ensures { result ≡ self }
    {
        let IoResult { ticket, answer: _ } = self;
        ticket
    }
}
