//! What transfers go through.
ghost use Rattle.std.specs.Prelude.{◌≡◌, ⊤};
ghost use Rattle.cf_types.specs.declared.machine.Ticket.{Ticket};

use cf_types::Ticket;
use deed_event::answer_for;
use dev_board::IoResult;
use std::sync::Wait;

/// Hardware that carries out transfers. A call may wait, and others may be in progress at the same time. Contracts see
/// which transfers were carried out, and code that takes any medium learns it of a call of `transfer` alone.
pub trait Medium {
    ghost carried: { Ticket → Type 0 };

    /// Carries out a transfer. The result is that of this ticket.
    fn transfer<R: Wait>(&self, rt: &R, ticket: Ticket) -> IoResult
        ensures result { result ≡ ticket }
        ensures carried { carried ticket };
}

/// A medium in software, which answers at once.
#[derive(Drop)]
pub struct SoftMedium;

impl Medium for SoftMedium {
    ghost carried = { λ ticket. ⊤ };

    fn transfer<R: Wait>(&self, rt: &R, ticket: Ticket) -> IoResult {
        let _ = rt;
        IoResult::make(ticket, answer_for(ticket))
    }
}
