//! What the transfers of a case go through.
ghost use Rattle.std.specs.Prelude.{⊤};

use cf_types::Ticket;
use dev_board::IoResult;
use drv_workers::{Medium, SoftMedium};
use std::sync::Wait;
use std::sync::atomic::{AtomicBool, AtomicU64, Ordering};
use std::thread;

/// How often a transfer looks whether the others have come.
const LOOKS: u32 = 10_000_000;

/// Keeps each transfer until so many are under way at the same time, for a bounded number of looks.
#[derive(Drop)]
pub struct Meeting {
    together: u64,
    /// How many transfers are under way.
    under_way: AtomicU64,
    /// So many were under way at the same time.
    is_met: AtomicBool,
}

impl Meeting {
    /// A meeting of so many transfers; one of none is met before any comes.
    pub fn make(together: u64) -> Meeting {
        Meeting {
            together,
            under_way: AtomicU64::new(0),
            is_met: AtomicBool::new(together == 0),
        }
    }

    /// Whether so many transfers were under way at the same time.
    pub fn is_met(&self) -> bool {
        self.is_met.load(Ordering::SeqCst)
    }

    /// Waits until so many are under way, or were at some time.
    fn await_others(&self) {
        for _ in 0..LOOKS {
            if self.under_way.load(Ordering::SeqCst) >= self.together {
                self.is_met.store(true, Ordering::SeqCst);
            }
            if self.is_met() {
                return;
            }
            thread::yield_now();
        }
    }
}

impl Medium for Meeting {
    ghost carried = { λ ticket. ⊤ };

    fn transfer<R: Wait>(&self, rt: &R, ticket: Ticket) -> IoResult {
        self.under_way.fetch_add(1, Ordering::SeqCst);
        self.await_others();
        self.under_way.fetch_sub(1, Ordering::SeqCst);
        SoftMedium.transfer(rt, ticket)
    }
}
