//! Whether two worlds are the same: whether all is the same that later events depend on. What was printed is not part of a world.
ghost use Rattle.std.specs.Prelude.{◌≡◌, ◌↔◌, IsTrue};
ghost use Rattle.run_rules.specs.declared.world.Setup.{Setup};
ghost use Rattle.plain_world.specs.Plain.{world_of};

use cf_types::Ticket;
use plain_world::{Caller, Live, Plain};
use run_rules::{Activity, Deferred, Dev, Frame, Key, Position, Ref, Wanted};

/// Values that can be compared.
pub trait Same {
    /// Whether the values are the same.
    fn is_same(&self, other: &Self) -> bool
        ensures { IsTrue result ↔ (self.now ≡ other.now) };
}

impl Same for u64 {
    fn is_same(&self, other: &u64) -> bool {
        *self == *other
    }
}

impl Same for u16 {
    fn is_same(&self, other: &u16) -> bool {
        *self == *other
    }
}

impl Same for Dev {
    fn is_same(&self, other: &Dev) -> bool {
        self.serial == other.serial
            && self.row == other.row
            && self.unit == other.unit
            && self.parent == other.parent
            && self.spot == other.spot
            && self.asleep == other.asleep
            && self.condemned == other.condemned
    }
}

impl Same for Ref {
    fn is_same(&self, other: &Ref) -> bool {
        self.serial == other.serial && self.caller == other.caller
    }
}

impl Same for Wanted {
    fn is_same(&self, other: &Wanted) -> bool {
        self.place == other.place && self.value == other.value
    }
}

impl Same for Position {
    fn is_same(&self, other: &Position) -> bool {
        self.attr == other.attr && self.row == other.row && self.spot == other.spot
    }
}

impl Same for Key {
    fn is_same(&self, other: &Key) -> bool {
        match (*self, *other) {
            (Key::Interrupts, Key::Interrupts) => true,
            (Key::Parent(a), Key::Parent(b)) => a == b,
            _ => false,
        }
    }
}

impl Same for Deferred {
    fn is_same(&self, other: &Deferred) -> bool {
        self.key.is_same(&other.key) && self.child == other.child
    }
}

impl Same for Ticket {
    fn is_same(&self, other: &Ticket) -> bool {
        self.caller == other.caller
            && self.number == other.number
            && self.serial == other.serial
            && self.slot == other.slot
            && self.bad == other.bad
            && self.value == other.value
    }
}

impl Same for Activity {
    fn is_same(&self, other: &Activity) -> bool {
        match (*self, *other) {
            (Activity::Idle, Activity::Idle) => true,
            (Activity::Transfer(a), Activity::Transfer(b)) => a.is_same(&b),
            (Activity::Frees(a), Activity::Frees(b)) => a == b,
            (Activity::Scans, Activity::Scans) => true,
            (Activity::Power(k, a), Activity::Power(l, b)) => k == l && a == b,
            (Activity::Ended, Activity::Ended) => true,
            _ => false,
        }
    }
}

/// Whether two lists have the same values.
fn same_all<T: Same>(a: &[T], b: &[T]) -> bool
    ensures { IsTrue result ↔ (a.now ≡ b.now) }
{
    match (a, b) {
        ([], []) => true,
        ([x, xs @ ..], [y, ys @ ..]) => x.is_same(y) && same_all(xs, ys),
        _ => false,
    }
}

impl Same for Frame {
    fn is_same(&self, other: &Frame) -> bool {
        match (self, other) {
            (
                Frame::Scan {
                    serial: a,
                    only: b,
                    filter: c,
                    position: d,
                },
                Frame::Scan {
                    serial: e,
                    only: f,
                    filter: g,
                    position: h,
                },
            ) => *a == *e && *b == *f && same_all(c.items(), g.items()) && d.is_same(h),
            (Frame::Finaliser { serial: a }, Frame::Finaliser { serial: b }) => *a == *b,
            _ => false,
        }
    }
}

impl Same for Caller {
    fn is_same(&self, other: &Caller) -> bool {
        self.over() == other.over()
            && self.doing().is_same(&other.doing())
            && same_all(self.stack(), other.stack())
    }
}

impl Same for Live {
    fn is_same(&self, other: &Live) -> bool {
        self.next() == other.next() && same_all(self.devices(), other.devices())
    }
}

/// Whether two worlds are the same.
pub fn same_world(a: &Plain, b: &Plain) -> bool
    ensures { (s : Setup) → IsTrue result ↔ (world_of s a.now ≡ world_of s b.now) }
{
    a.live.is_same(&b.live)
        && same_all(a.refs.list(), b.refs.list())
        && same_all(&a.sole, &b.sole)
        && same_all(a.absent.spots(), b.absent.spots())
        && same_all(a.hidden.spots(), b.hidden.spots())
        && a.interrupts_on == b.interrupts_on
        && a.power_owner == b.power_owner
        && same_all(a.deferred.list(), b.deferred.list())
        && same_all(&a.finalisers, &b.finalisers)
        && a.next_finaliser == b.next_finaliser
        && a.pass_repeats == b.pass_repeats
        && same_all(&a.callers, &b.callers)
}
