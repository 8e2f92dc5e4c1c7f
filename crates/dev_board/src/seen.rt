//! A value that only proofs read.
ghost use Rattle.std.specs.Prelude.{◌≡◌};
ghost use Rattle.std.specs.Borrow.{ftrue};

use std::marker::{Model, PhantomData};

/// A note that a value was seen; contracts read the value as `value`. At run time the note is empty and owns nothing.
#[derive(Drop)]
pub struct Seen<A> {
    of: PhantomData<A>,
    pub ghost value: { A },
}

impl<A> Model for Seen<A> {
    ghost also_owns = { λ _. ftrue };
}

// The note owns nothing, so it may go to another thread if its type may.
unsafe impl<A: Send> Send for Seen<A> {}

impl<A> Seen<A> {
    /// The note of this value.
    #[inline(always)]
    pub fn of(value: &A) -> Seen<A>
        ensures { result.value ≡ value.now }
    {
        Seen { of: PhantomData }
    }
}
