ghost use Rattle.std.specs.Prelude.{◌≡◌, ◌+◌, ◌≤◌, length, [], drop, IfOk, vec_capacity};
ghost use Rattle.cf_io.specs.Buffer.{told_of};
ghost use Rattle.cf_io.specs.Faults.{Counts};
ghost use Rattle.cf_io.specs.Put.{Flushes, Puts, is_stopped};
ghost use Rattle.cf_io.specs.Told.{Grows};

use crate::{Flush, Put, Sink};
use cf_types::Memory;
use std::alloc::Global;
use std::marker::Model;

/// How many bytes are held back at most.
pub const ROOM: usize = 65_536;

/// Holds back what is put until its room is full, and then hands it on to the sink below. What that sink does not take
/// stays held.
#[derive(Drop)]
pub struct Buffered<W: Sink + Drop> {
    below: W,
    held: Vec<u8>,
}

impl<W: Sink + Drop> Model for Buffered<W> {
    ghost use Rattle.std.specs.Prelude.{◌≤◌, length, vec_capacity};
    ghost use Rattle.cf_io.specs.Buffer.{Buffer};
    ghost use Rattle.cf_io.specs.declared.buffer.TheConstants.{ROOM};

    ghost Value = { Buffer };

    ghost view = { λ it. record { below = W.told it.below; held = it.held.items } };

    ghost invariant = { λ it. (length it.held.items ≤ ROOM) × (ROOM ≤ vec_capacity it.held) };
}

/// Removes the first bytes.
fn forget(held: &mut Vec<u8>, count: usize)
    requires { count ≤ length held.old.items }
    ensures rest { held.new.items ≡ drop count held.old.items }
    ensures capacity { vec_capacity held.new ≡ vec_capacity held.old }
{
    held.rotate_left(count);
    held.truncate(held.len() - count);
}

impl<W: Sink + Drop> Buffered<W> {
    /// A sink over this one that holds nothing so far.
    pub fn make(alloc: Global, below: W) -> Result<Buffered<W>, Memory>
        ensures { IfOk result (λ it. it ≡ record { below = W.told below; held = [] }) }
    {
        Ok(Buffered {
            below,
            held: Vec::with_capacity(alloc, ROOM)?,
        })
    }

    /// Hands on what is held here.
    fn hand_on(&mut self) -> Flush
        ensures counted { Counts (is_stopped result) self.old.below.faults self.new.below.faults }
        ensures kept { Grows [] (told_of self.old) (told_of self.new) }
        ensures empty { result ≡ Flush.All → self.new.held ≡ [] }
    {
        match self.below.put(&self.held) {
            Put::All => {
                self.held.clear();
                Flush::All
            }
            Put::Failed(count) => {
                forget(&mut self.held, count);
                Flush::Failed
            }
        }
    }

    /// Passes a piece on, if nothing is held here.
    fn pass_on(&mut self, piece: &[u8]) -> Put
        requires { self.old.held ≡ [] }
        ensures { Puts piece.now result (told_of self.old) (told_of self.new) }
    {
        self.below.put(piece)
    }

    /// Flushes the sink below, if nothing is held here.
    fn flush_below(&mut self) -> Flush
        requires { self.old.held ≡ [] }
        ensures { Flushes result (told_of self.old) (told_of self.new) }
    {
        self.below.flush()
    }

    /// Holds a piece back.
    fn hold(&mut self, piece: &[u8])
        requires { length self.old.held + length piece.now ≤ ROOM }
        ensures { Puts piece.now Put.All (told_of self.old) (told_of self.new) }
    {
        self.held.extend_from_slice(piece).unwrap();
    }

    /// How many more bytes can be held.
    fn room(&self) -> usize
        ensures { result + length self.now.held ≡ ROOM }
    {
        ROOM - self.held.len()
    }
}

impl<W: Sink + Drop> Sink for Buffered<W> {
    ghost told = { told_of };

    fn put(&mut self, piece: &[u8]) -> Put {
        if piece.len() <= self.room() {
            self.hold(piece);
            return Put::All;
        }
        match self.hand_on() {
            Flush::All => {}
            Flush::Failed => return Put::Failed(0),
        }
        if piece.len() > ROOM {
            return self.pass_on(piece);
        }
        self.hold(piece);
        Put::All
    }

    fn flush(&mut self) -> Flush {
        match self.hand_on() {
            Flush::All => self.flush_below(),
            Flush::Failed => Flush::Failed,
        }
    }
}
