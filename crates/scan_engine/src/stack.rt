//! What a caller goes on with.
ghost use Rattle.std.specs.Prelude.{◌≡◌, ◌<◌, ◌≤◌, ◌+◌, ◌||◌, ◌==◌, ℕ, [], ◌∷◌, ◌++◌, length, map, IsTrue, OnErr, OnOk, option_copied};
ghost use Rattle.std.specs.List.{list_any};
ghost use Rattle.run_rules.specs.World.{frame_serial, has};
ghost use Rattle.run_rules.specs.After.{moved_top, under_top};
ghost use Rattle.scan_engine.specs.Frames.{is_scanning, moved, top_of};

use cf_types::Memory;
use run_rules::{Frame, Position};
use std::alloc::Global;
use std::marker::Model;

/// The frames of a caller. Contracts see the list of them, the top first, and for how many more there is room.
#[derive(Drop)]
pub struct Stack {
    frames: Vec<Frame>,
}

impl Model for Stack {
    ghost use Rattle.scan_engine.specs.Frames.{Frames};
    ghost use Rattle.std.specs.Prelude.{reverse, ◌-◌, length, vec_capacity};

    ghost Value = { Frames };

    ghost view = { λ stack. record { frames = reverse stack.frames.items; room = vec_capacity stack.frames - length stack.frames.items } };
}

#[inline(always)]
fn serial_of(frame: &Frame) -> u64
    ensures { result ≡ frame_serial frame.now }
{
    match frame {
        Frame::Scan {
            serial,
            only: _,
            filter: _,
            position: _,
        } => *serial,
        Frame::Finaliser { serial } => *serial,
    }
}

/// Whether one of these frames is for the device of this serial.
fn has_frame(frames: &[Frame], serial: u64) -> bool
    ensures { result ≡ list_any (λ f. frame_serial f == serial) frames.now }
{
    frames.iter().any(|frame| serial_of(frame) == serial)
}

/// Appends the serials of the devices that these frames are for.
fn add_serials(frames: &[Frame], serials: &mut Vec<u64>) -> Result<(), Memory>
    ensures { OnOk result (serials.new.items ≡ serials.old.items ++ map frame_serial frames.now) }
{
    for frame in frames {
        serials.push(serial_of(frame))?;
    }
    Ok(())
}

/// Moves a scan to a position.
#[inline(always)]
fn move_frame(frame: &mut Frame, to: Position)
    ensures { frame.new ≡ moved to frame.old }
{
    match frame {
        Frame::Scan {
            serial: _,
            only: _,
            filter: _,
            position,
        } => *position = to,
        Frame::Finaliser { serial: _ } => {}
    }
}

impl Stack {
    /// A stack without frames. It takes no memory.
    pub fn make(alloc: Global) -> Stack
        ensures { result.frames ≡ [] }
    {
        Stack {
            frames: Vec::new(alloc),
        }
    }

    /// Makes room for this many more frames. The frames are as before in any case; at `Memory` the room is, too.
    #[inline(always)]
    pub fn reserve(&mut self, n: usize) -> Result<(), Memory>
        ensures frames { self.new.frames ≡ self.old.frames }
        ensures room { OnOk result (n ≤ self.new.room) }
        ensures kept { self.old.room ≤ self.new.room }
        ensures err { OnErr result (self.new ≡ self.old) }
    {
        self.frames.reserve(n)?;
        Ok(())
    }

    /// How many frames there are.
    #[inline(always)]
    pub fn len(&self) -> usize
        ensures { result ≡ length self.now.frames }
    {
        self.frames.len()
    }

    /// Puts a frame on top; there must be room for it. It takes no memory.
    #[inline(always)]
    pub fn push(&mut self, frame: Frame)
        requires { 0 < self.old.room }
        ensures frames { self.new.frames ≡ frame ∷ self.old.frames }
        ensures room { self.old.room ≤ self.new.room + 1 }
    {
        let _ = self.frames.push(frame);
    }

    /// The frame on top.
    #[inline(always)]
    pub fn top(&self) -> Option<&Frame>
        ensures { option_copied result ≡ top_of self.now.frames }
    {
        self.frames.last()
    }

    /// Removes the top frame.
    #[inline(always)]
    pub fn pop(&mut self)
        requires { 0 < length self.old.frames }
        ensures frames { self.new.frames ≡ under_top self.old.frames }
        ensures room { self.old.room ≤ self.new.room }
    {
        let _ = self.frames.pop();
    }

    /// Appends the serials of the devices that the frames are for, and so pin.
    pub fn add_serials(&self, serials: &mut Vec<u64>) -> Result<(), Memory>
        ensures { (serial : ℕ) → OnOk result (has serials.new.items serial
            ≡ (has serials.old.items serial || list_any (λ f. frame_serial f == serial) self.now.frames)) }
    {
        add_serials(&self.frames, serials)?;
        Ok(())
    }

    /// Whether a frame is for the device of this serial, and so pins it.
    pub fn pins(&self, serial: u64) -> bool
        ensures { result ≡ list_any (λ f. frame_serial f == serial) self.now.frames }
    {
        has_frame(&self.frames, serial)
    }

    /// Moves the scan on top to a position.
    #[inline(always)]
    pub fn set_position(&mut self, position: Position)
        requires { IsTrue (is_scanning self.old.frames) }
        ensures frames { self.new.frames ≡ moved_top position self.old.frames }
        ensures room { self.new.room ≡ self.old.room }
    {
        match self.frames.last_mut() {
            Some(frame) => move_frame(frame, position),
            None => {}
        }
    }
}
