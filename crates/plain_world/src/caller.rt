//! The callers, and what each goes on with.
ghost use Rattle.std.specs.Prelude.{◌≡◌, ◌==◌, ◌<◌, ◌+◌, ◌-◌, ◌^◌, ◌++◌, ◌∷◌, [], IfOk, OnOk};
ghost use Rattle.std.specs.List.{list_any};
ghost use Rattle.run_rules.specs.After.{settled, moved_top, same_key, under_top};
ghost use Rattle.run_rules.specs.World as world;
ghost use Rattle.run_rules.specs.declared.world.Activity.TheVariants.{Idle, Scans};
ghost use Rattle.plain_world.specs.Plain.{moved, released_frames, restacked};

use crate::tally::Tally;
use cf_types::{List, Memory};
use run_rules::{Activity, Deferred, Frame, Key, Position};
use std::alloc::Global;
use std::marker::Model;

/// A caller: how many of its commands are over, what it is in the middle of, and its frames, the top first.
#[derive(Drop)]
pub struct Caller {
    over: u32,
    doing: Activity,
    stack: Vec<Frame>,
    /// How many frames are for each device.
    framed: Tally,
}

impl Model for Caller {
    ghost use Rattle.run_rules.specs.World.{Caller as Told};
    ghost use Rattle.plain_world.specs.Tallies.{AreFramed};

    ghost Value = { Told };

    ghost view = { λ c. record { over = c.over; doing = c.doing; stack = c.stack.items } };

    ghost invariant = { λ c. AreFramed c.stack.items c.framed };
}

/// The scan of a device from its start.
pub fn new_scan(alloc: Global, serial: u64) -> Frame
    ensures { result ≡ world.scan_of serial }
{
    Frame::Scan {
        serial,
        only: None,
        filter: List::make(alloc),
        position: Position {
            attr: 0,
            row: 0,
            spot: 0,
        },
    }
}

/// The device that a frame is for.
fn frame_serial(frame: &Frame) -> u64
    ensures { result ≡ world.frame_serial frame.now }
{
    match frame {
        Frame::Scan {
            serial,
            only: _,
            filter: _,
            position: _,
        } => *serial,
        Frame::Finaliser { serial } => *serial,
    }
}

/// Moves a scan to a position.
fn move_frame(frame: &mut Frame, to: Position)
    ensures { frame.new ≡ moved to frame.old }
{
    match frame {
        Frame::Scan {
            serial: _,
            only: _,
            filter: _,
            position,
        } => *position = to,
        Frame::Finaliser { serial: _ } => {}
    }
}

/// Whether a deferred scan to one key was put off to another one.
pub fn same_key(key: Key, which: Key) -> bool
    ensures { result ≡ same_key key which }
{
    match (key, which) {
        (Key::Interrupts, Key::Interrupts) => true,
        (Key::Parent(a), Key::Parent(b)) => a == b,
        _ => false,
    }
}

/// The deferred scans to a key, the first of them first.
fn released(alloc: Global, deferred: &[Deferred], which: Key) -> Result<Vec<Frame>, Memory>
    ensures { IfOk result (λ frames. frames.items ≡ released_frames deferred.now which) }
{
    let mut frames = Vec::new(alloc);
    for put_off in deferred {
        if same_key(put_off.key, which) {
            frames.push(new_scan(alloc, put_off.child))?;
        }
    }
    Ok(frames)
}

/// A copy of a frame.
fn copied_frame(alloc: Global, frame: &Frame) -> Result<Frame, Memory>
    ensures { IfOk result (λ copy. copy ≡ frame.now) }
{
    match frame {
        Frame::Scan {
            serial,
            only,
            filter,
            position,
        } => Ok(Frame::Scan {
            serial: *serial,
            only: *only,
            filter: List::from_vec(Vec::from_slice(alloc, filter.items())?),
            position: *position,
        }),
        Frame::Finaliser { serial } => Ok(Frame::Finaliser { serial: *serial }),
    }
}

/// A copy of a list of frames.
fn copied_frames(alloc: Global, frames: &[Frame]) -> Result<Vec<Frame>, Memory>
    ensures { IfOk result (λ copy. copy.items ≡ frames.now) }
{
    let mut copy = Vec::new(alloc);
    for frame in frames {
        copy.push(copied_frame(alloc, frame)?)?;
    }
    Ok(copy)
}

impl Caller {
    /// A caller before its first command.
    pub fn beginning(alloc: Global) -> Caller
        ensures { result ≡ world.beginning [] }
    {
        Caller {
            over: 0,
            doing: Activity::Idle,
            stack: Vec::new(alloc),
            framed: Tally::make(alloc),
        }
    }

    /// The caller that boots, with the scan of the root as its frame.
    pub fn booting(alloc: Global) -> Result<Caller, Memory>
        ensures { IfOk result (λ c. c ≡ world.beginning (world.scan_of 0 ∷ [])) }
    {
        let mut caller = Caller::beginning(alloc);
        caller.put_on_top(new_scan(alloc, 0))?;
        Ok(caller)
    }

    /// A copy.
    pub fn copied(&self, alloc: Global) -> Result<Caller, Memory>
        ensures { IfOk result (λ copy. copy ≡ self.now) }
    {
        Ok(Caller {
            over: self.over,
            doing: self.doing,
            stack: copied_frames(alloc, &self.stack)?,
            framed: self.framed.copied(alloc)?,
        })
    }

    /// How many of its commands are over.
    pub fn over(&self) -> u32
        ensures { result ≡ self.now.over }
    {
        self.over
    }

    /// What it is in the middle of.
    pub fn doing(&self) -> Activity
        ensures { result ≡ self.now.doing }
    {
        self.doing
    }

    /// Its frames, the top first.
    pub fn stack(&self) -> &[Frame]
        ensures { result.now ≡ self.now.stack }
    {
        &self.stack
    }

    /// Whether it has a frame for a device.
    #[inline(always)]
    pub fn has_frame(&self, serial: u64) -> bool
        ensures { result ≡ list_any (λ f. world.frame_serial f == serial) self.now.stack }
    {
        self.framed.has(serial)
    }

    /// Whether it has ended.
    pub fn is_ended(&self) -> bool
        ensures { result ≡ world.is_ended self.now.doing }
    {
        matches!(self.doing, Activity::Ended)
    }

    /// Its command is over.
    pub fn finish(&mut self)
        requires low { self.old.over < 2 ^ 32 - 1 }
        ensures { self.new ≡ record { over = self.old.over + 1; doing = Idle; stack = self.old.stack } }
    {
        self.over += 1;
        self.doing = Activity::Idle;
    }

    /// It is in the middle of something.
    pub fn begin(&mut self, doing: Activity)
        ensures { self.new ≡ record { over = self.old.over; doing = doing; stack = self.old.stack } }
    {
        self.doing = doing;
    }

    /// A rescan is over if no frame is left.
    fn settle(&mut self)
        requires low { self.old.over < 2 ^ 32 - 1 }
        ensures { self.new ≡ settled self.old }
    {
        if matches!(self.doing, Activity::Scans) && self.stack.is_empty() {
            self.over += 1;
            self.doing = Activity::Idle;
        }
    }

    /// Puts a frame on top, and nothing else changes.
    fn put_on_top(&mut self, frame: Frame) -> Result<(), Memory>
        ensures { OnOk result (self.new ≡ record { over = self.old.over; doing = self.old.doing; stack = frame ∷ self.old.stack }) }
    {
        let serial = frame_serial(&frame);
        self.framed.reach(serial)?;
        self.stack.insert(0, frame)?;
        self.framed.enter(serial);
        Ok(())
    }

    /// Puts these frames on top, the first of them first, and nothing else changes.
    fn put_all_on_top(&mut self, mut frames: Vec<Frame>) -> Result<(), Memory>
        ensures { OnOk result (self.new ≡ record { over = self.old.over; doing = self.old.doing; stack = frames.items ++ self.old.stack }) }
    {
        while let Some(frame) = frames.pop() {
            self.put_on_top(frame)?;
        }
        Ok(())
    }

    /// Puts a frame on top.
    pub fn push(&mut self, frame: Frame) -> Result<(), Memory>
        requires low { self.old.over < 2 ^ 32 - 1 }
        ensures { OnOk result (self.new ≡ restacked self.old (frame ∷ self.old.stack)) }
    {
        self.put_on_top(frame)?;
        self.settle();
        Ok(())
    }

    /// The frame on top is over.
    pub fn leave(&mut self)
        requires low { self.old.over < 2 ^ 32 - 1 }
        ensures { self.new ≡ restacked self.old (under_top self.old.stack) }
    {
        self.drop_top();
        self.settle();
    }

    /// Moves the scan on top.
    pub fn advance(&mut self, to: Position)
        requires low { self.old.over < 2 ^ 32 - 1 }
        ensures { self.new ≡ restacked self.old (moved_top to self.old.stack) }
    {
        if !self.stack.is_empty() {
            move_frame(&mut self.stack[0], to);
        }
        self.settle();
    }

    /// The frame on top goes, and nothing else changes.
    pub fn drop_top(&mut self)
        ensures { self.new ≡ record { over = self.old.over; doing = self.old.doing; stack = under_top self.old.stack } }
    {
        if !self.stack.is_empty() {
            let frame = self.stack.remove(0);
            self.framed.leave(frame_serial(&frame));
        }
    }

    /// The deferred scans to a key come before its frames, the first of them on top.
    pub fn release(
        &mut self,
        alloc: Global,
        deferred: &[Deferred],
        which: Key,
    ) -> Result<(), Memory>
        requires low { self.old.over < 2 ^ 32 - 1 }
        ensures { OnOk result (self.new ≡ restacked self.old (released_frames deferred.now which ++ self.old.stack)) }
    {
        let frames = released(alloc, deferred, which)?;
        self.put_all_on_top(frames)?;
        self.settle();
        Ok(())
    }
}
