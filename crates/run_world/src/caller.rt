//! The callers and their frames.
ghost use Rattle.std.specs.Prelude.{◌≡◌, ◌≤◌, ◌<◌, ◌+◌, ◌-◌, ◌^◌, ◌++◌, ◌∷◌, [], IsTrue, length};
ghost use Rattle.run_rules.specs.After.{settled, moved_top, under_top};
ghost use Rattle.defer_queue.specs.Queue.{entries_of, others_of};
ghost use Rattle.run_rules.specs.World as world;
ghost use Rattle.run_rules.specs.World.{scan_of};
ghost use Rattle.run_rules.specs.declared.world.Activity.TheVariants.{Scans};
ghost use Rattle.run_world.specs.View.{caller_of};
ghost use Rattle.scan_engine.specs.Frames.{is_scanning};
ghost use Rattle.run_world.specs.Arrivals.{finalised_too, searched_too};
ghost use Rattle.run_world.specs.Callers.{framed, stacked, released_frames};

use cf_types::List;
use defer_queue::DeferQueue;
use run_rules::{Activity, Frame, Key, Placing, Position};
use scan_engine::Stack;
use std::alloc::Global;

/// A caller: how many of its commands are over, what it is in the middle of, and its frames.
#[derive(Drop)]
pub struct CallerState {
    pub over: u32,
    pub doing: Activity,
    pub stack: Stack,
}

/// The scan of a device from its start.
pub fn new_scan(alloc: Global, serial: u64) -> Frame
    ensures { result ≡ scan_of serial }
{
    Frame::Scan {
        serial,
        only: None,
        filter: List::make(alloc),
        position: Position {
            attr: 0,
            row: 0,
            spot: 0,
        },
    }
}

/// Begins the deferred scans to a key, the first of them on top.
fn push_released(alloc: Global, stack: &mut Stack, deferred: &mut DeferQueue, which: Key)
    requires room { length (entries_of deferred.old which) ≤ stack.old.room }
    ensures frames { stack.new.frames ≡ released_frames deferred.old which ++ stack.old.frames }
    ensures deferred { deferred.new ≡ others_of deferred.old which }
{
    while let Some(child) = deferred.take_last(which) {
        stack.push(new_scan(alloc, child));
    }
}

impl CallerState {
    /// A caller before its first command.
    pub fn beginning(alloc: Global) -> CallerState
        ensures { caller_of result ≡ world.beginning [] }
    {
        CallerState {
            over: 0,
            doing: Activity::Idle,
            stack: Stack::make(alloc),
        }
    }

    /// A rescan is over if the stack is empty.
    #[inline(always)]
    fn settle(&mut self)
        requires low { self.old.doing ≡ Scans → self.old.over < 2 ^ 32 - 1 }
        ensures settled { caller_of self.new ≡ settled (caller_of self.old) }
        ensures room { self.new.stack ≡ self.old.stack }
    {
        match self.doing {
            Activity::Scans => {
                if self.stack.top().is_none() {
                    self.over += 1;
                    self.doing = Activity::Idle;
                }
            }
            _ => {}
        }
    }

    /// Puts a frame on top.
    #[inline(always)]
    pub fn push(&mut self, frame: Frame)
        requires room { 0 < self.old.stack.room }
        ensures caller { caller_of self.new ≡ stacked (caller_of self.old) (frame ∷ self.old.stack.frames) }
        ensures room { self.old.stack.room ≤ self.new.stack.room + 1 }
    {
        self.stack.push(frame);
    }

    /// The position of the scan on top.
    #[inline(always)]
    pub fn position(&self) -> Position
        requires top { IsTrue (is_scanning self.now.stack.frames) }
        ensures { moved_top result self.now.stack.frames ≡ self.now.stack.frames }
    {
        match self.stack.top() {
            Some(
                Frame::Scan {
                    serial: _,
                    only: _,
                    filter: _,
                    position,
                },
            ) => *position,
            _ => unreachable!(),
        }
    }

    /// Moves the scan on top.
    #[inline(always)]
    pub fn advance(&mut self, position: Position)
        requires top { IsTrue (is_scanning self.old.stack.frames) }
        ensures caller { caller_of self.new ≡ stacked (caller_of self.old) (moved_top position self.old.stack.frames) }
        ensures room { self.new.stack.room ≡ self.old.stack.room }
    {
        self.stack.set_position(position);
    }

    /// The frame on top is over.
    #[inline(always)]
    pub fn leave(&mut self)
        requires low { self.old.doing ≡ Scans → self.old.over < 2 ^ 32 - 1 }
        requires top { 0 < length self.old.stack.frames }
        ensures caller { caller_of self.new ≡ framed (caller_of self.old) (under_top self.old.stack.frames) }
    {
        self.stack.pop();
        self.settle();
    }

    /// The deferred scans to a key begin.
    #[inline(always)]
    pub fn release(&mut self, alloc: Global, deferred: &mut DeferQueue, which: Key)
        requires low { self.old.doing ≡ Scans → self.old.over < 2 ^ 32 - 1 }
        requires room { length (entries_of deferred.old which) ≤ self.old.stack.room }
        ensures caller { caller_of self.new ≡ framed (caller_of self.old) (released_frames deferred.old which ++ self.old.stack.frames) }
        ensures deferred { deferred.new ≡ others_of deferred.old which }
    {
        push_released(alloc, &mut self.stack, deferred, which);
        self.settle();
    }

    /// The scan on top is over, and those that were deferred to its end begin.
    #[inline(always)]
    pub fn end_scan(&mut self, alloc: Global, deferred: &mut DeferQueue, which: Key)
        requires low { self.old.doing ≡ Scans → self.old.over < 2 ^ 32 - 1 }
        requires top { 0 < length self.old.stack.frames }
        requires room { length (entries_of deferred.old which) ≤ self.old.stack.room }
        ensures caller { caller_of self.new ≡ framed (caller_of self.old) (released_frames deferred.old which ++ under_top self.old.stack.frames) }
        ensures deferred { deferred.new ≡ others_of deferred.old which }
    {
        self.stack.pop();
        push_released(alloc, &mut self.stack, deferred, which);
        self.settle();
    }

    /// The finalizer of a new device, and above it its scan, if these are their places.
    #[inline(always)]
    pub fn place(&mut self, alloc: Global, finaliser: Placing, scan: Placing, serial: u64)
        requires room { 2 ≤ self.old.stack.room }
        ensures { caller_of self.new ≡ searched_too scan (finalised_too finaliser (caller_of self.old) serial) serial }
    {
        if matches!(finaliser, Placing::Pushed) {
            self.push(Frame::Finaliser { serial });
        }
        if matches!(scan, Placing::Pushed) {
            self.push(new_scan(alloc, serial));
        }
    }
}
