//! What is kept for a subscriber.
ghost use Rattle.std.specs.Prelude.{◌≡◌, ◌==◌, All, IfOk, length, map, option_map, position, slice_get};
ghost use Rattle.dev_monitor.specs.Queues.{new_queue, put_in, taken_from};
ghost use Rattle.dev_monitor.specs.Subscribers.{note_with};

use crate::news::News;
use crate::note::Note;
use cf_types::Memory;
use circular_buffer::HeapCircularBuffer;
use std::alloc::Global;

/// What a subscriber has not read yet: the newest, as many as there is room for, and how many older ones were dropped since it last
/// read.
#[derive(Drop)]
pub struct Queue {
    pub who: u8,
    pub lost: u64,
    pub kept: HeapCircularBuffer<News>,
}

impl Queue {
    /// Nothing is kept for the subscriber yet.
    pub fn make(alloc: Global, who: u8, capacity: u8) -> Result<Queue, Memory>
        ensures { IfOk result (λ queue. queue ≡ new_queue who capacity) }
    {
        Ok(Queue {
            who,
            lost: 0,
            kept: HeapCircularBuffer::with_capacity(alloc, capacity as usize)?,
        })
    }

    /// Keeps one more. A full queue drops its oldest.
    pub fn put(&mut self, news: News)
        ensures { self.new ≡ put_in news self.old }
    {
        if self.kept.push_back(news).is_some() {
            self.lost = self.lost.saturating_add(1);
        }
    }

    /// Hands out the oldest, with how many were dropped before it.
    pub fn take(&mut self) -> Option<Note>
        ensures value { result ≡ option_map (note_with self.old.lost) (slice_get self.old.kept.items 0) }
        ensures left { self.new ≡ taken_from self.old }
    {
        let Some(news) = self.kept.pop_front() else {
            return None;
        };
        let note = Note::of(news, self.lost);
        self.lost = 0;
        Some(note)
    }
}

/// Keeps the same for all subscribers.
pub fn put_all(queues: &mut Vec<Queue>, mut copies: Vec<News>, news: &News)
    requires enough { length copies.items ≡ length queues.old.items }
    requires same { All (λ copy. copy ≡ news.now) copies.items }
    ensures { queues.new.items ≡ map (put_in news.now) queues.old.items }
{
    for i in 0..queues.len() {
        match copies.pop() {
            Some(copy) => queues[i].put(copy),
            None => unreachable!(),
        }
    }
}

/// The place of the subscriber's queue.
pub fn place_of(queues: &[Queue], who: u8) -> Option<usize>
    ensures { result ≡ position (λ q. q.who == who) queues.now }
{
    queues.iter().position(|queue| queue.who == who)
}
