//! The monitor, and what it is told.
ghost use Rattle.std.specs.Prelude.{◌≡◌, ◌≤◌, ◌<◌, ◌+◌, ◌∷◌, [], ◌^◌, OnErr, OnOk};

use crate::news::{News, copies_of, news_of};
use crate::note::Note;
use crate::parents::{Parents, note_parent};
use crate::queue::{Queue, place_of, put_all};
use cf_types::Memory;
use dev_board::Board;
use run_rules::Event;
use std::alloc::Global;
use std::collections::HashMap;

/// Subscribers, and for each of them what it has not read yet of the devices that came and went.
#[derive(Drop)]
pub struct Monitor {
    alloc: Global,
    /// How many events were taken in.
    taken: u64,
    parents: Parents,
    queues: Vec<Queue>,
}

impl Monitor {
    ghost use Rattle.history_laws.specs.Always.{FreesLiving};
    ghost use Rattle.dev_monitor.specs.Parents.{news_by};
    ghost use Rattle.dev_monitor.specs.Queues.{Becomes, IsOf, Keeps, TakesAll, TakesSome, Tells, TellsIf};
    ghost use Rattle.dev_monitor.specs.Subscribers.{Watched, after_read, read_by, unwatched, with_events, with_reader};

    /// No event was taken in, and nobody subscribed.
    pub fn make(alloc: Global) -> Monitor
        ensures { IsOf unwatched result }
    {
        Monitor {
            alloc,
            taken: 0,
            parents: HashMap::new(alloc),
            queues: Vec::new(alloc),
        }
    }

    /// Subscribes a reader, for which the newest so many notes are kept, 1 to 64, of all that come from now on. Who subscribed before
    /// goes on as it was. At `Memory` all is as before.
    pub fn subscribe(&mut self, who: u8, capacity: u8) -> Result<(), Memory>
        requires some { 1 ≤ capacity }
        requires few { capacity ≤ 64 }
        ensures ok { OnOk result (Becomes self.old (λ w. with_reader w who capacity) self.new) }
        ensures err { OnErr result (Becomes self.old (λ w. w) self.new) }
    {
        if place_of(&self.queues, who).is_some() {
            return Ok(());
        }
        let queue = Queue::make(self.alloc, who, capacity)?;
        self.queues.push(queue)?;
        Ok(())
    }

    /// Notes what a device's coming or going means to the parents and to all subscribers.
    fn tell(&mut self, news: News) -> Result<(), Memory>
        ensures ok { OnOk result (Tells news self.old self.new) }
        ensures err { OnErr result (Keeps self.old self.new) }
        ensures taken { self.new.taken ≡ self.old.taken }
    {
        let copies = copies_of(self.alloc, &news, self.queues.len())?;
        note_parent(&mut self.parents, &news)?;
        put_all(&mut self.queues, copies, &news);
        Ok(())
    }

    /// Tells what an event tells, if it tells anything.
    fn tell_event(&mut self, event: &Event) -> Result<(), Memory>
        ensures ok { OnOk result (TellsIf (news_by self.old.parents event.now.act) self.old self.new) }
        ensures err { OnErr result (Keeps self.old self.new) }
        ensures taken { self.new.taken ≡ self.old.taken }
    {
        match news_of(&self.parents, event.act.get())? {
            Some(news) => self.tell(news),
            None => Ok(()),
        }
    }

    /// Takes the next event in.
    fn take_event(&mut self, event: &Event) -> Result<(), Memory>
        requires { self.old.taken + 1 < 2 ^ 64 }
        ensures ok { OnOk result ((w : Watched) → IsOf w self.old → FreesLiving w.events event.now → IsOf (with_events w (event.now ∷ [])) self.new) }
        ensures err { OnErr result (Becomes self.old (λ w. w) self.new) }
        ensures taken { OnOk result (self.new.taken ≡ self.old.taken + 1) }
    {
        self.tell_event(event)?;
        self.taken += 1;
        Ok(())
    }

    /// Takes in the events of a board that came since the last time, so that it costs what is new. Those that were taken in before have
    /// to be the first of the board's. At `Memory` some of the new ones were taken in, and another call goes on behind them.
    pub fn take_in(&mut self, board: &Board) -> Result<(), Memory>
        ensures ok { OnOk result (TakesAll self.old board.now.events self.new) }
        ensures err { OnErr result (TakesSome self.old board.now.events self.new) }
    {
        board.stands();
        for place in self.taken..board.events() {
            self.take_event(board.event(place))?;
        }
        Ok(())
    }

    /// What a subscriber reads next, or `None` where it has read all that was taken in since it subscribed.
    pub fn read(&mut self, who: u8) -> Option<Note>
        ensures note { (w : Watched) → IsOf w self.old → result ≡ read_by w who }
        ensures left { Becomes self.old (λ w. after_read w who) self.new }
    {
        match place_of(&self.queues, who) {
            Some(place) => self.queues[place].take(),
            None => None,
        }
    }
}
