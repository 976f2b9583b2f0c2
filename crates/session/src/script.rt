// A desk of a list.
ghost use Rattle.std.specs.Prelude.{◌≡◌, ◌≤◌, [], length, take};

use crate::desk::Desk;
use crate::parts::{Cut, Shown};
use game::Event;
use std::alloc::Global;

/// A desk that tells the events of a list, one by one, and keeps what it is shown.
#[derive(Drop)]
pub struct Script<'a> {
    events: &'a [Event],
    // kept: the events told are the front of the list by this count, which an iterator over the rest would not name
    next: usize,
    log: Vec<Shown>,
}

impl<'a> Script<'a> {
    /// A desk that has told nothing yet of a list.
    pub fn new(heap: Global, events: &'a [Event]) -> Script<'a>
        ensures events { result.events ≡ events.entry }
        ensures next { result.next ≡ 0 }
        ensures log { result.log.items ≡ [] }
    {
        Script {
            events,
            next: 0,
            log: Vec::new(heap),
        }
    }

    /// What it was shown, first to last.
    pub fn log(&self) -> &[Shown]
        ensures { result.now ≡ self.now.log.items }
    {
        self.log.as_slice()
    }
}

impl<'a> Desk for Script<'a> {
    ghost told = { λ s. take s.next s.events.now };

    ghost log = { λ s. s.log.items };

    // all events of the list were told
    ghost closed = { λ s. length s.events.now ≤ s.next };

    // nothing tells that memory was wanting
    ghost broken = { λ _. Unit {0} };

    fn next(&mut self) -> Option<Event> {
        let event = self.events.get(self.next).copied()?;
        self.next += 1;
        Some(event)
    }

    fn show(&mut self, shown: Shown) -> Result<(), Cut> {
        self.log.push(shown).map_err(|_| Cut)
    }
}
