//! One event after the other.

ghost use Rattle.std.specs.Prelude.{◌≡◌, ◌<◌, ◌++◌, ◌∷◌, [], OnErr, OnOk};
ghost use Rattle.std.specs.Vec.{vec_capacity, vec_len};
ghost use Rattle.world_core.specs.Naming.{IsLast};
ghost use Rattle.world_core.specs.Stepping.{Comes, Steps, bare, with_events};

use crate::lives;
use crate::naming::told_at;
use crate::parts::Parts;
use farm_types::{Attempt, Exit, Items};
use std::alloc::Global;
use std::mem;
use world_law::{Event, WorldFault};

impl Parts {
    /// An event happens. NoSuch comes exactly where what it names isn't there, UsedNonce exactly where it begins a
    /// host's life with a nonce that the host has used, and NoMemory where memory ran out. Each fault leaves the world
    /// as before.
    pub(crate) fn step(&mut self, alloc: Global, event: &Event) -> Result<(), WorldFault>
        ensures outcome { Steps self.old event.now result self.new }
        ensures last { IsLast self.old event.now result }
    {
        match self.look_up(event) {
            Ok(()) => self.step_noted(alloc, event),
            Err(why) => Err(why),
        }
    }

    // The event happens, and is noted.
    fn step_noted(&mut self, alloc: Global, event: &Event) -> Result<(), WorldFault>
        ensures { Steps self.old event.now result self.new }
    {
        let mut events = self.take_events(alloc);
        let stepped = self.happen_noted(alloc, event, &mut events);
        self.put_events(events);
        stepped
    }

    // The events that were taken, of which none are left.
    fn take_events(&mut self, alloc: Global) -> Vec<Event>
        ensures events { result.items ≡ self.old.events }
        ensures bare { self.new ≡ bare self.old }
    {
        mem::replace(&mut self.events, Items::new(alloc)).into_vec()
    }

    // These are the events that were taken.
    fn put_events(&mut self, events: Vec<Event>)
        ensures { self.new ≡ with_events self.old events.items }
    {
        self.events = Items::from_vec(events);
    }

    // The event happens, and is noted behind these. The room comes first.
    fn happen_noted(
        &mut self,
        alloc: Global,
        event: &Event,
        events: &mut Vec<Event>,
    ) -> Result<(), WorldFault>
        ensures comes { Comes self.old event.now result self.new }
        ensures noted { OnOk result (events.new.items ≡ events.old.items ++ event.now ∷ []) }
        ensures same { OnErr result (events.new.items ≡ events.old.items) }
    {
        match events.reserve(1) {
            Ok(()) => self.happen_in_room(alloc, event, events),
            Err(_) => Err(WorldFault::NoMemory),
        }
    }

    // The event happens, and is noted behind these, in the room that is there.
    fn happen_in_room(
        &mut self,
        alloc: Global,
        event: &Event,
        events: &mut Vec<Event>,
    ) -> Result<(), WorldFault>
        requires { vec_len events.old < vec_capacity events.old }
        ensures comes { Comes self.old event.now result self.new }
        ensures noted { OnOk result (events.new.items ≡ events.old.items ++ event.now ∷ []) }
        ensures same { OnErr result (events.new.items ≡ events.old.items) }
    {
        match self.happen(alloc, event) {
            Ok(()) => {
                events.push_reserved(*event);
                Ok(())
            }
            Err(why) => Err(why),
        }
    }

    // What the event does.
    fn happen(&mut self, alloc: Global, event: &Event) -> Result<(), WorldFault>
        ensures { Comes self.old event.now result self.new }
    {
        match event {
            Event::Send { host } => self.send(alloc, *host),
            Event::ToCue {
                line,
                moment,
                refused,
            } => self.answer(alloc, *line, *moment, *refused),
            Event::ToHost { line } => self.tell(alloc, *line),
            Event::Ended {
                host,
                attempt,
                exit,
            } => self.end(*host, attempt, exit),
            Event::NewLife { host, nonce } => self.begin_life(alloc, *host, *nonce),
            Event::Restart { further, moment } => self.restart(alloc, *further, *moment),
        }
    }

    // A host sends its next line.
    fn send(&mut self, alloc: Global, host: u32) -> Result<(), WorldFault>
        ensures { Comes self.old (Event.Send host) result self.new }
    {
        lives::send(alloc, &mut self.hosts, &mut self.sent, host)
    }

    // A line comes to its host.
    fn tell(&mut self, alloc: Global, line: u32) -> Result<(), WorldFault>
        ensures { Comes self.old (Event.ToHost line) result self.new }
    {
        let Some(told) = told_at(self.told.as_slice(), line) else {
            return Err(WorldFault::NoSuch);
        };
        lives::take(alloc, &mut self.hosts, told.host, told.line.as_slice())
    }

    // A running attempt ends.
    fn end(&mut self, host: u32, attempt: &Attempt, exit: &Exit) -> Result<(), WorldFault>
        ensures { Comes self.old (Event.Ended host attempt.now exit.now) result self.new }
    {
        lives::end(&mut self.hosts, host, attempt, *exit)
    }

    // A host begins a new life.
    fn begin_life(&mut self, alloc: Global, host: u32, nonce: u64) -> Result<(), WorldFault>
        ensures { Comes self.old (Event.NewLife host nonce) result self.new }
    {
        lives::begin_life(alloc, &mut self.hosts, host, nonce)
    }
}
