ghost use Rattle.std.specs.Prelude.{
  ◌≡◌,
  ◌==◌,
  [],
  ◌∷◌,
  ◌++◌,
  length,
  drop,
  OnOk,
  OnErr,
  IfNone,
  IfSome,
};
ghost use Rattle.off_outside.specs.LinkCalls.{first_event};

use off_base::NoMemory;
use off_defs::Event;
use std::alloc::Global;
use std::collections::VecDeque;
use std::marker::Model;

/// A list of events.
#[derive(Drop)]
pub struct Events {
    queue: VecDeque<Event>,
}

impl Model for Events {
    ghost use Rattle.std.specs.Prelude.{List};
    ghost use Rattle.off_defs.specs.declared.events.Event.{Event};

    ghost Value = { List Event };

    ghost view = { λ e. e.queue.items };
}

impl Events {
    /// No events. It takes no memory.
    pub fn new(alloc: Global) -> Events
        ensures { result ≡ [] }
    {
        Events {
            queue: VecDeque::new(alloc),
        }
    }

    /// Puts an event behind the others. After `NoMemory` the list is as before.
    pub fn push(&mut self, item: Event) -> Result<(), NoMemory>
        ensures ok { OnOk result (self.new ≡ self.old ++ item ∷ []) }
        ensures err { OnErr result (self.new ≡ self.old) }
    {
        match self.queue.push_back(item) {
            Ok(()) => Ok(()),
            Err(_refused) => Err(NoMemory),
        }
    }

    /// How many events there are.
    pub fn len(&self) -> usize
        ensures { result ≡ length self.now }
    {
        self.queue.len()
    }

    /// Whether there are none.
    pub fn is_empty(&self) -> bool
        ensures { result ≡ (length self.now == 0) }
    {
        self.queue.is_empty()
    }

    /// Takes the first event, if there is one.
    pub fn take_first(&mut self) -> Option<Event>
        ensures first { IfSome result (λ event. event ≡ first_event self.old) }
        ensures none { IfNone result (self.old ≡ []) }
        ensures rest { self.new ≡ drop 1 self.old }
    {
        self.queue.pop_front()
    }
}
