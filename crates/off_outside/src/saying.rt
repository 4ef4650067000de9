ghost use Rattle.std.specs.Prelude.{
  ◌≡◌,
  ◌==◌,
  ◌<◌,
  ◌≤◌,
  [],
  ◌∷◌,
  ◌++◌,
  length,
  take,
  OnOk,
  OnErr,
  slice_get,
  Some,
};
ghost use Rattle.off_defs.specs.State.{says_nothing};

use arrayvec::ArrayVec;
use off_base::NoMemory;
use off_defs::Sent;
use std::alloc::Global;
use std::marker::Model;

/// What the office says of one event: the things to send, and one line of at most 80 bytes, held in
/// place.
#[derive(Drop)]
pub struct Replies {
    items: Vec<Sent>,
    line: ArrayVec<u8, 80>,
}

impl Model for Replies {
    ghost use Rattle.off_defs.specs.State.{Said};

    ghost Value = { Said };

    ghost view = { λ r. record { items = r.items.items; line = r.line.items } };
}

impl Replies {
    /// Says nothing. It takes no memory.
    pub fn new(alloc: Global) -> Replies
        ensures { result ≡ says_nothing }
    {
        Replies {
            items: Vec::new(alloc),
            line: ArrayVec::new(),
        }
    }

    /// Adds a thing to send. After `NoMemory` all is as before.
    pub fn push(&mut self, item: Sent) -> Result<(), NoMemory>
        ensures ok { OnOk result (self.new
            ≡ record self.old { items = self.old.items ++ item ∷ [] }) }
        ensures err { OnErr result (self.new ≡ self.old) }
    {
        match self.items.push(item) {
            Ok(()) => Ok(()),
            Err(_refused) => Err(NoMemory),
        }
    }

    /// Thing `i` to send, from 0.
    pub fn get(&self, i: usize) -> &Sent
        requires { i < length self.now.items }
        ensures { slice_get self.now.items i ≡ Some result.now }
    {
        &self.items[i]
    }

    /// How many things there are to send.
    pub fn len(&self) -> usize
        ensures { result ≡ length self.now.items }
    {
        self.items.len()
    }

    /// Whether there is nothing to send.
    pub fn is_empty(&self) -> bool
        ensures { result ≡ (length self.now.items == 0) }
    {
        self.items.is_empty()
    }

    /// Keeps the first things to send, so many at most, and takes back those behind them.
    pub fn truncate(&mut self, most: usize)
        ensures { self.new ≡ record self.old { items = take most self.old.items } }
    {
        self.items.truncate(most);
    }

    /// Says nothing from now on.
    pub fn clear(&mut self)
        ensures { self.new ≡ says_nothing }
    {
        self.items.clear();
        self.line.clear();
    }

    /// Sets the line.
    pub fn set_line(&mut self, text: &[u8])
        requires { length text.now ≤ 80 }
        ensures { self.new ≡ record self.old { line = text.now } }
    {
        let mut line = ArrayVec::new();
        let _fits = line.try_extend_from_slice(text);
        self.line = line;
    }

    /// The line, which is empty where nothing was said.
    pub fn line(&self) -> &[u8]
        ensures text { result.now ≡ self.now.line }
        ensures short { length result.now ≤ 80 }
    {
        self.line.as_slice()
    }
}
