ghost use Rattle.std.specs.Prelude.{◌≡◌, ◌≤◌, ◌↔◌, [], ◌∷◌, ◌++◌, OnOk, OnErr, IsTrue, Contains};
ghost use Rattle.off_defs.specs.Counts.{one_more, most_count};
ghost use Rattle.off_outside.specs.InMemory.{one_called, IsToFail};

use off_base::NoMemory;
use std::alloc::Global;
use std::marker::Model;

/// The numbers of the calls that are to fail. All calls of one object are numbered together, from
/// 1.
#[derive(Drop)]
pub struct Calls {
    numbers: Vec<u64>,
}

impl Model for Calls {
    ghost use Rattle.std.specs.Prelude.{List, ℕ};

    ghost Value = { List ℕ };

    ghost view = { λ c. c.numbers.items };
}

impl Calls {
    /// No call is to fail. It takes no memory.
    pub fn new(alloc: Global) -> Calls
        ensures { result ≡ [] }
    {
        Calls {
            numbers: Vec::new(alloc),
        }
    }

    /// Lists one more. After `NoMemory` the list is as before.
    pub fn push(&mut self, item: u64) -> Result<(), NoMemory>
        ensures ok { OnOk result (self.new ≡ self.old ++ item ∷ []) }
        ensures err { OnErr result (self.new ≡ self.old) }
    {
        match self.numbers.push(item) {
            Ok(()) => Ok(()),
            Err(_refused) => Err(NoMemory),
        }
    }

    /// Whether the call of this number is to fail.
    pub fn has(&self, number: u64) -> bool
        ensures { IsTrue result ↔ Contains self.now number }
    {
        self.numbers.contains(&number)
    }
}

/// Which calls of an object are to fail, and how many there have been.
#[derive(Drop)]
pub struct Failing {
    listed: Calls,
    made: u64,
}

impl Model for Failing {
    ghost use Rattle.off_outside.specs.InMemory.{CallsHeld};

    ghost Value = { CallsHeld };

    ghost view = { λ f. record { listed = f.listed; made = f.made } };
}

impl Failing {
    /// No call has been made yet.
    pub fn new(listed: Calls) -> Failing
        ensures { result ≡ record { listed = listed; made = 0 } }
    {
        Failing { listed, made: 0 }
    }

    /// How many calls there have been.
    pub fn made(&self) -> u64
        ensures { result ≡ self.now.made }
    {
        self.made
    }

    /// Counts one more call, and tells whether it is to fail.
    pub fn call(&mut self) -> bool
        ensures after { self.new ≡ one_called self.old }
        ensures fails { IsTrue result ↔ IsToFail self.old }
        ensures fits { self.old.made ≤ most_count }
    {
        self.made = one_more(self.made);
        self.listed.has(self.made)
    }
}

/// A counter after one more. It stands still at the greatest number.
pub fn one_more(count: u64) -> u64
    ensures { result ≡ one_more count }
{
    count.saturating_add(1)
}
