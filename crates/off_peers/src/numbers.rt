ghost use Rattle.std.specs.Prelude.{◌≡◌, ◌+◌, ◌≤◌, ◌^◌, ◌==◌, MatchOption};

use std::marker::Model;

/// The numbers of connections: 1, 2, 3 and so on up to the greatest u32, so that none comes twice.
#[derive(Drop)]
pub struct Numbers {
    last: u32,
}

impl Model for Numbers {
    ghost use Rattle.std.specs.Prelude.{ℕ};

    ghost Value = { ℕ };

    ghost view = { λ n. n.last };
}

impl Numbers {
    /// None was given yet.
    pub fn new() -> Numbers
        ensures { result ≡ 0 }
    {
        Numbers { last: 0 }
    }

    /// Whether the greatest was given.
    pub fn are_spent(&self) -> bool
        ensures { result ≡ (self.now == 4294967295) }
    {
        self.last == u32::MAX
    }

    /// The next number, one above the last that was given, or None behind the greatest.
    pub fn give(&mut self) -> Option<u32>
        ensures { MatchOption result ((2 ^ 32 ≤ self.old + 1) × (self.new ≡ self.old))
            (λ n. (n ≡ self.old + 1) × (self.new ≡ n)) }
    {
        let next = self.last.checked_add(1)?;
        self.last = next;
        Some(next)
    }
}
