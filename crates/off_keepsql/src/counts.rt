ghost use Rattle.std.specs.Prelude.{◌≡◌, ◌≤◌};
ghost use Rattle.off_defs.specs.Counts.{most_count, one_more};
ghost use Rattle.off_keepsql.specs.OwnCount.{CountsOne};

use off_outside::one_more;

/// The counters of a keeper over cells: the faults of its own, its calls, and the commits that were
/// done.
#[derive(Clone, Copy, PartialEq, Eq)]
pub struct Counts {
    pub(crate) own: u64,
    pub(crate) calls: u64,
    pub(crate) commits: u64,
}

impl Counts {
    /// Nothing was counted yet.
    pub(crate) fn new() -> Counts
        ensures { result ≡ record { own = 0; calls = 0; commits = 0 } }
    {
        Counts {
            own: 0,
            calls: 0,
            commits: 0,
        }
    }

    pub(crate) fn count_call(&mut self)
        ensures after { self.new ≡ record self.old { calls = one_more self.old.calls } }
        ensures fits { self.old.calls ≤ most_count }
    {
        self.calls = one_more(self.calls);
    }

    pub(crate) fn count_commit(&mut self)
        ensures { self.new ≡ record self.old { commits = one_more self.old.commits } }
    {
        self.commits = one_more(self.commits);
    }
}

// Counts one more fault.
pub(crate) fn count_fault(faults: &mut u64)
    ensures { CountsOne faults.old faults.new }
{
    *faults = one_more(*faults);
}
