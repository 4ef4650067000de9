ghost use Rattle.off_defs.specs.Told.{one_none};
ghost use Rattle.office_tests.specs.Untold.{keeper_counts};

use off_defs::{Key, Row, Writes};
use off_outside::{Failed, KeepErr, Keeper, one_more};
use std::alloc::Global;

/// What a keeper answers that tells nothing; `None` where it wants memory. So many commits were
/// done before.
pub(crate) trait Answers {
    fn row(&mut self, alloc: Global, key: &Key, commits: u64) -> Option<Option<Row>>;

    fn entry(&mut self, alloc: Global, after: Option<&Key>) -> Option<Option<(Key, Row)>>;

    fn write(&mut self, alloc: Global, writes: &Writes, commits: u64) -> Option<()>;
}

/// A keeper that tells nothing but how often it was asked.
#[derive(Drop)]
pub(crate) struct Silent<A> {
    pub answers: A,
    pub calls: u64,
    pub commits: u64,
}

/// A keeper of these answers that wasn't asked yet.
pub(crate) fn unasked<A: Answers>(answers: A) -> Silent<A> {
    Silent {
        answers,
        calls: 0,
        commits: 0,
    }
}

impl<A: Answers> Keeper for Silent<A> {
    ghost seen = { λ k. keeper_counts 0 k.calls k.commits };

    fn get(&mut self, alloc: Global, key: &Key) -> Result<Option<Row>, KeepErr> {
        self.calls = one_more(self.calls);
        match self.answers.row(alloc, key, self.commits) {
            Some(row) => Ok(row),
            None => Err(KeepErr::Memory),
        }
    }

    fn next(&mut self, alloc: Global, after: Option<&Key>) -> Result<Option<(Key, Row)>, KeepErr> {
        self.calls = one_more(self.calls);
        match self.answers.entry(alloc, after) {
            Some(entry) => Ok(entry),
            None => Err(KeepErr::Memory),
        }
    }

    fn commit(&mut self, alloc: Global, writes: &Writes) -> Result<(), KeepErr> {
        self.calls = one_more(self.calls);
        let Some(()) = self.answers.write(alloc, writes, self.commits) else {
            return Err(KeepErr::Memory);
        };
        self.commits = one_more(self.commits);
        Ok(())
    }

    #[tactic(auto, using(off_outside::proofs::KeeperLemmas::stages_commit))]
    fn stage(&mut self, alloc: Global, writes: &Writes) -> Result<(), KeepErr> {
        self.commit(alloc, writes)
    }

    #[tactic(auto, using(off_outside::proofs::KeeperLemmas::secured_none))]
    fn secure(&mut self) -> Result<(), Failed> {
        Ok(())
    }

    fn waits(&self) -> bool {
        false
    }

    fn moment(&self) -> u64 {
        0
    }

    ghost one_tables = { λ _ up. one_none };

    ghost rests = { λ k tables told opened might. absurd might };
}
