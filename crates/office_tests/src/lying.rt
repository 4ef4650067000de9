use crate::silence::{Answers, Silent, unasked};
use off_base::Ip4;
use off_defs::{Batch, ImportKind, Key, Row, Writes};
use off_opening::{count_rows, first_bad};
use std::alloc::Global;
use std::test::Fail;

// Whatever the place, its next entry is a batch; each has a number that is so much lower than the
// one before.
#[derive(Drop)]
struct Stray {
    number: u64,
    step: u64,
}

impl Answers for Stray {
    fn row(&mut self, _alloc: Global, _key: &Key, _commits: u64) -> Option<Option<Row>> {
        Some(Some(Row::Held(Ip4(1))))
    }

    fn entry(&mut self, _alloc: Global, _after: Option<&Key>) -> Option<Option<(Key, Row)>> {
        self.number = self.number.wrapping_sub(self.step);
        let row = Row::Batch(Batch {
            kind: ImportKind::Modems,
            digest: [0; 16],
            rows: 1,
        });
        Some(Some((Key::Batch(self.number), row)))
    }

    fn write(&mut self, _alloc: Global, _writes: &Writes, _commits: u64) -> Option<()> {
        Some(())
    }
}

fn fresh_stray(step: u64) -> Silent<Stray> {
    unasked(Stray { number: 9, step })
}

#[test]
fn a_walk_over_entries_that_do_not_rise_ends(rt: HostRuntime) -> Result<(), Fail> {
    for step in [0, 1] {
        let mut keeper = fresh_stray(step);
        assert!(rt; first_bad(rt.alloc(), &mut keeper)?.is_none());
        assert_eq!(rt; keeper.calls, 2);
        assert_eq!(rt; count_rows(rt.alloc(), &mut keeper)?.batches, 1);
        assert_eq!(rt; keeper.calls, 4);
    }
    Ok(())
}
