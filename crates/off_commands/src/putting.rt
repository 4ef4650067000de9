//! The rows of an import, one by one, from its front on.

ghost use Rattle.std.specs.Prelude.{◌≡◌, ◌*◌, ◌≤◌, true, length, IfOk, OnOk};
ghost use Rattle.std.specs.List.{list_all};
ghost use Rattle.off_defs.specs.Tables.{write_all};
ghost use Rattle.off_account_rules.specs.Rows.{counts_of};
ghost use Rattle.off_outside.specs.KeeperCalls.{Looks, Spent};
ghost use Rattle.off_commands.specs.Imports.{is_sound_row, Shows, Stands};
ghost use Rattle.off_commands.specs.Imports.{IsPut, IsStep, AreRowsPut};

use crate::judging::judge;
use crate::progress::{Progress, begin, put_row};
use off_account_rules::Counts;
use off_orders::{ImportRow, ImportRows, Rule};
use off_outside::{KeepErr, Keeper};
use std::alloc::Global;

/// A row that breaks a rule. Rows count from 1, and row 0 means none of them.
#[derive(Clone, Copy, PartialEq, Eq)]
pub(crate) struct Refused {
    pub row: u32,
    pub rule: Rule,
}

/// What all rows make, or the first that breaks a rule.
pub(crate) fn put_rows<K: Keeper>(
    alloc: Global,
    keeper: &mut K,
    counts: &Counts,
    rows: &ImportRows,
) -> Result<Result<Progress, Refused>, KeepErr>
    requires few { length rows.now ≤ 2000 }
    requires sound { list_all is_sound_row rows.now ≡ true }
    ensures told { Looks result (K.seen keeper.old) (K.seen keeper.new)
        (λ verdict t. counts.now ≡ counts_of t → AreRowsPut t rows.now verdict) }
    ensures stands { IfOk result (λ verdict. IfOk verdict (λ so_far. Stands counts.now so_far)) }
    ensures spent { Spent (3 * length rows.now) (K.seen keeper.old) (K.seen keeper.new) }
{
    let mut so_far = begin(alloc, counts);
    for i in 0..rows.len() {
        let verdict = step(alloc, keeper, &mut so_far, rows.get(i))?;
        if let Err(rule) = verdict {
            return Ok(Err(Refused {
                row: i as u32 + 1,
                rule,
            }));
        }
    }
    Ok(Ok(so_far))
}

// Puts the row where none of its rules is broken.
fn step<K: Keeper>(
    alloc: Global,
    keeper: &mut K,
    so_far: &mut Progress,
    row: &ImportRow,
) -> Result<Result<(), Rule>, KeepErr>
    requires shows { Shows so_far.old }
    requires sound { is_sound_row row.now ≡ true }
    ensures told { Looks result (K.seen keeper.old) (K.seen keeper.new) (λ verdict t.
        so_far.old.counts ≡ counts_of (write_all t so_far.old.writes)
        → IsStep t row.now so_far.old so_far.new verdict) }
    ensures put { IfOk result (λ verdict. OnOk verdict (IsPut row.now so_far.old so_far.new)) }
    ensures spent { Spent 3 (K.seen keeper.old) (K.seen keeper.new) }
{
    match judge(alloc, keeper, so_far, row)? {
        Ok(counts) => {
            put_row(so_far, row, &counts)?;
            Ok(Ok(()))
        }
        Err(rule) => Ok(Err(rule)),
    }
}
