//! An import as a whole: a batch that was done before acts no more, and the batch's own row stands
//! behind those that it puts.

ghost use Rattle.std.specs.Prelude.{◌≡◌, ℕ, ◌+◌, ◌*◌, ◌≤◌, true, length, IfOk, MatchResult};
ghost use Rattle.std.specs.List.{list_all};
ghost use Rattle.off_orders.specs.declared.orders.Reply.TheVariants.{Rows};
ghost use Rattle.off_orders.specs.Clerk.{is_kind};
ghost use Rattle.off_outside.specs.declared.keeper.KeepErr.TheVariants.{Memory};
ghost use Rattle.off_outside.specs.KeeperCalls.{Looks, Spent};
ghost use Rattle.off_commands.specs.Imports.{is_sound_row, IsImported, IsRepeated};
ghost use Rattle.off_commands.specs.Imports.{IsFinished, is_same};

use crate::import_counting::count_put;
use crate::progress::Progress;
use crate::putting::{Refused, put_rows};
use off_account_rules::Counts;
use off_accounts::Planned;
use off_defs::{Batch, ImportKind, Key, Kind, Row, Write, Writes};
use off_orders::{ImportRows, Reply, Rule};
use off_outside::{KeepErr, Keeper};
use off_readers::read_batch;
use std::alloc::Global;

/// What an import is to do whose batch has this number and is kept in this row, or which rule
/// refuses it.
pub(crate) fn import<K: Keeper>(
    alloc: Global,
    keeper: &mut K,
    counts: &Counts,
    number: u64,
    batch: &Batch,
    rows: &ImportRows,
) -> Result<Result<Planned, Refused>, KeepErr>
    requires few { length rows.now ≤ 2000 }
    requires sound { list_all is_sound_row rows.now ≡ true }
    requires counted { batch.now.rows ≡ length rows.now }
    ensures told { Looks result (K.seen keeper.old) (K.seen keeper.new)
        (λ verdict t. IsImported counts.now number batch.now rows.now t verdict) }
    ensures answers { IfOk result (λ verdict. IfOk verdict
        (λ planned. (n : ℕ) × (planned.reply ≡ Rows n))) }
    ensures spent { Spent (1 + 3 * length rows.now) (K.seen keeper.old) (K.seen keeper.new) }
{
    if let Some(old) = read_batch(alloc, keeper, number)? {
        return Ok(repeat(alloc, counts, number, batch, &old));
    }
    match put_rows(alloc, keeper, counts, rows)? {
        Ok(so_far) => finish(so_far, number, batch),
        Err(refused) => Ok(Err(refused)),
    }
}

// A batch that was done before is answered as then, where it's of the same kind and body.
fn repeat(
    alloc: Global,
    counts: &Counts,
    number: u64,
    batch: &Batch,
    old: &Batch,
) -> Result<Planned, Refused>
    ensures { IsRepeated counts.now number batch.now old.now result }
{
    if !is_same(batch, old) {
        return Err(refused(Rule::BatchDiffers(number)));
    }
    Ok(Planned {
        writes: Writes::new(alloc),
        reply: Reply::Rows(old.rows),
        counts: *counts,
    })
}

// Whether the kinds and the bodies are the same.
fn is_same(batch: &Batch, old: &Batch) -> bool
    ensures { result ≡ is_same batch.now old.now }
{
    is_kind(batch.kind, old.kind) && batch.digest == old.digest
}

fn is_kind(kind: ImportKind, other: ImportKind) -> bool
    ensures { result ≡ is_kind kind other }
{
    match kind {
        ImportKind::Subscribers => matches!(other, ImportKind::Subscribers),
        ImportKind::Modems => matches!(other, ImportKind::Modems),
    }
}

// Puts the row of the batch behind the rows.
fn finish(so_far: Progress, number: u64, batch: &Batch) -> Result<Result<Planned, Refused>, KeepErr>
    ensures { MatchResult result
        (λ verdict. IsFinished number batch.now so_far verdict) (λ err. err ≡ Memory) }
{
    let counts = match count_put(&so_far.counts, Kind::Batches, false) {
        Ok(counts) => counts,
        Err(rule) => return Ok(Err(refused(rule))),
    };
    let mut writes = so_far.writes;
    writes.push(Write::Put(Key::Batch(number), Row::Batch(*batch)))?;
    Ok(Ok(Planned {
        writes,
        reply: Reply::Rows(batch.rows),
        counts,
    }))
}

// The import is refused as a whole.
fn refused(rule: Rule) -> Refused
    ensures row { result.row ≡ 0 }
    ensures rule { result.rule ≡ rule }
{
    Refused { row: 0, rule }
}
