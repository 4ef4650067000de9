ghost use Rattle.std.specs.Prelude.{◌≡◌, ◌≤◌, false, IsTrue, OnOk, OnErr, IfErr};
ghost use Rattle.std.specs.FinMap as map;
ghost use Rattle.sqlite.specs.Effect.{Database};
ghost use Rattle.sqlite.specs.Held.{state};
ghost use Rattle.off_cells.specs.CellsSeen.{CellMap};
ghost use Rattle.off_cells.specs.CellWritten.{cell_written, write_cells};
ghost use Rattle.off_sqlcells.specs.Stands.{IsSteady, StillTells, Wrote, Stays, Within};
ghost use Rattle.off_cells.specs.declared.writes.CellWrite.TheVariants.{Put, Drop};
ghost use Rattle.off_defs.specs.Counts.{one_more};
ghost use Rattle.off_sqlcells.specs.Ends.{Ends, Finishes};
ghost use Rattle.off_sqlcells.specs.declared.refusals.Refused.{Refused};
ghost use Rattle.off_sqlcells.specs.Refusals.{FailsToWrite, FailsToWriteAll, FailsToEnd};
ghost use Rattle.off_sqlcells.specs.Refusals.{FailsToCommitAll, begun};

use crate::refusals::Refused;
use off_cells::{CellWrite, CellWrites};
use off_outside::one_more;
use sqlite::{Alter, Connection, Transaction};
use sqlite_value::value::ValueRef;

// Does all the writes in one transaction, which is counted. Where one is refused, it is rolled
// back.
pub(crate) fn commit_all<S: Alter>(
    conn: &mut Connection<S>,
    writes: &CellWrites,
    calls: &mut u64,
) -> Result<(), Refused>
    requires { conn.old.in_transaction ≡ false }
    ensures mode { conn.new.in_transaction ≡ false }
    ensures done { IsSteady S.Store → OnOk result
        (Wrote writes.now (state S.Store conn.old) (state S.Store conn.new)) }
    ensures undone { IsSteady S.Store → OnErr result
        (StillTells (state S.Store conn.old) (state S.Store conn.new)) }
    ensures cause { IsSteady S.Store → IfErr result
        (FailsToCommitAll S.Store writes.now conn.old conn.new) }
    ensures counted { calls.new ≡ one_more calls.old }
    ensures later { calls.old ≤ calls.new }
{
    *calls = one_more(*calls);
    let mut work = conn.transaction();
    let done = write_all(&mut work, writes);
    end(work, done)
}

// Whether the connection is open, as an empty transaction finds it.
pub(crate) fn is_open<S: Alter>(conn: &mut Connection<S>) -> bool
    requires { conn.old.in_transaction ≡ false }
    ensures mode { conn.new.in_transaction ≡ false }
    ensures opened { IsSteady S.Store → IsTrue result → IsTrue (state S.Store conn.new).is_open }
    ensures shut { IsSteady S.Store → result ≡ false → (refused : Refused)
        × FailsToEnd (state S.Store (begun conn.old)) (state S.Store conn.new) refused }
    ensures kept { IsSteady S.Store
        → StillTells (state S.Store conn.old) (state S.Store conn.new) }
{
    let work = conn.transaction();
    finish(work).is_ok()
}

// Ends the transaction: commits what was done, or rolls back what was refused.
fn end<S: Alter>(work: Transaction<'_, S>, done: Result<(), Refused>) -> Result<(), Refused>
    ensures mode { work.exit.0.now.in_transaction ≡ false }
    ensures ended { IsSteady S.Store → Ends done result (state S.Store work.entry.conn.now)
        (state S.Store work.exit.0.now) }
{
    match done {
        Ok(()) => finish(work),
        Err(refused) => {
            work.rollback();
            Err(refused)
        }
    }
}

fn finish<S: Alter>(work: Transaction<'_, S>) -> Result<(), Refused>
    ensures mode { work.exit.0.now.in_transaction ≡ false }
    ensures ended { IsSteady S.Store → Finishes result (state S.Store work.entry.conn.now)
        (state S.Store work.exit.0.now) }
{
    match work.commit() {
        Ok(()) => Ok(()),
        Err(err) => Err(Refused::from(err)),
    }
}

fn write_all<S: Alter>(work: &mut Transaction<'_, S>, writes: &CellWrites) -> Result<(), Refused>
    ensures same { work.new.conn.ghost_name ≡ work.old.conn.ghost_name }
    ensures stays { IsSteady S.Store
        → Stays (state S.Store work.old.conn.now) (state S.Store work.new.conn.now) }
    ensures done { IsSteady S.Store → OnOk result ((base : Database) (m : CellMap)
        → Within base (state S.Store work.old.conn.now) m
        → Within base (state S.Store work.new.conn.now) (write_cells m writes.now)) }
    ensures cause { IsSteady S.Store → IfErr result
        (FailsToWriteAll S.Store writes.now work.old.conn.now work.new.conn.now) }
{
    for i in 0..writes.len() {
        write_cell(work, writes.get(i))?;
    }
    Ok(())
}

fn write_cell<S: Alter>(work: &mut Transaction<'_, S>, write: &CellWrite) -> Result<(), Refused>
    ensures same { work.new.conn.ghost_name ≡ work.old.conn.ghost_name }
    ensures stays { IsSteady S.Store
        → Stays (state S.Store work.old.conn.now) (state S.Store work.new.conn.now) }
    ensures done { IsSteady S.Store → OnOk result ((base : Database) (m : CellMap)
        → Within base (state S.Store work.old.conn.now) m
        → Within base (state S.Store work.new.conn.now) (cell_written m write.now)) }
    ensures cause { IsSteady S.Store → IfErr result (FailsToWrite write.now
        (state S.Store work.old.conn.now) (state S.Store work.new.conn.now)) }
{
    match write {
        CellWrite::Put(key, val) => put_cell(work, key.as_slice(), val.as_slice()),
        CellWrite::Drop(key) => drop_cell(work, key.as_slice()),
    }
}

fn put_cell<S: Alter>(
    work: &mut Transaction<'_, S>,
    ident: &[u8],
    val: &[u8],
) -> Result<(), Refused>
    ensures same { work.new.conn.ghost_name ≡ work.old.conn.ghost_name }
    ensures stays { IsSteady S.Store
        → Stays (state S.Store work.old.conn.now) (state S.Store work.new.conn.now) }
    ensures done { IsSteady S.Store → OnOk result ((base : Database) (m : CellMap)
        → Within base (state S.Store work.old.conn.now) m
        → Within base (state S.Store work.new.conn.now) (map.insert m ident.now val.now)) }
    ensures cause { IsSteady S.Store → IfErr result (FailsToWrite (Put ident.now val.now)
        (state S.Store work.old.conn.now) (state S.Store work.new.conn.now)) }
{
    let done = work.execute(
        "INSERT INTO office (ident, val) VALUES (?1, ?2) \
            ON CONFLICT (ident) DO UPDATE SET val = excluded.val",
        &[ValueRef::Blob(ident), ValueRef::Blob(val)],
    );
    match done {
        Ok(_count) => Ok(()),
        Err(err) => Err(Refused::from(err)),
    }
}

fn drop_cell<S: Alter>(work: &mut Transaction<'_, S>, ident: &[u8]) -> Result<(), Refused>
    ensures same { work.new.conn.ghost_name ≡ work.old.conn.ghost_name }
    ensures stays { IsSteady S.Store
        → Stays (state S.Store work.old.conn.now) (state S.Store work.new.conn.now) }
    ensures done { IsSteady S.Store → OnOk result ((base : Database) (m : CellMap)
        → Within base (state S.Store work.old.conn.now) m
        → Within base (state S.Store work.new.conn.now) (map.remove m ident.now)) }
    ensures cause { IsSteady S.Store → IfErr result (FailsToWrite (Drop ident.now)
        (state S.Store work.old.conn.now) (state S.Store work.new.conn.now)) }
{
    let done = work.execute(
        "DELETE FROM office WHERE ident = ?1",
        &[ValueRef::Blob(ident)],
    );
    match done {
        Ok(_count) => Ok(()),
        Err(err) => Err(Refused::from(err)),
    }
}
