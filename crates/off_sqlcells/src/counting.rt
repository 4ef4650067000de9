ghost use Rattle.std.specs.Prelude.{◌≡◌, ◌≤◌, false};
ghost use Rattle.off_defs.specs.Counts.{one_more, most_count};
ghost use Rattle.sqlite.specs.Held.{state};
ghost use Rattle.off_sqlcells.specs.Stands.{IsSteady, StillTells};
ghost use Rattle.off_sqlcells.specs.declared.refusals.Refused.TheVariants as refused;
ghost use Rattle.off_sqlcells.specs.Refusals.{IsTold};
ghost use Rattle.off_sqlcells.specs.SqlCellsSeen.{Counts};

use crate::refusals::Refused;
use crate::writing::is_open;
use off_outside::{KeepErr, one_more};
use sqlite::{Alter, Connection};

// Why a call wasn't done. A fault is counted, unless memory was wanted. Want of memory may come
// with a fault that has shut the connection, so the connection is asked.
pub(crate) fn counted<S: Alter>(
    conn: &mut Connection<S>,
    refused: Refused,
    faults: &mut u64,
) -> KeepErr
    requires { conn.old.in_transaction ≡ false }
    ensures mode { conn.new.in_transaction ≡ false }
    ensures kept { IsSteady S.Store
        → StillTells (state S.Store conn.old) (state S.Store conn.new) }
    ensures counts { Counts S.Store conn.new result faults.old faults.new }
    ensures told { IsSteady S.Store → IsTold S.Store refused conn.old conn.new result }
{
    match refused {
        Refused::Memory => still_open(conn, faults),
        Refused::Store => count_fault(faults),
    }
}

fn still_open<S: Alter>(conn: &mut Connection<S>, faults: &mut u64) -> KeepErr
    requires { conn.old.in_transaction ≡ false }
    ensures mode { conn.new.in_transaction ≡ false }
    ensures kept { IsSteady S.Store
        → StillTells (state S.Store conn.old) (state S.Store conn.new) }
    ensures counts { Counts S.Store conn.new result faults.old faults.new }
    ensures told { IsSteady S.Store → IsTold S.Store refused.Memory conn.old conn.new result }
{
    if is_open(conn) {
        return KeepErr::Memory;
    }
    count_fault(faults)
}

fn count_fault(faults: &mut u64) -> KeepErr
    ensures failed { result ≡ KeepErr.Failed }
    ensures one { faults.new ≡ one_more faults.old }
    ensures fits { faults.old ≤ most_count }
{
    *faults = one_more(*faults);
    KeepErr::Failed
}
