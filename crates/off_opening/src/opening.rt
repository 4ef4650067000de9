ghost use Rattle.std.specs.Prelude.{◌≡◌, IfOk, IfErr};
ghost use Rattle.off_defs.specs.State.{Tables};
ghost use Rattle.off_outside.specs.KeeperCalls.{Looks, WalksOnce};
ghost use Rattle.off_account_rules.specs.Good.{Opens, Judged};
ghost use Rattle.off_opening.specs.Marks.{marks_of};
ghost use Rattle.off_opening.specs.Standing.{IsCompared, OpensAs};

use crate::counting::counts_in;
use crate::marks::{Mark, device_pools_in, pools_in, read_marks};
use crate::owners::several_in;
use crate::standing::{Compared, keeps};
use crate::using::users_in;
use off_account_rules::Counts;
use off_defs::Key;
use off_outside::{KeepErr, Keeper};
use off_users::Users;
use std::alloc::Global;

/// What the tables are when the office opens.
#[derive(Drop)]
pub enum Opening {
    /// They don't open, and this is the least key whose row is bad.
    Bad(Key),
    /// They open, have so many rows of each kind, and their modems use what they use.
    Open(Counts, Users),
}

/// Tests the tables, counts their rows and notes what their modems name, in one walk over them. It
/// changes nothing.
///
/// An error is the keeper's, or `Memory` where what is kept of the rows has no memory: 48 bytes a
/// row, and up to three times as much while they grow, besides what `Users` keeps and the devices
/// that have leases. The time grows as the number of rows times its logarithm, and as the number of
/// leases times the number of pools.
pub fn open_tables<K: Keeper>(alloc: Global, keeper: &mut K) -> Result<Opening, KeepErr>
    ensures told { Looks result (K.seen keeper.old) (K.seen keeper.new)
        (λ opening t. OpensAs t opening) }
    ensures walks { WalksOnce (K.seen keeper.old) (K.seen keeper.new) }
{
    let marks = read_marks(alloc, keeper)?;
    opening_of(alloc, marks.as_slice())
}

/// The least key whose row is bad, or `None` where the tables open. It changes nothing.
///
/// An error is that of `open_tables`.
pub fn first_bad<K: Keeper>(alloc: Global, keeper: &mut K) -> Result<Option<Key>, KeepErr>
    ensures told { Looks result (K.seen keeper.old) (K.seen keeper.new)
        (λ bad t. Judged t bad) }
    ensures walks { WalksOnce (K.seen keeper.old) (K.seen keeper.new) }
{
    let marks = read_marks(alloc, keeper)?;
    bad_in(alloc, marks.as_slice())
}

// What tables are that have these marks.
fn opening_of(alloc: Global, marks: &[Mark]) -> Result<Opening, KeepErr>
    ensures ok { IfOk result (λ opening. (t : Tables) → marks.now ≡ marks_of t
        → OpensAs t opening) }
    ensures err { IfErr result (λ err. err ≡ KeepErr.Memory) }
{
    match bad_in(alloc, marks) {
        Ok(Some(key)) => Ok(Opening::Bad(key)),
        Ok(None) => open_with(alloc, marks),
        Err(err) => Err(err),
    }
}

// What tables are that open.
fn open_with(alloc: Global, marks: &[Mark]) -> Result<Opening, KeepErr>
    ensures ok { IfOk result (λ opening. (t : Tables) → marks.now ≡ marks_of t → Opens t
        → OpensAs t opening) }
    ensures err { IfErr result (λ err. err ≡ KeepErr.Memory) }
{
    let users = users_in(alloc, marks)?;
    Ok(Opening::Open(counts_in(marks), users))
}

// The least key whose row breaks its line, in tables that have these marks.
fn bad_in(alloc: Global, marks: &[Mark]) -> Result<Option<Key>, KeepErr>
    ensures ok { IfOk result (λ bad. (t : Tables) → marks.now ≡ marks_of t → Judged t bad) }
    ensures err { IfErr result (λ err. err ≡ KeepErr.Memory) }
{
    let compared = compared_in(alloc, marks)?;
    let bad = least_bad(marks, &compared);
    Ok(bad)
}

// What the rows are compared with besides single ones.
fn compared_in(alloc: Global, marks: &[Mark]) -> Result<Compared, KeepErr>
    ensures ok { IfOk result (λ compared. (t : Tables) → marks.now ≡ marks_of t
        → IsCompared compared t) }
    ensures err { IfErr result (λ err. err ≡ KeepErr.Memory) }
{
    let pools = pools_in(alloc, marks)?;
    let device_pools = device_pools_in(alloc, marks)?;
    let several = several_in(alloc, marks)?;
    Ok(Compared {
        pools,
        device_pools,
        several,
    })
}

// Likewise, where this is what the tables' rows are compared with.
fn least_bad(marks: &[Mark], compared: &Compared) -> Option<Key>
    ensures { (t : Tables) → marks.now ≡ marks_of t → IsCompared compared.now t
        → Judged t result }
{
    for mark in marks {
        if !keeps(marks, compared, mark) {
            return Some(mark.key);
        }
    }
    None
}
