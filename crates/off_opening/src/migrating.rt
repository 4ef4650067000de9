//! What an opening has to write: the site of earlier days becomes the hub 0.

ghost use Rattle.std.specs.Prelude.{◌≡◌, IfErr, IfOk};
ghost use Rattle.off_outside.specs.KeeperCalls.{Looks, WasCounted};
ghost use Rattle.off_account_rules.specs.Migration.{migration, migration_of};

use off_defs::{Key, Row, Write, Writes};
use off_outside::{KeepErr, Keeper};
use std::alloc::Global;

/// What the migration of the tables writes, in one commit: nothing where there is no site of
/// earlier days. It changes nothing.
///
/// An error is the keeper's, or `Memory` where the two writes have none.
pub fn read_migration<K: Keeper>(alloc: Global, keeper: &mut K) -> Result<Writes, KeepErr>
    ensures told { Looks result (K.seen keeper.old) (K.seen keeper.new)
        (λ writes t. writes ≡ migration t) }
    ensures counted { WasCounted (K.seen keeper.old) (K.seen keeper.new) }
{
    let site = keeper.get(alloc, &Key::Site)?;
    migration_of(alloc, site)
}

// What is written where this is the row of the site of earlier days.
fn migration_of(alloc: Global, site: Option<Row>) -> Result<Writes, KeepErr>
    ensures ok { IfOk result (λ writes. writes ≡ migration_of site) }
    ensures err { IfErr result (λ err. err ≡ KeepErr.Memory) }
{
    let mut writes = Writes::new(alloc);
    if let Some(site) = site {
        writes.push(Write::Put(Key::Hub(0), site))?;
        writes.push(Write::Drop(Key::Site))?;
    }
    Ok(writes)
}
