ghost use Rattle.std.specs.Prelude.{◌≡◌, ◌≤◌};
ghost use Rattle.std.specs.Option.{option_map};
ghost use Rattle.off_defs.specs.Told.{IsOne};
ghost use Rattle.off_defs.specs.Tables.{row_at, next_entry};
ghost use Rattle.off_outside.specs.KeeperSeen.{KeeperSeen, Rests};
ghost use Rattle.off_outside.specs.KeeperCalls.{Looks, Commits, Stages, Secures, WasCounted};

use crate::link::Failed;
use off_base::NoMemory;
use off_defs::{Key, Row, Writes};
use std::alloc::Global;

/// Why a keeper of the tables didn't do a call.
#[derive(Clone, Copy, Debug, PartialEq, Eq)]
pub enum KeepErr {
    /// Memory was wanted, and refused.
    Memory,
    /// The keeper failed, and counted a fault.
    Failed,
}

impl From<NoMemory> for KeepErr {
    ghost use Rattle.std.specs.Prelude.{◌≡◌};
    ghost use Rattle.off_outside.specs.declared.keeper.KeepErr.TheVariants.{Memory};

    ghost from_gives = { λ refused err. err ≡ Memory };

    fn from(_refused: NoMemory) -> KeepErr {
        KeepErr::Memory
    }
}

/// Where the office's tables stand. After an error the tables are as before, and `Failed` has
/// raised the faults.
pub trait Keeper {
    // What it tells: its tables, perhaps untold; its faults; how many calls and commits it has had;
    // what a crash may leave, by a clock of its own; and whether writes wait to be saved.
    ghost seen: { Self → KeeperSeen };

    /// The row of a key, or `None` where the key has none.
    fn get(&mut self, alloc: Global, key: &Key) -> Result<Option<Row>, KeepErr>
        ensures told { Looks result (seen self.old) (seen self.new)
            (λ row tables. row ≡ row_at tables key.now) }
        ensures counted { WasCounted (seen self.old) (seen self.new) };

    /// The entry of the least key, or of the least key above `after`, or `None` where there is
    /// none.
    fn next(&mut self, alloc: Global, after: Option<&Key>) -> Result<Option<(Key, Row)>, KeepErr>
        ensures told { Looks result (seen self.old) (seen self.new)
            (λ entry tables. entry ≡ next_entry (option_map (λ key. key.now) after.entry) tables) }
        ensures counted { WasCounted (seen self.old) (seen self.new) };

    /// Does all the writes, in order, or none of them, and saves them with all that waited before
    /// them. To drop a key that has no row changes nothing.
    fn commit(&mut self, alloc: Global, writes: &Writes) -> Result<(), KeepErr>
        ensures told { Commits result (seen self.old) (seen self.new) writes.now }
        ensures counted { WasCounted (seen self.old) (seen self.new) };

    /// Does all the writes in the tables, in order, or none of them. They may wait to be saved until
    /// the next `secure` or `commit`; until then a crash may leave the tables without them.
    fn stage(&mut self, alloc: Global, writes: &Writes) -> Result<(), KeepErr>
        ensures told { Stages result (seen self.old) (seen self.new) writes.now }
        ensures counted { WasCounted (seen self.old) (seen self.new) };

    /// Saves all writes that wait, in one commit. It wants no memory. After `Failed` they wait
    /// still, and the faults rose.
    fn secure(&mut self) -> Result<(), Failed>
        ensures told { Secures result (seen self.old) (seen self.new) }
        ensures counted { (seen self.old).calls ≤ (seen self.new).calls };

    /// Whether writes wait to be saved.
    fn waits(&self) -> bool
        ensures { result ≡ (seen self.now).waits };

    /// The moment by the keeper's own clock, by which it tells what a crash may leave. A keeper
    /// that tells nothing of crashes stays at 0.
    fn moment(&self) -> u64
        ensures { result ≡ (seen self.now).moment };

    // What is told is one value, as long as the keeper is up.
    ghost one_tables: { (s : Self) → (seen s).up → IsOne (seen s).tables };

    // Between two calls a crash leaves what is told, or a commit in doubt besides.
    ghost rests: { (s : Self) → Rests (seen s) };
}
