ghost use Rattle.std.specs.Prelude.{◌≡◌};
ghost use Rattle.std.specs.Option.{option_map};
ghost use Rattle.off_defs.specs.Told.{IsOne};
ghost use Rattle.off_cells.specs.CellsSeen.{CellsSeen, cell_at, next_cell};
ghost use Rattle.off_cells.specs.CellCalls.{CellLooks, CellCommits, CellCallCounted};

use crate::writes::CellWrites;
use off_base::Bytes;
use off_outside::KeepErr;
use off_rows::KeyBytes;
use std::alloc::Global;

/// Values of bytes by keys of 1 to 9 bytes. After an error the cells are as before, and `Failed`
/// has raised the faults.
pub trait Cells {
    // What it tells: its cells, perhaps untold; its faults; and how many calls it has had.
    ghost seen: { Self → CellsSeen };

    /// The value of a key, or `None` where the key has none.
    fn get(&mut self, alloc: Global, key: &KeyBytes) -> Result<Option<Bytes>, KeepErr>
        ensures told { CellLooks result (seen self.old) (seen self.new)
            (λ val cells. val ≡ cell_at cells key.now) }
        ensures counted { CellCallCounted (seen self.old) (seen self.new) };

    /// The cell of the least key, or of the least key above `after` in the order of lists of bytes,
    /// or `None` where there is none.
    fn next(
        &mut self,
        alloc: Global,
        after: Option<&KeyBytes>,
    ) -> Result<Option<(KeyBytes, Bytes)>, KeepErr>
        ensures told { CellLooks result (seen self.old) (seen self.new)
            (λ cell cells. cell ≡ next_cell (option_map (λ key. key.now) after.entry) cells) }
        ensures counted { CellCallCounted (seen self.old) (seen self.new) };

    /// Does all the writes, in order, or none of them. To drop a key that has no value changes
    /// nothing.
    fn commit(&mut self, alloc: Global, writes: &CellWrites) -> Result<(), KeepErr>
        ensures told { CellCommits result (seen self.old) (seen self.new) writes.now }
        ensures counted { CellCallCounted (seen self.old) (seen self.new) };

    // What is told is one value, as long as the cells are up.
    ghost one_cells: { (s : Self) → (seen s).up → IsOne (seen s).cells };
}
