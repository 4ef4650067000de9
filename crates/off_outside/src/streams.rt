ghost use Rattle.std.specs.Prelude.{◌≡◌, ◌≤◌, length, IfOk};
ghost use Rattle.off_defs.specs.Told.{IsOne};
ghost use Rattle.off_outside.specs.Streams.{SourceSeen, SinkSeen, Draws, Appends, ends_after};

use crate::failing::one_more;
use crate::link::Failed;

/// Where a job reads its bytes.
pub trait Source {
    // What it tells: the bytes that are left, perhaps untold, its faults, its calls, and its ends:
    // the reads that gave nothing although there was room.
    ghost seen: { Self → SourceSeen };

    /// Puts the next bytes at the front of `out`, and answers how many: at most the length of
    /// `out`, for every source. 0 with a non-empty `out` comes exactly at the end. After `Failed`
    /// the bytes left are as before, and `faults` rose.
    fn read(&mut self, out: &mut [u8]) -> Result<usize, Failed>
        ensures room { IfOk result (λ n. n ≤ length out.new) }
        ensures gave { Draws result out.new (seen self.old) (seen self.new) };

    // What is told is one value, as long as the source is up.
    ghost one_left: { (s : Self) → (seen s).up → IsOne (seen s).left };
}

/// A count of ends behind a read of so many bytes into so much room.
#[tactic(auto, using(crate::proofs::StreamLemmas::ends_rules))]
pub fn ends_after(count: usize, room: usize, ends: u64) -> u64
    ensures { result ≡ ends_after count room ends }
{
    if count > 0 {
        return ends;
    }
    if room > 0 { one_more(ends) } else { ends }
}

/// Where lines are written.
pub trait Sink {
    // What it tells: the bytes written, perhaps untold, its faults and its calls.
    ghost seen: { Self → SinkSeen };

    /// Appends the whole piece. After `Failed` a front of it was appended, and `faults` rose.
    fn write(&mut self, piece: &[u8]) -> Result<(), Failed>
        ensures { Appends result piece.now (seen self.old) (seen self.new) };

    // What is told is one value, as long as the sink is up.
    ghost one_written: { (s : Self) → (seen s).up → IsOne (seen s).written };
}
