ghost use Rattle.off_jobs.specs.Jobs.{SealsInput};

use crate::input::read_input;
use crate::limits::MOST_BYTES;
use crate::telling::{read_fault_line, tell, tell_memory, tell_unread};
use off_mic::seal;
use off_outside::{Sink, Source};
use off_tlv::FileErr;
use std::alloc::Global;

/// Seals the file that the source holds, under a secret, and writes the sealed file
/// (CM-SP-MULPIv3.1, annex D.1.3).
///
/// Status 0: sealed. 4: the sink failed. 6: memory was refused. 7: the source failed. 9: the
/// source holds more than 65,536 bytes, or the grammar refuses the file.
pub fn seal_input<S: Source, W: Sink>(
    alloc: Global,
    secret: &[u8],
    source: &mut S,
    out: &mut W,
) -> u8
    ensures { SealsInput secret.now result (S.seen source.old) (S.seen source.new)
        (W.seen out.old) (W.seen out.new) }
{
    match read_input(alloc, MOST_BYTES, source) {
        Ok(file) => match seal(alloc, file.as_slice(), secret) {
            Ok(sealed) => tell(out, sealed.as_slice(), 0),
            Err(FileErr::Read(fault)) => tell(out, read_fault_line(fault).as_slice(), 9),
            Err(FileErr::Memory) => tell_memory(out),
        },
        Err(err) => tell_unread(err, 9, out),
    }
}
