ghost use Rattle.std.specs.Prelude.{◌≡◌};
ghost use Rattle.off_jobs.specs.Jobs.{ChecksInput};
ghost use Rattle.off_jobs.specs.Text.{verdict_text, verdict_status};

use crate::input::read_input;
use crate::limits::MOST_BYTES;
use crate::telling::{mic_fault_line, tell, tell_unread};
use off_mic::{Verdict, verify};
use off_outside::{Sink, Source};
use std::alloc::Global;

/// Verifies the file that the source holds, under a secret, and writes whether each of its two
/// values is good.
///
/// Status 0: both are good. 4: the sink failed. 6: memory was refused. 7: the source failed. 8: a
/// value is bad, or the source holds more than 65,536 bytes, or the file is refused.
pub fn check_input<S: Source, W: Sink>(
    alloc: Global,
    secret: &[u8],
    source: &mut S,
    out: &mut W,
) -> u8
    ensures { ChecksInput secret.now result (S.seen source.old) (S.seen source.new)
        (W.seen out.old) (W.seen out.new) }
{
    match read_input(alloc, MOST_BYTES, source) {
        Ok(file) => match verify(file.as_slice(), secret) {
            Ok(verdict) => tell(out, answer(verdict), status(verdict)),
            Err(fault) => tell(out, mic_fault_line(fault).as_slice(), 8),
        },
        Err(err) => tell_unread(err, 8, out),
    }
}

fn answer(verdict: Verdict) -> &'static [u8]
    ensures { result.now ≡ verdict_text verdict }
{
    match (verdict.cm, verdict.cmts) {
        (true, true) => b"cm good\ncmts good\n",
        (true, false) => b"cm good\ncmts bad\n",
        (false, true) => b"cm bad\ncmts good\n",
        (false, false) => b"cm bad\ncmts bad\n",
    }
}

fn status(verdict: Verdict) -> u8
    ensures { result ≡ verdict_status verdict }
{
    if verdict.cm && verdict.cmts { 0 } else { 8 }
}
