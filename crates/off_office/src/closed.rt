ghost use Rattle.std.specs.Prelude.{◌≡◌};
ghost use Rattle.off_rows.specs.KeyText.{key_text_of};
ghost use Rattle.off_jobs.specs.Ending.{Tells, tables_refused};
ghost use Rattle.off_office.specs.Closed.{closed_end};

use crate::office::StartErr;
use arrayvec::ArrayVec;
use off_defs::Key;
use off_jobs::{tell, tell_memory, tell_undone};
use off_outside::{KeepErr, Sink};
use off_rows::key_text;

/// Writes the line of an office that didn't open, and answers the status.
pub fn stay_closed<W: Sink>(err: StartErr, out: &mut W) -> u8
    ensures { Tells (closed_end err) result (W.seen out.old) (W.seen out.new) }
{
    match err {
        StartErr::Bad(key) => {
            let line = refusal_line(&key);
            tell(out, line.as_slice(), 2)
        }
        StartErr::Failed => tell_undone(KeepErr::Failed, out),
        StartErr::Memory => tell_memory(out),
    }
}

// The line that names the least bad key.
fn refusal_line(key: &Key) -> ArrayVec<u8, 80>
    ensures { result.items ≡ (tables_refused (key_text_of key.now)).text }
{
    let text = key_text(key);
    let mut line = ArrayVec::new();
    let _words = line.try_extend_from_slice(b"tables refused ");
    let _key = line.try_extend_from_slice(text.as_slice());
    let _end = line.try_extend_from_slice(b"\n");
    line
}
