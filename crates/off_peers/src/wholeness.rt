ghost use Rattle.std.specs.Prelude.{IfOk};
ghost use Rattle.off_peers.specs.Wholeness.{Judges};

use off_base::NoMemory;
use off_http::{Fed, Session};
use std::alloc::Global;

/// Whether bytes are a whole request of a clerk, or none, whatever follows them, so that the office
/// answers without more of them.
pub fn is_whole(alloc: Global, bytes: &[u8]) -> Result<bool, NoMemory>
    ensures { IfOk result (λ whole. Judges bytes.now whole) }
{
    let mut session = Session::new(alloc);
    match session.feed(bytes) {
        Ok(Fed::Wait) => Ok(false),
        Ok(Fed::Whole | Fed::Bad(_)) => Ok(true),
        Err(NoMemory) => Err(NoMemory),
    }
}
