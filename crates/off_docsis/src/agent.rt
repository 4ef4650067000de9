ghost use Rattle.std.specs.Prelude.{◌≡◌, false, IfOk};
ghost use Rattle.off_base.specs.Parts.{parts_in, bytes_of};
ghost use Rattle.off_docsis.specs.Cable.{relay_of, ShowsRelay, ReadsParts};

use crate::spans::{Codes, first_parts};
use crate::{PartCut, Span};
use off_base::Joined;

// The parts of option 82 (RFC 3046, section 2.0).
const CIRCUIT_ID: u8 = 1;

const REMOTE_ID: u8 = 2;

/// Where a relay names the way to a client in its relay agent information (option 82).
#[derive(Clone, Copy, PartialEq, Eq)]
pub struct RelayParts {
    pub circuit: Span,
    pub remote: Span,
}

/// The first parts 1 and 2. Every code has a length.
///
/// `PartCut` comes exactly where a part passes the end, with the place of the first such part.
#[tactic(auto, using(crate::proofs::SpanLemmas::relay_ok, crate::proofs::SpanLemmas::relay_err))]
pub fn relay(option82: &Joined<'_>) -> Result<RelayParts, PartCut>
    ensures parts { result ≡ relay_of (parts_in false (bytes_of option82.now)) }
    ensures spans { IfOk result (λ found.
        let value = bytes_of option82.now in ShowsRelay value found (parts_in false value)) }
    ensures reading { ReadsParts false (bytes_of option82.now) }
{
    let wanted = Codes {
        first: CIRCUIT_ID,
        second: REMOTE_ID,
        third: REMOTE_ID,
    };
    let found = first_parts(&mut option82.bytes(), wanted, false)?;
    Ok(RelayParts {
        circuit: found.first,
        remote: found.second,
    })
}
