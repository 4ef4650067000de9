ghost use Rattle.std.specs.Prelude.{◌≡◌, true, IfOk};
ghost use Rattle.off_base.specs.Parts.{parts_in, bytes_of};
ghost use Rattle.off_docsis.specs.Cable.{device_of, ShowsDevice, ReadsParts};

use crate::spans::{Codes, first_parts};
use crate::{PartCut, Span};
use off_base::Joined;

// The parts of option 43 that the office reads (CANN-DHCP-Reg).
const DEVICE_TYPE: u8 = 2;

const SERIAL_NUMBER: u8 = 4;

const SOFTWARE_VERSION: u8 = 6;

/// Where a modem names itself in its vendor-specific information (option 43).
#[derive(Clone, Copy, PartialEq, Eq)]
pub struct DeviceParts {
    pub kind: Span,
    pub serial: Span,
    pub software: Span,
}

/// The first parts 2, 4 and 6. Code 0 is a pad of one byte, and code 255 ends the parts.
///
/// `PartCut` comes exactly where a part passes the end, with the place of the first such part.
#[tactic(auto, using(crate::proofs::SpanLemmas::device_ok, crate::proofs::SpanLemmas::device_err))]
pub fn device(option43: &Joined<'_>) -> Result<DeviceParts, PartCut>
    ensures parts { result ≡ device_of (parts_in true (bytes_of option43.now)) }
    ensures spans { IfOk result (λ found.
        let value = bytes_of option43.now in ShowsDevice value found (parts_in true value)) }
    ensures reading { ReadsParts true (bytes_of option43.now) }
{
    let wanted = Codes {
        first: DEVICE_TYPE,
        second: SERIAL_NUMBER,
        third: SOFTWARE_VERSION,
    };
    let found = first_parts(&mut option43.bytes(), wanted, true)?;
    Ok(DeviceParts {
        kind: found.first,
        serial: found.second,
        software: found.third,
    })
}
