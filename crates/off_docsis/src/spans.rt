ghost use Rattle.std.specs.Prelude.{◌≡◌};
ghost use Rattle.off_base.specs.Parts.{parts_in};
ghost use Rattle.off_docsis.specs.Spans.{spans_in, span_with, spans_with};

use off_base::{JoinedBytes, Step};

/// Where the value of a part stands in an option's joined value.
#[derive(Clone, Copy, PartialEq, Eq)]
pub struct Span {
    /// Whether there is such a part. If not, the other two are 0.
    pub there: bool,
    pub at: usize,
    pub len: usize,
}

/// A part passes the end of its option. The place is that of its code.
#[derive(Clone, Copy, PartialEq, Eq)]
pub struct PartCut {
    pub place: usize,
}

/// Where the values of the first parts with three codes stand.
#[derive(Clone, Copy)]
pub(crate) struct Spans {
    pub(crate) first: Span,
    pub(crate) second: Span,
    pub(crate) third: Span,
}

/// Three codes of parts.
#[derive(Clone, Copy)]
pub(crate) struct Codes {
    pub(crate) first: u8,
    pub(crate) second: u8,
    pub(crate) third: u8,
}

const NO_SPAN: Span = Span {
    there: false,
    at: 0,
    len: 0,
};

/// Where the values of the first parts with these codes stand, by one walk over the value.
///
/// Where the parts are `marked`, code 0 is a pad of one byte and code 255 the end.
pub(crate) fn first_parts(
    value: &mut JoinedBytes<'_>,
    wanted: Codes,
    marked: bool,
) -> Result<Spans, PartCut>
    ensures { result ≡ spans_in wanted (parts_in marked value.old) }
{
    let mut spans = Spans {
        first: NO_SPAN,
        second: NO_SPAN,
        third: NO_SPAN,
    };
    // A value is no longer than what lies in memory, so that a place in it is a `usize`.
    let _len = value.len();
    let mut at = 0;
    'parts: loop {
        match value.next_part(at, marked) {
            Step::Found(code, place, len) => {
                spans = with_part(spans, wanted, code, place + 2, len);
                at = place + 2 + len;
            }
            Step::End => return Ok(spans),
            Step::Cut(place) => return Err(PartCut { place }),
        }
    }
}

// The spans so far, and those of this part for which there was none.
fn with_part(spans: Spans, wanted: Codes, code: u8, at: usize, len: usize) -> Spans
    ensures { result ≡ spans_with spans wanted code at len }
{
    Spans {
        first: kept(spans.first, code == wanted.first, at, len),
        second: kept(spans.second, code == wanted.second, at, len),
        third: kept(spans.third, code == wanted.third, at, len),
    }
}

// The span so far where there is one, else this one where it is wanted.
fn kept(span: Span, wanted: bool, at: usize, len: usize) -> Span
    ensures { result ≡ span_with span wanted at len }
{
    if !span.there && wanted {
        Span {
            there: true,
            at,
            len,
        }
    } else {
        span
    }
}
