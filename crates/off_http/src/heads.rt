ghost use Rattle.std.specs.Prelude.{◌≡◌, ◌≤◌, List, ℕ, length, take, IfNone, IfSome, MatchResult};
ghost use Rattle.std.specs.Prelude.{None};
ghost use Rattle.memchr.specs.Find.{FindsNeedle};
ghost use Rattle.httparse.specs.Grammar.{RequestHead};
ghost use Rattle.httparse.specs.Spans.{IsRequestWithin, IsRequestAt};
ghost use Rattle.off_http.specs.Request.{Refused, head_limit, field_limit, blank_line, IsOneHead};
ghost use Rattle.off_http.specs.Request.{HeadSays};
ghost use Rattle.off_http.specs.Stages.{HeadHas};

use crate::answers::HttpFault;
use crate::lengths::declared_body;
use httparse::Status;
use httparse::spans::{EMPTY_HEADER_SPAN, HeaderSpan, RequestSpans, Span, parse_request};
use memchr::memmem;

pub(crate) const HEAD_LIMIT: usize = 8_192;

const FIELD_LIMIT: usize = 64;

const BODY_LIMIT: u64 = 1_048_576;

// Where the parts of a request stand among the bytes of its connection.
#[derive(Clone, Copy)]
pub(crate) struct Parts {
    pub(crate) method: Span,
    pub(crate) target: Span,
    pub(crate) head_len: usize,
    pub(crate) body_len: usize,
}

// The bytes among which a blank line is sought: as many as a head may have.
pub(crate) fn head_room(bytes: &[u8]) -> &[u8]
    ensures { result.now ≡ take head_limit bytes.now }
{
    let end = HEAD_LIMIT.min(bytes.len());
    &bytes[..end]
}

// Where the first blank line begins, in bytes that have none among the first `seen`.
pub(crate) fn blank_line_at(room: &[u8], seen: usize) -> Option<usize>
    requires seen_in { seen ≤ length room.now }
    requires unseen { FindsNeedle (take seen room.now) blank_line 0 None }
    ensures { FindsNeedle room.now blank_line 0 result }
{
    // A blank line that wasn't there before may have begun in the last three bytes.
    let from = seen.saturating_sub(3);
    let Some(at) = memmem::find(&room[from..], b"\r\n\r\n") else {
        return None;
    };
    Some(from + at)
}

// Where the parts of the head stand, in bytes that end with their first blank line.
pub(crate) fn read_head(text: &[u8]) -> Result<Parts, HttpFault>
    ensures { MatchResult result (HeadHas text.now)
        (λ fault. (rest : List ℕ) → HeadSays text.now rest (Refused fault)) }
{
    let mut fields = [EMPTY_HEADER_SPAN; FIELD_LIMIT];
    let Some(spans) = one_head(text, &mut fields) else {
        return Err(HttpFault::Head);
    };
    let Some(body_len) = declared_body(text, &fields[..spans.headers]) else {
        return Err(HttpFault::Body);
    };
    if body_len > BODY_LIMIT {
        return Err(HttpFault::TooLong);
    }
    Ok(Parts {
        method: spans.method,
        target: spans.path,
        head_len: spans.len,
        body_len: body_len as usize,
    })
}

// The one head that the bytes are.
fn one_head(text: &[u8], fields: &mut [HeaderSpan]) -> Option<RequestSpans>
    requires { length fields.old ≡ field_limit }
    ensures within { IfSome result (IsRequestWithin text.now fields.new) }
    ensures whole { IfSome result (λ spans. spans.len ≡ length text.now) }
    ensures found { IfSome result (λ spans.
        (head : RequestHead) × IsRequestAt text.now fields.new spans head) }
    ensures none { IfNone result ((head : RequestHead) → ¬ (IsOneHead text.now head)) }
{
    match parse_request(text, fields) {
        Ok(Status::Complete(spans)) if spans.len == text.len() => Some(spans),
        _ => None,
    }
}
