ghost use Rattle.std.specs.Prelude.{◌≡◌, ◌++◌, Some, IsSome, IsTrue, IfOk, OnOk};
ghost use Rattle.http.specs.StatusCode.{IsStatusCode, reason_phrase};
ghost use Rattle.off_http.specs.Reply.{is_reply_status, status_line, length_line, reply};

use http::StatusCode;
use itoa::Buffer;
use off_base::{Bytes, NoMemory};
use std::alloc::Global;

/// The bytes of a reply with a JSON body, after which the connection is closed (RFC 9112, section
/// 9.6).
///
/// The status is 200, 400, 404, 405, 409, 413 or 422. The only error is want of memory.
pub fn reply_bytes(alloc: Global, status: u16, body: &[u8]) -> Result<Bytes, NoMemory>
    requires { IsTrue (is_reply_status status) }
    ensures { IfOk result (λ bytes. bytes ≡ reply status body.now) }
{
    let mut bytes = Bytes::new(alloc);
    write_status_line(&mut bytes, status)?;
    bytes.push_all(b"Content-Type: application/json\r\n")?;
    write_length_line(&mut bytes, body.len())?;
    bytes.push_all(b"Connection: close\r\n")?;
    bytes.push_all(b"\r\n")?;
    bytes.push_all(body)?;
    Ok(bytes)
}

// The status line.
fn write_status_line(bytes: &mut Bytes, status: u16) -> Result<(), NoMemory>
    requires { IsTrue (is_reply_status status) }
    ensures { OnOk result (bytes.new ≡ bytes.old ++ status_line status) }
{
    let mut digits = Buffer::new();
    bytes.push_all(b"HTTP/1.1 ")?;
    bytes.push_all(digits.format(status).as_bytes())?;
    bytes.push_all(b" ")?;
    bytes.push_all(phrase(status).as_bytes())?;
    bytes.push_all(b"\r\n")
}

// The field that gives the length of the body.
fn write_length_line(bytes: &mut Bytes, len: usize) -> Result<(), NoMemory>
    ensures { OnOk result (bytes.new ≡ bytes.old ++ length_line len) }
{
    let mut digits = Buffer::new();
    bytes.push_all(b"Content-Length: ")?;
    bytes.push_all(digits.format(len).as_bytes())?;
    bytes.push_all(b"\r\n")
}

// The phrase of a status (RFC 9110, section 15).
fn phrase(status: u16) -> &'static str
    requires known { IsSome (reason_phrase status) }
    requires code { IsStatusCode status }
    ensures { Some result.now ≡ reason_phrase status }
{
    StatusCode::from_u16(status)
        .unwrap()
        .canonical_reason()
        .unwrap()
}
