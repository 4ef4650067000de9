ghost use Rattle.std.specs.Prelude.{◌≡◌, ◌<◌, IfOk};
ghost use Rattle.off_http.specs.Request.{Waits};
ghost use Rattle.off_http.specs.Heard.{Answers, IsAsked};
ghost use Rattle.off_http.specs.Reply.{is_reply_status};

use off_base::NoMemory;
use off_http::{Fed, HttpFault, Session, reply_bytes};
use script_words::{Line, Page, Unread};
use std::alloc::Global;

// Feeds bytes in pieces of so many, until the session answers.
fn feed_in(session: &mut Session, bytes: &[u8], size: usize) -> Result<Fed, NoMemory>
    requires waits { session.old.answer ≡ Waits }
    requires some { 0 < size }
    ensures { IfOk result (λ fed. Answers fed session.new.answer) }
{
    let mut at = 0;
    while at < bytes.len() {
        let end = bytes.len().min(at.saturating_add(size));
        match session.feed(&bytes[at..end])? {
            Fed::Wait => at = end,
            Fed::Whole => return Ok(Fed::Whole),
            Fed::Bad(fault) => return Ok(Fed::Bad(fault)),
        }
    }
    Ok(Fed::Wait)
}

/// `http 20 "GET / HTTP/1.1"`: what the bytes say in pieces of 20: `wait`, the fault, or the whole
/// request.
pub fn http(alloc: Global, page: &mut Page, line: Line<'_>) -> Result<(), Unread> {
    let mut line = line;
    let size = line.size()?;
    if size == 0 {
        return Err(Unread::Words);
    }
    let bytes = line.bytes(alloc)?;
    let mut session = Session::new(alloc);
    match feed_in(&mut session, bytes.as_slice(), size)? {
        Fed::Wait => Ok(page.text("wait")?),
        Fed::Whole => Ok(show_request(page, &session)?),
        Fed::Bad(fault) => Ok(show_fault(page, fault)?),
    }
}

fn show_fault(page: &mut Page, fault: HttpFault) -> Result<(), NoMemory> {
    page.text(match fault {
        HttpFault::Head => "head",
        HttpFault::Body => "body",
        HttpFault::TooLong => "too-long",
    })
}

fn show_request(page: &mut Page, session: &Session) -> Result<(), NoMemory>
    requires { IsAsked session.now.answer }
{
    page.text("whole ")?;
    page.escaped(session.method())?;
    page.text(" ")?;
    page.escaped(session.path())?;
    page.text(" ")?;
    page.escaped(session.body())
}

// A status that replies have.
fn is_known(status: u16) -> bool
    ensures { result ≡ is_reply_status status }
{
    status == 200
        || status == 400
        || status == 404
        || status == 405
        || status == 409
        || status == 413
        || status == 422
}

/// `reply 200 '{"ok":true}'`: the bytes of a reply.
pub fn reply(alloc: Global, page: &mut Page, line: Line<'_>) -> Result<(), Unread> {
    let mut line = line;
    let status = u16::try_from(line.number(999)?).unwrap_or(0);
    let body = line.bytes(alloc)?;
    if !is_known(status) {
        return Err(Unread::Words);
    }
    let bytes = reply_bytes(alloc, status, body.as_slice())?;
    Ok(page.escaped(bytes.as_slice())?)
}
