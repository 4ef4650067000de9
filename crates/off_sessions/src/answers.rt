ghost use Rattle.std.specs.Prelude.{◌≡◌, ◌≤◌, ◌<◌, ◌^◌, length, IsTrue, codes};
ghost use Rattle.off_defs.specs.State.{says_nothing};
ghost use Rattle.off_http.specs.Reply.{is_reply_status};
ghost use Rattle.off_sessions.specs.Answers.{said_as, fault_said, fault_line, reply_said};
ghost use Rattle.off_sessions.specs.Answers.{busy_said, IsSaid, Fails};

use arrayvec::ArrayVec;
use itoa::Buffer;
use off_clerk::{Fault, fault_json, fault_status, fault_word, reply_json};
use off_http::reply_bytes;
use off_orders::Reply;
use off_outside::{KeepErr, Outcome, Replies, Sent};
use std::alloc::Global;

/// Answers a connection that a request is at fault, and closes it.
pub fn answer_fault(alloc: Global, conn: u32, f: &Fault, out: &mut Replies) -> Result<(), KeepErr>
    requires { out.old ≡ says_nothing }
    ensures { IsSaid result out.new (fault_said conn f.now) }
{
    let body = fault_json(alloc, f)?;
    let status = fault_status(f);
    let line = line_of_fault(status, fault_word(f));
    answer_with(alloc, conn, status, body.as_slice(), line.as_slice(), out)
}

/// Answers a connection that a command was done, and closes it.
pub fn answer_reply(alloc: Global, conn: u32, r: &Reply, out: &mut Replies) -> Result<(), KeepErr>
    requires { out.old ≡ says_nothing }
    ensures { IsSaid result out.new (reply_said conn r.now) }
{
    let body = reply_json(alloc, r)?;
    answer_with(alloc, conn, 200, body.as_slice(), b"http 200", out)
}

/// Closes a connection that is one too many.
pub fn close_busy(conn: u32, out: &mut Replies) -> Result<(), KeepErr>
    requires clean { out.old ≡ says_nothing }
    ensures { IsSaid result out.new (busy_said conn) }
{
    out.push(Sent::Close { conn })?;
    out.set_line(b"http busy");
    Ok(())
}

// Puts an answer in hand, the end of the connection behind it, and the line.
fn answer_with(
    alloc: Global,
    conn: u32,
    status: u16,
    body: &[u8],
    line: &[u8],
    out: &mut Replies,
) -> Result<(), KeepErr>
    requires known { IsTrue (is_reply_status status) }
    requires short { length line.now ≤ 80 }
    requires clean { out.old ≡ says_nothing }
    ensures { IsSaid result out.new (said_as conn status body.now line.now) }
{
    let bytes = reply_bytes(alloc, status, body)?;
    out.push(Sent::Answer { conn, bytes })?;
    out.push(Sent::Close { conn })?;
    out.set_line(line);
    Ok(())
}

// The line of a fault: the service, the status, the word.
fn line_of_fault(status: u16, word: &[u8]) -> ArrayVec<u8, 80>
    requires { length word.now ≤ 40 }
    ensures { result.items ≡ fault_line status word.now }
{
    let mut buffer = Buffer::new();
    let digits = buffer.format(status);
    let mut line = ArrayVec::new();
    let _service = line.try_extend_from_slice(b"http ");
    let _status = line.try_extend_from_slice(digits.as_bytes());
    let _space = line.try_extend_from_slice(b" ");
    let _word = line.try_extend_from_slice(word);
    line
}

/// Says that a piece couldn't be acted on, and nothing else.
pub fn fail(err: KeepErr, out: &mut Replies) -> Outcome
    ensures { Fails err result out.new }
{
    out.clear();
    match err {
        KeepErr::Memory => {
            out.set_line(b"http memory");
            Outcome::Memory
        }
        KeepErr::Failed => {
            out.set_line(b"http keeper");
            Outcome::Keeper
        }
    }
}
