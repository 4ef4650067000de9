ghost use Rattle.off_defs.specs.declared.results.Sent.TheVariants as sent;
ghost use Rattle.off_book.specs.Step.{added_items};
ghost use Rattle.off_book.specs.Http.{answer_and_close, no_memory_reply, no_keeper_reply};
ghost use Rattle.off_office.specs.Sending.{SentOne, SentAll};

use off_outside::{Link, Outcome, Pass, What};

// What a clerk is answered where memory was wanted, and where the keeper of the tables failed (RFC
// 9110, section 15.6).
const NO_MEMORY: &[u8] =
    b"HTTP/1.1 503 Service Unavailable\r\nContent-Length: 0\r\nConnection: close\r\n\r\n";

const NO_KEEPER: &[u8] =
    b"HTTP/1.1 500 Internal Server Error\r\nContent-Length: 0\r\nConnection: close\r\n\r\n";

/// Hands to the link what stands behind the items of an event: of a piece that the office couldn't
/// act on the answer, which is the same bytes each time, and the end of the connection. It takes no
/// memory.
#[tactic(auto, using(off_office::proofs::SendLemmas::sent_none))]
pub fn send_added<L: Link>(link: &mut L, pass: Pass, what: &What, outcome: Outcome) -> bool
    ensures { SentAll (added_items what.now outcome) pass.moment result (L.seen link.old)
        (L.seen link.new) }
{
    match what {
        What::Piece { conn, bytes: _ } => match outcome {
            Outcome::Did => true,
            Outcome::Memory => answer_and_close(link, pass, *conn, NO_MEMORY),
            Outcome::Keeper => answer_and_close(link, pass, *conn, NO_KEEPER),
        },
        What::Datagram {
            service: _,
            from: _,
            bytes: _,
        } => true,
        What::Closed { conn: _ } => true,
        What::Tick => true,
        What::End => true,
    }
}

// Answers a connection and closes it.
fn answer_and_close<L: Link>(link: &mut L, pass: Pass, conn: u32, bytes: &[u8]) -> bool
    ensures { SentAll (answer_and_close conn bytes.now) pass.moment result (L.seen link.old)
        (L.seen link.new) }
{
    let answered = give_answer(link, pass, conn, bytes);
    let closed = give_close(link, pass, conn);
    answered & closed
}

fn give_answer<L: Link>(link: &mut L, pass: Pass, conn: u32, bytes: &[u8]) -> bool
    ensures { SentOne (sent.Answer conn bytes.now) pass.moment result (L.seen link.old)
        (L.seen link.new) }
{
    link.answer(pass, conn, bytes).is_ok()
}

fn give_close<L: Link>(link: &mut L, pass: Pass, conn: u32) -> bool
    ensures { SentOne (sent.Close conn) pass.moment result (L.seen link.old) (L.seen link.new) }
{
    link.close(pass, conn).is_ok()
}
