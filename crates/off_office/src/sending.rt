ghost use Rattle.std.specs.Prelude.{◌≡◌};
ghost use Rattle.off_office.specs.Sending.{SentOne, SentAll};

use off_outside::{Link, Pass, Replies, Sent};

/// Hands one item to the link, at the keeper's moment that the pass has, and tells whether it went
/// out.
pub fn send_one<L: Link>(link: &mut L, pass: Pass, item: &Sent) -> bool
    ensures { SentOne item.now pass.moment result (L.seen link.old) (L.seen link.new) }
{
    let went = match item {
        Sent::Datagram { service, to, bytes } => link.send(pass, *service, *to, bytes.as_slice()),
        Sent::Answer { conn, bytes } => link.answer(pass, *conn, bytes.as_slice()),
        Sent::Close { conn } => link.close(pass, *conn),
    };
    went.is_ok()
}

/// Hands each thing to send to the link, in order, and tells whether all went out. One that doesn't
/// is passed over.
pub fn send_all<L: Link>(link: &mut L, pass: Pass, replies: &Replies) -> bool
    ensures { SentAll replies.now.items pass.moment result (L.seen link.old) (L.seen link.new) }
{
    let mut all = true;
    for i in 0..replies.len() {
        let went = send_one(link, pass, replies.get(i));
        all &= went;
    }
    all
}
