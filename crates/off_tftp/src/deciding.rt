//! What a datagram comes to, before anything of it is said or done.

ghost use Rattle.std.specs.Prelude.{◌≡◌, IfOk};
ghost use Rattle.off_transfer_rules.specs.Transfers.{packet_to};
ghost use Rattle.off_tftp.specs.Deciding.{denial, refusal_of, denial_of};

use crate::agreements::Agreement;
use crate::live::Live;
use crate::transfers::Place;
use off_base::{Bytes, NoMemory, Peer};
use off_defs::{Sent, Service};
use off_kept::KeptBody;
use off_packets::error_packet;
use off_transfer_rules::TftpWord;
use std::alloc::Global;

/// What a datagram comes to.
#[derive(Drop)]
pub struct Decision {
    /// The word with which the log has it.
    pub word: TftpWord,
    /// The packet that goes to its peer, if any.
    pub sent: Option<Sent>,
    /// What becomes of the peer's transfer.
    pub change: Change,
    /// What was seen of agreement with it, to be remembered.
    pub agreed: Option<Agreement>,
}

/// What becomes of the peer's transfer, and where that stands.
#[derive(Drop)]
pub enum Change {
    /// It stays as it is, where there is one.
    Stays,
    /// Its first packet is sent again.
    AsksAgain(Place),
    /// Its next block is sent.
    GoesOn(Place),
    /// It ends.
    Ends(Place),
    /// Another one begins, and what its file is made of is kept for its modem.
    Begins {
        place: Place,
        live: Live,
        entry: KeptBody,
    },
}

/// A packet to a peer, from the port of requests.
pub(crate) fn packet_to(to: Peer, bytes: Bytes) -> Sent
    ensures { result ≡ packet_to to bytes }
{
    Sent::Datagram {
        service: Service::Tftp,
        to,
        bytes,
    }
}

/// Why a datagram is refused.
#[derive(Clone, Copy, PartialEq, Eq)]
pub(crate) enum Refusal {
    /// It's no packet that is read, or of a kind that isn't served.
    Form,
    /// It offers a file.
    Write,
    /// It asks for another mode than `octet`.
    Mode,
    /// Its address isn't bound to a modem.
    NoLease,
    /// The tables don't agree with it, or no longer.
    Agreement,
    /// Its modem has no such file.
    Name,
    /// Too many transfers are live.
    Full,
    /// It acknowledges a packet of no transfer.
    Unknown,
}

/// Refuses, with the code and the text that the sender is told (RFC 1350, appendix).
pub(crate) fn refuse(alloc: Global, from: Peer, why: Refusal) -> Result<Decision, NoMemory>
    ensures { IfOk result (λ d. d ≡ refusal_of from (denial_of why)) }
{
    match why {
        Refusal::Form => deny(alloc, from, 4, b"illegal operation", TftpWord::Form),
        Refusal::Write => deny(alloc, from, 2, b"access violation", TftpWord::Write),
        Refusal::Mode => deny(alloc, from, 0, b"octet only", TftpWord::Mode),
        Refusal::NoLease => deny(alloc, from, 2, b"no lease", TftpWord::NoLease),
        Refusal::Agreement => deny(alloc, from, 2, b"no longer agreed", TftpWord::Agreement),
        Refusal::Name => deny(alloc, from, 1, b"file not found", TftpWord::Name),
        Refusal::Full => deny(alloc, from, 0, b"too many transfers", TftpWord::Full),
        Refusal::Unknown => deny(alloc, from, 5, b"unknown transfer", TftpWord::Unknown),
    }
}

// A refusal by a code, a text for people, and the word.
fn deny(
    alloc: Global,
    from: Peer,
    code: u16,
    text: &[u8],
    word: TftpWord,
) -> Result<Decision, NoMemory>
    ensures { IfOk result (λ d. d ≡ refusal_of from (denial code text.now word)) }
{
    let packet = error_packet(alloc, code, text)?;
    Ok(Decision {
        word,
        sent: Some(packet_to(from, packet)),
        change: Change::Stays,
        agreed: None,
    })
}
