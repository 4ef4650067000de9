ghost use Rattle.std.specs.Prelude.{◌≡◌, [], ◌==◌, length, IfOk, MatchBool};
ghost use Rattle.off_peers.specs.UnsentHeld.{Put, DoesNotFit, Sends};
ghost use Rattle.off_peers.specs.declared.unsent.Sending.TheVariants.{Whole};

use mio::net::TcpStream;
use off_base::NoMemory;
use std::alloc::Global;
use std::io::{ErrorKind, Write};
use std::marker::Model;

/// How many bytes an answer has at most.
///
/// The longest is that of a class: its name has 64 bytes, each of them an escape of 6 at worst, and
/// its settings 2,048 bytes as a file spells them. Of these an empty group takes 2 and is written
/// by 24, `{"code":255,"parts":[]},`, which is the most for a byte: 12. So the body is `{"name":"`
/// .. `","settings":[` .. `]}` of 9 + 384 + 14 + 24,576 + 2 = 24,985 bytes, and the head has 93.
pub const ANSWER_ROOM: usize = 25_600;

/// What became of the bytes that were to be sent.
#[derive(Clone, Copy, PartialEq, Eq)]
pub enum Sending {
    /// The system has taken all of them.
    Whole,
    /// The system takes no more for now.
    Rest,
    /// The connection is broken.
    Broken,
}

/// The bytes that a connection has still to be sent, in room that is taken when it is made.
#[derive(Drop)]
pub struct Unsent {
    bytes: Vec<u8>,
    // How many of them were sent.
    sent: usize,
    // How many more there is room for.
    room: usize,
}

impl Model for Unsent {
    ghost use Rattle.std.specs.Prelude.{◌+◌, ◌≤◌, drop, vec_len};
    ghost use Rattle.std.specs.Vec.{vec_capacity};
    ghost use Rattle.off_peers.specs.UnsentHeld.{UnsentHeld};

    ghost Value = { UnsentHeld };

    ghost view = { λ u. record { left = drop u.sent u.bytes.items; room = u.room } };

    ghost invariant = { λ u. (u.sent ≤ vec_len u.bytes)
        × (vec_len u.bytes + u.room ≤ vec_capacity u.bytes) };
}

impl Unsent {
    /// Nothing is to be sent, and there is room for an answer.
    pub fn new(alloc: Global) -> Result<Unsent, NoMemory>
        ensures { IfOk result (λ unsent. unsent ≡ record { left = []; room = ANSWER_ROOM }) }
    {
        match Vec::with_capacity(alloc, ANSWER_ROOM) {
            Ok(bytes) => Ok(Unsent {
                bytes,
                sent: 0,
                room: ANSWER_ROOM,
            }),
            Err(_refused) => Err(NoMemory),
        }
    }

    /// Puts a part behind the others, or changes nothing where it doesn't fit. It takes no memory.
    pub fn put(&mut self, part: &[u8]) -> bool
        ensures { MatchBool result (Put part.now self.old self.new)
            (DoesNotFit part.now self.old self.new) }
    {
        if self.room < part.len() {
            return false;
        }
        let _fits = self.bytes.extend_from_slice(part);
        self.room -= part.len();
        true
    }

    /// Whether nothing is to be sent.
    pub fn is_empty(&self) -> bool
        ensures { result ≡ (length self.now.left == 0) }
    {
        self.sent == self.bytes.len()
    }

    /// Hands the system as many of the bytes as it takes, and forgets these.
    pub fn send(&mut self, stream: &mut TcpStream) -> Sending
        ensures sends { Sends result self.old self.new }
        ensures none { self.old.left ≡ [] → result ≡ Whole }
    {
        let len = self.bytes.len();
        if self.sent == len {
            return Sending::Whole;
        }
        match stream.write(&self.bytes[self.sent..]) {
            Ok(count) => {
                self.sent += count;
                if self.sent == len {
                    Sending::Whole
                } else {
                    Sending::Rest
                }
            }
            Err(error) => match error.kind() {
                ErrorKind::WouldBlock | ErrorKind::Interrupted => Sending::Rest,
                _ => Sending::Broken,
            },
        }
    }
}
