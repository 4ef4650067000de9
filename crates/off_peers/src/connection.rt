ghost use Rattle.std.specs.Prelude.{◌≡◌, ◌≢◌, ◌<◌, ◌≤◌, ◌↔◌, ◌⊎◌, length, IsTrue};
ghost use Rattle.std.specs.Prelude.{true, false, Some, None, MatchOption};
ghost use Rattle.off_peers.specs.Connections.{GivesNothing, IsInTime, IsPieceOf, IsSpoken};
ghost use Rattle.off_peers.specs.Connections.{IsHeardAt, later};
ghost use Rattle.mio.specs.Event.{is_readable, is_read_closed, is_error};
ghost use Rattle.off_peers.specs.declared.connection.Heard.TheVariants as heard;
ghost use Rattle.off_peers.specs.declared.connection.Stage.TheVariants as stage;

use crate::unsent::{Sending, Unsent};
use crate::wholeness::is_whole;
use mio::event::Event;
use mio::net::TcpStream;
use off_base::{Bytes, NoMemory};
use std::alloc::Global;
use std::io::{ErrorKind, Read, Write};
use std::net::Shutdown;

// How many bytes of a connection are taken at a time.
const ROOM: usize = 4096;

// A request that waits is judged by so many of its bytes: one that is longer isn't whole. The longest
// row of a clerk's, a class's, is shorter.
const MOST_JUDGED: usize = 32_768;

// How many times bytes that nobody wants are read before another socket is asked.
const MOST_DROPPED: u32 = 16;

// So many milliseconds a peer has, from the accept on, to send its first byte.
const LONGEST_SILENCE: u64 = 5_000;

// So many milliseconds a connection whose first bytes have come waits for the office to take them.
const LONGEST_WAIT: u64 = 60_000;

// So many milliseconds a peer has to send its request whole, from where the office begins to take
// it. Else the few connections that the office takes at a time would stay with peers that have
// gone, or mean no good.
const LONGEST_REQUEST: u64 = 30_000;

// So many milliseconds a peer has, behind a close, to take its answer and to end the connection.
// What it hasn't taken then is lost, and no count tells of it: the bytes were handed to the link.
const LONGEST_CLOSE: u64 = 10_000;

// Where no place is free, a connection makes room for one that waits so many milliseconds after its
// accept, if nothing has come of it, or after its first bytes, if its request isn't whole; and so
// long after the last bytes, if its request is taken or answered. The first is long enough for a
// clerk's request to follow its connection, also where many come at once; the others wait in the
// listener's queue meanwhile.
const SHORT_SILENCE: u64 = 250;

const LONG_SILENCE: u64 = 2_000;

// So many milliseconds after the office began to take a request that wasn't whole, it gives its
// place up to a whole one that waits.
const LONGEST_PART: u64 = 250;

/// What a connection had.
#[derive(Drop)]
pub enum Heard {
    /// The next bytes of its peer.
    Piece(Bytes),
    /// Nothing for now.
    Quiet,
    /// Bytes that nobody wants, and perhaps more behind them.
    Dropped,
    /// Its end: the peer has ended it or broken it off, or took too long, or there was no memory
    /// for its bytes.
    Over,
}

#[derive(Clone, Copy, PartialEq, Eq)]
enum Stage {
    // It is left unread until the office can take its request.
    Waiting,
    // Its pieces are the office's.
    Open,
    // The office has closed it, and bytes are still to be sent.
    Sending,
    // All was sent and said to be all. What the peer still sends is read and dropped: a socket that
    // is closed over unread bytes resets the connection, and the peer would lose the answer (RFC
    // 9112, section 9.6).
    Ending,
}

/// A clerk's connection. Moments are in milliseconds since the link was opened.
#[derive(Drop)]
pub struct Connection {
    /// Its number, which no other connection has.
    pub number: u32,
    stream: TcpStream,
    unsent: Unsent,
    stage: Stage,
    // The moment at which it is over, if nothing comes before.
    until: u64,
    // When its peer was heard last, or else when it was accepted.
    heard: u64,
    // Whether a piece of it was given.
    spoke: bool,
    // Whether its request was whole when it was judged last, and whether more has come since.
    whole: bool,
    fresh: bool,
    // When the office began to take its request.
    began: u64,
    // Whether bytes or an end may be read, and whether the system may take bytes.
    readable: bool,
    writable: bool,
    // Whether the peer has said that it sends no more.
    ended: bool,
}

impl Connection {
    /// A connection that was accepted at the moment `now`.
    pub fn new(number: u32, stream: TcpStream, unsent: Unsent, now: u64) -> Connection
        ensures number { result.number ≡ number }
        ensures waiting { result.stage ≡ stage.Waiting }
        ensures unspoken { result.spoke ≡ false }
        ensures unsent { result.unsent ≡ unsent }
        ensures until { result.until ≡ later now LONGEST_SILENCE }
    {
        Connection {
            number,
            stream,
            unsent,
            stage: Stage::Waiting,
            until: now.saturating_add(LONGEST_SILENCE),
            heard: now,
            spoke: false,
            whole: false,
            fresh: false,
            began: 0,
            readable: false,
            writable: true,
            ended: false,
        }
    }

    /// Whether the office has heard of it and doesn't know of its end.
    pub fn is_known(&self) -> bool
        ensures { IsTrue result ↔ (IsTrue self.now.spoke × (self.now.stage ≡ stage.Open)) }
    {
        self.spoke && self.stage == Stage::Open
    }

    /// Whether its request is being taken.
    pub fn is_open(&self) -> bool
        ensures { IsTrue result ↔ (self.now.stage ≡ stage.Open) }
    {
        self.stage == Stage::Open
    }

    /// How soon its request is to be begun: 0 where none waits, 1 where it isn't whole, 2 where it
    /// is.
    pub fn rank(&self) -> u8
        ensures taken { self.now.stage ≢ stage.Waiting → result ≡ 0 }
        ensures unheard { self.now.readable ≡ false → result ≡ 0 }
        ensures part { self.now.stage ≡ stage.Waiting → self.now.readable ≡ true
            → self.now.whole ≡ false → result ≡ 1 }
        ensures whole { self.now.stage ≡ stage.Waiting → self.now.readable ≡ true
            → self.now.whole ≡ true → result ≡ 2 }
    {
        if self.stage != Stage::Waiting || !self.readable {
            return 0;
        }
        if self.whole { 2 } else { 1 }
    }

    /// Whether a request waits that is whole.
    pub fn waits_whole(&self) -> bool
        ensures { IsTrue result ↔ ((self.now.stage ≡ stage.Waiting)
            × ((self.now.readable ≡ true) × (self.now.whole ≡ true))) }
    {
        self.stage == Stage::Waiting && self.readable && self.whole
    }

    /// From when on it gives its place up to a whole request that waits: None where its own was
    /// whole when it was begun, or isn't being taken.
    pub fn gives_way_at(&self) -> Option<u64>
        ensures part { self.now.stage ≡ stage.Open → self.now.whole ≡ false
            → result ≡ Some (later self.now.began LONGEST_PART) }
        ensures whole { self.now.whole ≡ true → result ≡ None }
        ensures taken { self.now.stage ≢ stage.Open → result ≡ None }
    {
        if self.stage == Stage::Open && !self.whole {
            return Some(self.began.saturating_add(LONGEST_PART));
        }
        None
    }

    /// When the office began to take its request.
    pub fn began_at(&self) -> u64
        ensures { result ≡ self.now.began }
    {
        self.began
    }

    /// Finds out whether its request is whole, where more has come since that was found out last.
    /// Where memory is refused it isn't.
    pub fn judge(&mut self, alloc: Global)
        ensures number { self.new.number ≡ self.old.number }
        ensures stage { self.new.stage ≡ self.old.stage }
        ensures spoke { self.new.spoke ≡ self.old.spoke }
        ensures until { self.new.until ≡ self.old.until }
        ensures heard { self.new.heard ≡ self.old.heard }
        ensures taken { self.old.stage ≢ stage.Waiting → self.new.whole ≡ self.old.whole }
    {
        if self.stage == Stage::Waiting && self.fresh {
            self.fresh = false;
            self.whole = waits_whole(alloc, &self.stream);
        }
    }

    /// Whether the office has closed it.
    pub fn is_closed(&self) -> bool
        ensures { IsTrue result
            ↔ ((self.now.stage ≡ stage.Sending) ⊎ (self.now.stage ≡ stage.Ending)) }
    {
        matches!(self.stage, Stage::Sending | Stage::Ending)
    }

    // Whether its peer has sent nothing yet.
    fn is_unheard(&self) -> bool
        ensures { IsTrue result ↔ ((self.now.stage ≡ stage.Waiting) × (self.now.readable ≡ false)) }
    {
        self.stage == Stage::Waiting && !self.readable
    }

    /// When its peer was heard last, or else when it was accepted.
    pub fn heard_at(&self) -> u64
        ensures { result ≡ self.now.heard }
    {
        self.heard
    }

    /// From when on it makes room for another: None where a whole request waits for the office, and
    /// not for its peer.
    pub fn makes_room_at(&self) -> Option<u64>
        ensures waiting { self.now.stage ≡ stage.Waiting → MatchOption result
            ((self.now.readable ≡ true) × (self.now.whole ≡ true))
            (λ moment. moment ≡ later self.now.heard SHORT_SILENCE) }
        ensures taken { self.now.stage ≢ stage.Waiting
            → result ≡ Some (later self.now.heard LONG_SILENCE) }
    {
        match self.stage {
            Stage::Waiting => {
                if self.readable && self.whole {
                    return None;
                }
                Some(self.heard.saturating_add(SHORT_SILENCE))
            }
            Stage::Open | Stage::Sending | Stage::Ending => {
                Some(self.heard.saturating_add(LONG_SILENCE))
            }
        }
    }

    /// The moment at which it is over, if nothing comes before.
    pub fn due(&self) -> u64
        ensures { result ≡ self.now.until }
    {
        self.until
    }

    /// Takes in what the system tells of it at the moment `now`.
    pub fn hear(&mut self, told: &Event, now: u64)
        ensures number { self.new.number ≡ self.old.number }
        ensures stage { self.new.stage ≡ self.old.stage }
        ensures spoke { self.new.spoke ≡ self.old.spoke }
        ensures readable { IsTrue (is_readable told.now) → self.new.readable ≡ true }
        ensures closed { IsTrue (is_read_closed told.now) → self.new.ended ≡ true }
        ensures broken { IsTrue (is_error told.now) → self.new.ended ≡ true }
    {
        let is_over = told.is_read_closed() || told.is_error();
        if told.is_writable() || told.is_write_closed() || is_over {
            self.writable = true;
        }
        if told.is_readable() || is_over {
            self.hear_bytes(now);
        }
        self.ended |= is_over;
    }

    // Bytes or an end have come.
    fn hear_bytes(&mut self, now: u64)
        ensures number { self.new.number ≡ self.old.number }
        ensures stage { self.new.stage ≡ self.old.stage }
        ensures spoke { self.new.spoke ≡ self.old.spoke }
        ensures readable { self.new.readable ≡ true }
        ensures first { self.old.stage ≡ stage.Waiting → self.old.readable ≡ false
            → self.new.until ≡ later now LONGEST_WAIT }
        ensures later { self.old.stage ≡ stage.Waiting → self.old.readable ≡ true
            → self.new.until ≡ self.old.until }
        ensures open { self.old.stage ≢ stage.Waiting → self.new.until ≡ self.old.until }
    {
        if self.is_unheard() {
            self.heard = now;
            self.until = now.saturating_add(LONGEST_WAIT);
        }
        self.fresh = true;
        self.readable = true;
    }

    /// Begins to take its request, at the moment `now`.
    pub fn begin(&mut self, now: u64)
        ensures number { self.new.number ≡ self.old.number }
        ensures open { self.new.stage ≡ stage.Open }
        ensures spoke { self.new.spoke ≡ self.old.spoke }
        ensures until { self.new.until ≡ later now LONGEST_REQUEST }
        ensures heard { self.new.heard ≡ now }
        ensures began { self.new.began ≡ now }
        ensures whole { self.new.whole ≡ self.old.whole }
    {
        self.stage = Stage::Open;
        self.heard = now;
        self.began = now;
        self.until = now.saturating_add(LONGEST_REQUEST);
    }

    /// Sends on what is to be sent, and reads the next bytes. While it waits, and once it is
    /// closed, it gives none.
    pub fn ask(&mut self, alloc: Global, now: u64) -> Heard
        ensures number { self.new.number ≡ self.old.number }
        ensures closed { self.old.stage ≢ stage.Open → self.new.stage ≢ stage.Open }
        ensures gives { self.old.stage ≢ stage.Open → GivesNothing result }
        ensures spoken { IsSpoken result self.new.spoke }
        ensures in_time { IsInTime result now self.new.until }
        ensures until { self.new.until ≡ self.old.until }
        ensures heard { IsHeardAt result now self.old.heard self.new.heard }
    {
        if self.until <= now {
            return Heard::Over;
        }
        let sending = self.send_rest();
        if sending == Sending::Broken {
            return Heard::Over;
        }
        if sending == Sending::Whole && self.stage == Stage::Sending {
            self.end_writing();
        }
        match self.stage {
            Stage::Open => self.read_piece(alloc, now),
            Stage::Ending => self.end_reading(),
            Stage::Waiting | Stage::Sending => Heard::Quiet,
        }
    }

    /// Takes bytes to be sent, and tells whether it could: it has room for them, it isn't closed,
    /// and the peer hasn't broken it off.
    pub fn answer(&mut self, bytes: &[u8]) -> bool
        ensures number { self.new.number ≡ self.old.number }
        ensures open { IsTrue result → self.old.stage ≡ stage.Open }
        ensures fits { IsTrue result → length bytes.now ≤ self.old.unsent.room }
        ensures stage { self.new.stage ≡ self.old.stage }
        ensures spoke { self.new.spoke ≡ self.old.spoke }
        ensures until { self.new.until ≡ self.old.until }
        ensures heard { self.new.heard ≡ self.old.heard }
    {
        self.stage == Stage::Open && self.unsent.put(bytes) && self.send_rest() != Sending::Broken
    }

    /// Closes it at the moment `now`: nothing is read from it any more, and what is still to be
    /// sent has some seconds.
    pub fn close(&mut self, now: u64)
        ensures number { self.new.number ≡ self.old.number }
        ensures closed { self.new.stage ≢ stage.Open }
        ensures until { self.old.stage ≡ stage.Open → self.new.until ≡ later now LONGEST_CLOSE }
        ensures again { self.old.stage ≢ stage.Open → self.new.until ≡ self.old.until }
        ensures heard { self.new.heard ≡ self.old.heard }
    {
        if self.stage == Stage::Open {
            self.stage = Stage::Sending;
            self.until = now.saturating_add(LONGEST_CLOSE);
            if self.unsent.is_empty() {
                self.end_writing();
            }
        }
    }

    // Hands the system as many of the bytes that are to be sent as it takes, where it may take
    // some.
    fn send_rest(&mut self) -> Sending
        ensures number { self.new.number ≡ self.old.number }
        ensures stage { self.new.stage ≡ self.old.stage }
        ensures spoke { self.new.spoke ≡ self.old.spoke }
        ensures until { self.new.until ≡ self.old.until }
        ensures heard { self.new.heard ≡ self.old.heard }
    {
        if !self.writable && !self.unsent.is_empty() {
            return Sending::Rest;
        }
        let sending = self.unsent.send(&mut self.stream);
        self.writable = sending != Sending::Rest;
        sending
    }

    // Says that all was sent. Where the peer has broken it off, the next read tells.
    fn end_writing(&mut self)
        ensures number { self.new.number ≡ self.old.number }
        ensures stage { self.new.stage ≡ stage.Ending }
        ensures spoke { self.new.spoke ≡ self.old.spoke }
        ensures until { self.new.until ≡ self.old.until }
        ensures heard { self.new.heard ≡ self.old.heard }
    {
        let _told = self.stream.shutdown(Shutdown::Write);
        self.stage = Stage::Ending;
    }

    // Reads the next bytes, where there may be some.
    fn read_piece(&mut self, alloc: Global, now: u64) -> Heard
        requires { now < self.old.until }
        ensures number { self.new.number ≡ self.old.number }
        ensures stage { self.new.stage ≡ self.old.stage }
        ensures spoken { IsSpoken result self.new.spoke }
        ensures in_time { IsInTime result now self.new.until }
        ensures until { self.new.until ≡ self.old.until }
        ensures heard { IsHeardAt result now self.old.heard self.new.heard }
    {
        if !self.readable {
            return Heard::Quiet;
        }
        let mut room = [0u8; ROOM];
        match self.stream.read(&mut room) {
            Ok(0) => Heard::Over,
            Ok(count) => {
                self.heard = now;
                // Fewer bytes than there was room for are all that have come, but for the end.
                self.readable = count == ROOM || self.ended;
                self.give(alloc, &room[..count])
            }
            Err(error) => match error.kind() {
                ErrorKind::WouldBlock => {
                    self.readable = false;
                    Heard::Quiet
                }
                ErrorKind::Interrupted => Heard::Dropped,
                // The peer has broken it off.
                _ => Heard::Over,
            },
        }
    }

    // Gives bytes as a piece. Where there is no memory for them they are lost, so the connection is
    // over.
    fn give(&mut self, alloc: Global, part: &[u8]) -> Heard
        ensures number { self.new.number ≡ self.old.number }
        ensures stage { self.new.stage ≡ self.old.stage }
        ensures until { self.new.until ≡ self.old.until }
        ensures heard { self.new.heard ≡ self.old.heard }
        ensures given { IsPieceOf part.now result }
        ensures spoken { IsSpoken result self.new.spoke }
    {
        let mut bytes = Bytes::new(alloc);
        match bytes.push_all(part) {
            Ok(()) => {
                self.spoke = true;
                Heard::Piece(bytes)
            }
            Err(NoMemory) => Heard::Over,
        }
    }

    // Drops what the peer still sends.
    fn end_reading(&mut self) -> Heard
        ensures number { self.new.number ≡ self.old.number }
        ensures stage { self.new.stage ≡ self.old.stage }
        ensures until { self.new.until ≡ self.old.until }
        ensures heard { self.new.heard ≡ self.old.heard }
        ensures gives { GivesNothing result }
    {
        if !self.readable {
            return Heard::Quiet;
        }
        let heard = drop_pieces(&mut self.stream);
        self.readable = matches!(heard, Heard::Dropped);
        heard
    }
}

// Whether the request that waits to be read is whole, of as many bytes as are looked at.
fn waits_whole(alloc: Global, stream: &TcpStream) -> bool {
    let mut room = [0u8; MOST_JUDGED];
    let count = stream.peek(&mut room).unwrap_or(0).min(MOST_JUDGED);
    is_whole(alloc, &room[..count]).unwrap_or(false)
}

// Reads some of the bytes that have come, and drops them.
fn drop_pieces(stream: &mut TcpStream) -> Heard
    ensures { GivesNothing result }
{
    let mut room = [0u8; ROOM];
    for _attempt in 0..MOST_DROPPED {
        match stream.read(&mut room) {
            Ok(0) => return Heard::Over,
            Ok(_count) => {}
            Err(error) => match error.kind() {
                ErrorKind::WouldBlock => return Heard::Quiet,
                ErrorKind::Interrupted => {}
                _ => return Heard::Over,
            },
        }
    }
    Heard::Dropped
}
