ghost use Rattle.std.specs.Prelude.{◌≡◌, ◌<◌, IfSome, vec_len};

use crate::datagrams::{Asked, socket_address};
use crate::system::{is_readable, is_want};
use crate::watching::Watched;
use mio::event::Event;
use mio::net::{TcpListener, TcpStream};
use mio::{Interest, Registry};
use off_base::{Ip4, NoMemory};
use off_outside::{Failed, What};
use off_peers::{Connection, Heard, Numbers, Unsent};
use std::alloc::Global;
use std::io::{self, ErrorKind};
use std::os::fd::AsRawFd;

// How many connections are held at a time.
const MOST: usize = 512;

// How many requests the office takes at a time. It would close a further connection, so those are
// left unread until one ends.
const MOST_OPEN: usize = 8;

// How many connections are accepted before another socket is asked.
const MOST_ACCEPTED: u32 = 64;

// So many milliseconds pass before it is tried again to accept a connection for which no place is
// free.
const NEXT_TRY: u64 = 10;

/// The TCP listener for clerks, and their connections. Moments are in milliseconds since the link
/// was opened.
#[derive(Drop)]
pub struct Clerks {
    listener: TcpListener,
    live: Vec<Connection>,
    numbers: Numbers,
    // The room of the next connection's answer, where it was taken already.
    spare: Option<Unsent>,
    // The place of the connection whose turn it is to be asked.
    turn: usize,
    // The moment in which they were asked last.
    moment: u64,
    // Whether a connection may wait to be accepted.
    is_waited_for: bool,
    // Whether something may have come that wasn't asked for yet.
    is_stirred: bool,
    // The moment in which there is something to do, though nothing comes.
    due: u64,
}

// What became of a try to accept a connection.
#[derive(Clone, Copy, PartialEq, Eq)]
enum Accepted {
    Took,
    // None waits.
    Nobody,
    // One may wait, and there is no place for it, no memory or no descriptor.
    NoRoom,
}

impl Clerks {
    pub fn open(
        rt: &HostRuntime,
        registry: &Registry,
        address: Ip4,
        port: u16,
    ) -> io::Result<Clerks> {
        let mut listener = TcpListener::bind(rt, socket_address(address, port))?;
        registry.register(&mut listener, Watched::Listener.token(), Interest::READABLE)?;
        Ok(Clerks {
            listener,
            live: Vec::new(rt.alloc()),
            numbers: Numbers::new(),
            spare: None,
            turn: 0,
            moment: 0,
            is_waited_for: true,
            is_stirred: true,
            due: u64::MAX,
        })
    }

    /// Whether there may be something to do at the moment `now`.
    pub fn may_have(&self, now: u64) -> bool {
        self.is_stirred || self.due <= now
    }

    /// The moment in which there is something to do, though nothing comes.
    pub fn due(&self) -> u64 {
        self.due
    }

    /// Takes it that a connection may wait to be accepted.
    pub fn hear_of_another(&mut self) {
        self.is_waited_for = true;
        self.is_stirred = true;
    }

    /// Takes in what the system tells of the connection of a number at the moment `now`.
    pub fn hear(&mut self, number: u32, told: &Event, now: u64) {
        if let Some(connection) = self
            .live
            .iter_mut()
            .find(|connection| connection.number == number)
        {
            connection.hear(told, now);
            self.is_stirred = true;
        }
    }

    /// The next thing of a connection: a piece, or its end. `now` is the moment in which the system
    /// told last what has come.
    pub fn ask(&mut self, alloc: Global, registry: &Registry, now: u64) -> Result<Asked, Failed> {
        self.moment = now;
        self.is_stirred = true;
        let mut dropped = false;
        match self.accept(alloc, registry)? {
            Asked::Gave(what) => return Ok(Asked::Gave(what)),
            Asked::Dropped => dropped = true,
            Asked::Quiet => {}
        }
        for connection in self.live.iter_mut() {
            connection.judge(alloc);
        }
        self.begin();
        match self.make_way() {
            Asked::Gave(what) => return Ok(Asked::Gave(what)),
            Asked::Dropped => dropped = true,
            Asked::Quiet => {}
        }
        for _place in 0..self.live.len() {
            match self.ask_one(alloc) {
                Asked::Gave(what) => return Ok(Asked::Gave(what)),
                Asked::Dropped => dropped = true,
                Asked::Quiet => {}
            }
        }
        if dropped {
            return Ok(Asked::Dropped);
        }
        self.is_stirred = false;
        self.due = self.first_due();
        Ok(Asked::Quiet)
    }

    /// Takes bytes to be sent on a connection, and tells whether they were taken. What the peer is
    /// slow to take goes out in later rounds. It takes no memory.
    pub fn answer(&mut self, number: u32, bytes: &[u8]) -> bool {
        match self
            .live
            .iter_mut()
            .find(|connection| connection.number == number)
        {
            Some(connection) => connection.answer(bytes),
            None => false,
        }
    }

    /// Closes a connection, if it is still there. Nothing more is told of it.
    pub fn close(&mut self, number: u32) {
        let now = self.moment;
        if let Some(connection) = self
            .live
            .iter_mut()
            .find(|connection| connection.number == number)
        {
            connection.close(now);
            self.is_stirred = true;
        }
    }

    // Accepts connections that wait. Where there is no room, the one that has been silent longest
    // makes room.
    fn accept(&mut self, alloc: Global, registry: &Registry) -> Result<Asked, Failed> {
        for _attempt in 0..MOST_ACCEPTED {
            if !self.is_waited_for || self.numbers.are_spent() {
                return Ok(Asked::Quiet);
            }
            match self.accept_one(alloc, registry)? {
                Accepted::Took => {}
                Accepted::Nobody => {
                    self.is_waited_for = false;
                    return Ok(Asked::Quiet);
                }
                Accepted::NoRoom => match self.make_room() {
                    Asked::Dropped => {}
                    other => return Ok(other),
                },
            }
        }
        Ok(Asked::Dropped)
    }

    fn accept_one(&mut self, alloc: Global, registry: &Registry) -> Result<Accepted, Failed> {
        if self.live.len() >= MOST && !self.drop_ended(alloc) {
            return Ok(if is_readable(self.listener.as_raw_fd()) {
                Accepted::NoRoom
            } else {
                Accepted::Nobody
            });
        }
        let Some(unsent) = self.room(alloc) else {
            return Ok(Accepted::NoRoom);
        };
        match self.listener.accept() {
            Ok((stream, _from)) => {
                self.take(registry, stream, unsent);
                Ok(Accepted::Took)
            }
            Err(error) => {
                self.spare = Some(unsent);
                accept_failed(&error)
            }
        }
    }

    // Drops a connection that the office has closed, and its peer too, if there is one.
    fn drop_ended(&mut self, alloc: Global) -> bool {
        for place in 0..self.live.len() {
            let Some(connection) = self.live.get_mut(place) else {
                return false;
            };
            if connection.is_closed()
                && matches!(connection.ask(alloc, self.moment), Heard::Over)
                && place < self.live.len()
            {
                let _ended = self.live.remove(place);
                return true;
            }
        }
        false
    }

    // Room for an answer, and a place in the table, or None where memory is refused.
    fn room(&mut self, alloc: Global) -> Option<Unsent> {
        if self.live.reserve(1).is_err() {
            return None;
        }
        if let Some(unsent) = self.spare.take() {
            return Some(unsent);
        }
        match Unsent::new(alloc) {
            Ok(unsent) => Some(unsent),
            Err(NoMemory) => None,
        }
    }

    // Gives a connection the next number. Where the system can't tell of it, or there is no number,
    // it is dropped, which closes it.
    fn take(&mut self, registry: &Registry, mut stream: TcpStream, unsent: Unsent) {
        let Some(number) = self.numbers.give() else {
            return;
        };
        let Ok(()) = registry.register(
            &mut stream,
            Watched::Connection(number).token(),
            Interest::READABLE | Interest::WRITABLE,
        ) else {
            return;
        };
        let connection = Connection::new(number, stream, unsent, self.moment);
        let _room_was_made = self.live.push(connection);
    }

    // Ends the connection that has been silent longest, of those that are to make room.
    fn make_room(&mut self) -> Asked {
        match self.longest_silent() {
            Some(place) if place < self.live.len() => self.end(place),
            _ => Asked::Quiet,
        }
    }

    // The place of the connection that has been silent longest, of those that are to make room.
    fn longest_silent(&self) -> Option<usize> {
        let mut since = u64::MAX;
        let mut found = None;
        for (place, connection) in self.live.iter().enumerate() {
            if let Some(moment) = connection.makes_room_at()
                && moment <= self.moment
                && connection.heard_at() < since
            {
                since = connection.heard_at();
                found = Some(place);
            }
        }
        found
    }

    // Begins to take requests that wait, as far as the office can.
    fn begin(&mut self) {
        let open = self
            .live
            .iter()
            .filter(|connection| connection.is_open())
            .count();
        for _place in open..MOST_OPEN {
            let Some(place) = self.next_to_begin() else {
                return;
            };
            if let Some(connection) = self.live.get_mut(place) {
                connection.begin(self.moment);
            }
        }
    }

    // The place of the connection whose request is begun next: a whole one before any that isn't,
    // and of those alike the one that came first.
    fn next_to_begin(&self) -> Option<usize> {
        let mut most = 0;
        let mut found = None;
        for (place, connection) in self.live.iter().enumerate() {
            let rank = connection.rank();
            if rank > most {
                most = rank;
                found = Some(place);
            }
        }
        found
    }

    // Where a whole request waits, and no place is free for it, ends the one that the office began
    // to take first of those that aren't whole and have had their time.
    fn make_way(&mut self) -> Asked {
        if !self.waits_whole() {
            return Asked::Quiet;
        }
        match self.longest_part() {
            Some(place) if place < self.live.len() => self.end(place),
            _ => Asked::Quiet,
        }
    }

    // Whether a whole request waits to be begun.
    fn waits_whole(&self) -> bool {
        self.live.iter().any(|connection| connection.waits_whole())
    }

    // The place of the connection whose request was begun first, of those that are to give way.
    fn longest_part(&self) -> Option<usize> {
        let mut since = u64::MAX;
        let mut found = None;
        for (place, connection) in self.live.iter().enumerate() {
            if let Some(moment) = connection.gives_way_at()
                && moment <= self.moment
                && connection.began_at() < since
            {
                since = connection.began_at();
                found = Some(place);
            }
        }
        found
    }

    // Asks the connection whose turn it is.
    fn ask_one(&mut self, alloc: Global) -> Asked {
        if self.turn >= self.live.len() {
            self.turn = 0;
        }
        if self.live.is_empty() {
            return Asked::Quiet;
        }
        let place = self.turn;
        let connection = &mut self.live[place];
        let conn = connection.number;
        let heard = connection.ask(alloc, self.moment);
        if let Heard::Over = heard {
            return self.end(place);
        }
        self.turn = place + 1;
        match heard {
            Heard::Piece(bytes) => Asked::Gave(What::Piece { conn, bytes }),
            Heard::Quiet => Asked::Quiet,
            Heard::Dropped | Heard::Over => Asked::Dropped,
        }
    }

    // Drops a connection. The office hears of its end only where it has heard of the connection and
    // hasn't closed it.
    fn end(&mut self, place: usize) -> Asked
        requires { place < vec_len self.old.live }
    {
        let connection = self.live.remove(place);
        if connection.is_known() {
            Asked::Gave(What::Closed {
                conn: connection.number,
            })
        } else {
            Asked::Dropped
        }
    }

    // The first moment in which a connection is over, or may make room for one that waits, or is to
    // give way to a whole request.
    fn first_due(&self) -> u64 {
        let is_wanted = self.waits_whole();
        let first = if self.is_waited_for {
            self.moment.saturating_add(NEXT_TRY)
        } else {
            u64::MAX
        };
        self.live.iter().fold(first, |first, connection| {
            let due = first.min(connection.due());
            match connection.gives_way_at() {
                Some(moment) if is_wanted => due.min(moment),
                _ => due,
            }
        })
    }
}

// What an error of `accept` comes to. One of the connection that waited, or a signal, says nothing
// of the next.
fn accept_failed(error: &io::Error) -> Result<Accepted, Failed> {
    match error.kind() {
        ErrorKind::WouldBlock => Ok(Accepted::Nobody),
        ErrorKind::Interrupted
        | ErrorKind::ConnectionAborted
        | ErrorKind::ConnectionReset
        | ErrorKind::HostUnreachable
        | ErrorKind::NetworkUnreachable
        | ErrorKind::NetworkDown
        | ErrorKind::TimedOut
        | ErrorKind::PermissionDenied => Ok(Accepted::Took),
        _ if error.raw_os_error().is_some_and(is_want) => Ok(Accepted::NoRoom),
        _ => Err(Failed),
    }
}
