ghost use Rattle.std.specs.Prelude.{◌≡◌, [], ◌∷◌, ◌++◌, IfOk, replicate};
ghost use Rattle.off_peers.specs.Ports.{is_open_of, is_open_port, is_heard, has_open_port, may_open};
ghost use Rattle.off_peers.specs.Ports.{known_after, with_room, known_of, table_after, row_count};

use arrayvec::ArrayVec;
use off_base::{Moment, NoMemory, Peer};
use std::alloc::Global;
use std::marker::Model;

// For so many seconds a port is open.
const OPEN_SECONDS: u64 = 60;

// So many ports of one address are open at a time.
const MOST_PORTS: usize = 4;

// Of so many ports it is known when they were opened.
const MOST_KNOWN: usize = 64;

// The table has so many rows.
const ROWS: usize = 512;

/// A port of an address, and when a datagram opened it.
#[derive(Clone, Copy, Default)]
pub struct Opened {
    pub address: u32,
    pub port: u16,
    pub at: u64,
}

/// The ports that were opened last, of addresses that share a row of the table.
#[derive(Drop)]
pub struct Ports {
    known: ArrayVec<Opened, MOST_KNOWN>,
}

impl Model for Ports {
    ghost use Rattle.std.specs.Prelude.{List};
    ghost use Rattle.off_peers.specs.declared.hearing.Opened.{Opened};

    ghost Value = { List Opened };

    ghost view = { λ p. p.known.items };
}

impl Ports {
    /// None was opened.
    pub fn new() -> Ports
        ensures { result ≡ [] }
    {
        Ports {
            known: ArrayVec::new(),
        }
    }

    /// Whether a datagram from there is heard at this moment. One from a port that wasn't open opens
    /// it.
    pub fn hear(&mut self, from: Peer, now: Moment) -> bool
        ensures heard { result ≡ is_heard from now.0 self.old }
        ensures known { self.new ≡ known_after from now.0 self.old }
    {
        if has_open_port(self.known.as_slice(), from, now) {
            return true;
        }
        let may = may_open(self.known.as_slice(), from, now);
        if may {
            self.note(from, now);
        }
        may
    }

    // Takes a port as one that was opened now. The one that was opened first makes room.
    fn note(&mut self, from: Peer, now: Moment)
        ensures { self.new ≡ with_room self.old
            ++ record { address = from.ip.0; port = from.port; at = now.0 } ∷ [] }
    {
        if self.known.is_full() {
            self.known.remove(0);
        }
        self.known.push(Opened {
            address: from.ip.0,
            port: from.port,
            at: now.0,
        });
    }
}

// Whether this very port is open.
fn has_open_port(known: &[Opened], from: Peer, now: Moment) -> bool
    ensures { result ≡ has_open_port from now.0 known.now }
{
    known.iter().any(|opened| is_open_port(opened, from, now))
}

// Whether fewer ports of the address are open than may be.
fn may_open(known: &[Opened], from: Peer, now: Moment) -> bool
    ensures { result ≡ may_open from now.0 known.now }
{
    let open = known
        .iter()
        .filter(|opened| is_open_of(opened, from.ip.0, now))
        .count();
    open < MOST_PORTS
}

fn is_open_of(opened: &Opened, address: u32, now: Moment) -> bool
    ensures { result ≡ is_open_of address now.0 opened.now }
{
    opened.address == address && opened.at <= now.0 && now.0 - opened.at < OPEN_SECONDS
}

fn is_open_port(opened: &Opened, from: Peer, now: Moment) -> bool
    ensures { result ≡ is_open_port from now.0 opened.now }
{
    is_open_of(opened, from.ip.0, now) && opened.port == from.port
}

/// The ports that were opened last, in a row for all addresses of one remainder. Its memory is taken
/// when it's made: 64 ports in each of 512 rows.
#[derive(Drop)]
pub struct PortTable {
    rows: Vec<Ports>,
}

impl Model for PortTable {
    ghost use Rattle.std.specs.Prelude.{◌≡◌, List, vec_len};
    ghost use Rattle.off_peers.specs.declared.hearing.Opened.{Opened};
    ghost use Rattle.off_peers.specs.Ports.{row_count};

    ghost Value = { List (List Opened) };

    ghost view = { λ t. t.rows.items };

    ghost invariant = { λ t. vec_len t.rows ≡ row_count };
}

impl PortTable {
    /// None was opened.
    pub fn new(alloc: Global) -> Result<PortTable, NoMemory>
        ensures { IfOk result (λ table. table ≡ replicate row_count []) }
    {
        let Ok(mut rows) = Vec::with_capacity(alloc, ROWS) else {
            return Err(NoMemory);
        };
        for _row in 0..ROWS {
            let Ok(()) = rows.push(Ports::new()) else {
                return Err(NoMemory);
            };
        }
        Ok(PortTable { rows })
    }

    /// Whether a datagram from there is heard at this moment. One from a port that wasn't open opens
    /// it.
    pub fn hear(&mut self, from: Peer, now: Moment) -> bool
        ensures heard { result ≡ is_heard from now.0 (known_of from.ip.0 self.old) }
        ensures known { self.new ≡ table_after from now.0 self.old }
    {
        self.rows[from.ip.0 as usize % ROWS].hear(from, now)
    }
}
