ghost use Rattle.std.specs.Prelude.{
  ◌≡◌,
  ◌+◌,
  ◌<◌,
  ◌≤◌,
  ◌↔◌,
  [],
  ◌∷◌,
  ◌++◌,
  length,
  take,
  drop,
  slice_get,
  Some,
  IfOk,
  IsTrue,
  vec_len,
};
ghost use Rattle.std.specs.Vec.{vec_capacity};
ghost use Rattle.off_defs.specs.declared.results.Sent.TheVariants as sent;
ghost use Rattle.off_outside.specs.InMemory.{HasRoom, empty_outbox, with_item};
ghost use Rattle.off_outside.specs.Outboxes.{lent_item};

use crate::pass::Pass;
use off_base::{NoMemory, Peer};
use off_defs::Service;
use std::alloc::Global;
use std::marker::Model;

/// One sent item, lent by the link that sent it.
#[derive(Clone, Copy)]
pub enum SentRef<'a> {
    Datagram {
        service: Service,
        to: Peer,
        bytes: &'a [u8],
    },
    Answer {
        conn: u32,
        bytes: &'a [u8],
    },
    Close {
        conn: u32,
    },
}

// An item whose bytes are `len` bytes of the buffer, from `at` on.
#[derive(Clone, Copy)]
enum Item {
    Datagram {
        service: Service,
        to: Peer,
        at: usize,
        len: usize,
    },
    Answer {
        conn: u32,
        at: usize,
        len: usize,
    },
    Close {
        conn: u32,
    },
}

/// What was sent, each item with its moment, in room that was taken when it was made.
#[derive(Drop)]
pub struct Outbox {
    items: Vec<Item>,
    moments: Vec<u64>,
    octets: Vec<u8>,
    item_room: usize,
    octet_room: usize,
}

impl Model for Outbox {
    ghost use Rattle.std.specs.Prelude.{◌≡◌, ◌+◌, ◌≤◌, map, All, vec_len};
    ghost use Rattle.std.specs.Vec.{vec_capacity};
    ghost use Rattle.off_outside.specs.InMemory.{OutboxHeld};

    ghost Value = { OutboxHeld };

    ghost use Rattle.off_outside.specs.Outboxes.{item_in, IsWithin};

    ghost view = { λ b. record {
      sent = map (item_in b.octets.items) b.items.items;
      moments = b.moments.items;
      item_room = b.item_room;
      octet_room = b.octet_room;
    } };

    ghost invariant = { λ b. All (IsWithin b.octets.items) b.items.items
        × (vec_len b.items + b.item_room ≤ vec_capacity b.items)
        × (vec_len b.moments + b.item_room ≤ vec_capacity b.moments)
        × (vec_len b.moments ≡ vec_len b.items)
        × (vec_len b.octets + b.octet_room ≤ vec_capacity b.octets) };
}

impl Outbox {
    /// Takes room for `items` items of `octets` bytes in all.
    pub fn new(alloc: Global, items: usize, octets: usize) -> Result<Outbox, NoMemory>
        ensures { IfOk result (λ box. box ≡ empty_outbox items octets) }
    {
        let Ok(room) = Vec::with_capacity(alloc, items) else {
            return Err(NoMemory);
        };
        let Ok(moments) = Vec::with_capacity(alloc, items) else {
            return Err(NoMemory);
        };
        let Ok(buffer) = Vec::with_capacity(alloc, octets) else {
            return Err(NoMemory);
        };
        Ok(Outbox {
            items: room,
            moments,
            octets: buffer,
            item_room: items,
            octet_room: octets,
        })
    }

    /// Whether one more item of `len` bytes has room.
    pub fn has_room(&self, len: usize) -> bool
        ensures { IsTrue result ↔ HasRoom self.now len }
    {
        0 < self.item_room && len <= self.octet_room
    }

    /// Keeps a datagram.
    pub fn datagram(&mut self, pass: Pass, service: Service, to: Peer, bytes: &[u8])
        requires { HasRoom self.old (length bytes.now) }
        ensures { self.new ≡ with_item self.old (sent.Datagram service to bytes.now) pass.moment
            (length bytes.now) }
    {
        let at = self.octets.len();
        let len = bytes.len();
        let item = Item::Datagram {
            service,
            to,
            at,
            len,
        };
        put(&mut self.items, &mut self.octets, item, bytes);
        keep(&mut self.moments, pass);
        self.item_room -= 1;
        self.octet_room -= len;
    }

    /// Keeps an answer.
    pub fn answer(&mut self, pass: Pass, conn: u32, bytes: &[u8])
        requires { HasRoom self.old (length bytes.now) }
        ensures { self.new ≡ with_item self.old (sent.Answer conn bytes.now) pass.moment
            (length bytes.now) }
    {
        let at = self.octets.len();
        let len = bytes.len();
        let item = Item::Answer { conn, at, len };
        put(&mut self.items, &mut self.octets, item, bytes);
        keep(&mut self.moments, pass);
        self.item_room -= 1;
        self.octet_room -= len;
    }

    /// Keeps the end of a connection.
    pub fn close(&mut self, pass: Pass, conn: u32)
        requires { HasRoom self.old 0 }
        ensures { self.new ≡ with_item self.old (sent.Close conn) pass.moment 0 }
    {
        self.items.push_reserved(Item::Close { conn });
        keep(&mut self.moments, pass);
        self.item_room -= 1;
    }

    /// How many items were kept.
    pub fn len(&self) -> usize
        ensures { result ≡ length self.now.sent }
    {
        self.items.len()
    }

    /// The moment of item `i`, from 0.
    pub fn moment(&self, i: usize) -> u64
        requires { i < length self.now.moments }
        ensures { slice_get self.now.moments i ≡ Some result }
    {
        self.moments[i]
    }

    /// Item `i`, from 0.
    pub fn get(&self, i: usize) -> SentRef<'_>
        requires { i < length self.now.sent }
        ensures { slice_get self.now.sent i ≡ Some (lent_item result) }
    {
        match self.items[i] {
            Item::Datagram {
                service,
                to,
                at,
                len,
            } => SentRef::Datagram {
                service,
                to,
                bytes: part(self.octets.as_slice(), at, len),
            },
            Item::Answer { conn, at, len } => SentRef::Answer {
                conn,
                bytes: part(self.octets.as_slice(), at, len),
            },
            Item::Close { conn } => SentRef::Close { conn },
        }
    }
}

// The `len` bytes from `at` on.
fn part(octets: &[u8], at: usize, len: usize) -> &[u8]
    requires { at + len ≤ length octets.now }
    ensures { result.now ≡ take len (drop at octets.now) }
{
    &octets[at..at + len]
}

// Puts an item and its bytes where room was taken for both.
fn put(items: &mut Vec<Item>, octets: &mut Vec<u8>, item: Item, bytes: &[u8])
    requires item_room { vec_len items.old < vec_capacity items.old }
    requires octet_room { vec_len octets.old + length bytes.now ≤ vec_capacity octets.old }
    ensures items { items.new.items ≡ items.old.items ++ item ∷ [] }
    ensures item_len { vec_len items.new ≡ vec_len items.old + 1 }
    ensures item_capacity { vec_capacity items.old ≤ vec_capacity items.new }
    ensures octets { octets.new.items ≡ octets.old.items ++ bytes.now }
    ensures octet_len { vec_len octets.new ≡ vec_len octets.old + length bytes.now }
    ensures octet_capacity { vec_capacity octets.old ≤ vec_capacity octets.new }
{
    items.push_reserved(item);
    let _fits = octets.extend_from_slice(bytes);
}

// Keeps the moment of an item where room was taken for it.
fn keep(moments: &mut Vec<u64>, pass: Pass)
    requires { vec_len moments.old < vec_capacity moments.old }
    ensures moments { moments.new.items ≡ moments.old.items ++ pass.moment ∷ [] }
    ensures len { vec_len moments.new ≡ vec_len moments.old + 1 }
    ensures capacity { vec_capacity moments.old ≤ vec_capacity moments.new }
{
    moments.push_reserved(pass.moment());
}
