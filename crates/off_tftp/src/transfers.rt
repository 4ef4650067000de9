ghost use Rattle.std.specs.Prelude.{◌≡◌, ◌==◌, ◌≤◌, true, false, IfOk, IfSome, MatchOption};
ghost use Rattle.std.specs.Prelude.{Some, None};
ghost use Rattle.std.specs.Prelude.{◌+◌, ◌<◌, drop, vec_len};
ghost use Rattle.std.specs.List.{insert};
ghost use Rattle.std.specs.Vec.{vec_capacity};
ghost use Rattle.std.specs.Ordering.{is_gt, is_eq};
ghost use Rattle.std.specs.FinMap as map;
ghost use Rattle.off_defs.specs.State.{peer_cmp};
ghost use Rattle.off_transfer_rules.specs.Transfers.{has_no_room, is_at_last, gone_on};
ghost use Rattle.off_transfer_rules.specs.Transfers.{asked_again};
ghost use Rattle.off_tftp.specs.Kept.{AreKept, place_of, is_in_front, HasRoomFor, changed};
ghost use Rattle.off_tftp.specs.Places.{IsPlaceOf};

use crate::live::Live;
use off_base::{Moment, NoMemory, Peer};
use std::alloc::Global;
use std::cmp::Ordering;
use std::marker::Model;

// So many transfers may be live.
const MOST: usize = 256;

/// The live transfers, in ascending order of their peers, at most 256. Contracts see them as a map.
#[derive(Drop)]
pub struct Transfers {
    pub(crate) live: Vec<(Peer, Live)>,
}

impl Model for Transfers {
    ghost use Rattle.std.specs.Prelude.{◌≤◌, vec_len};
    ghost use Rattle.std.specs.Vec.{vec_capacity};
    ghost use Rattle.std.specs.FinMap as map;
    ghost use Rattle.off_tftp.specs.Kept.{AreKept, transfers_code};
    ghost use Rattle.off_transfer_rules.specs.Transfers.{Transfers as LiveTransfers};

    ghost Value = { LiveTransfers };

    ghost coded = { transfers_code };

    ghost view = { λ t. map.from_sorted t.live.items };

    ghost invariant = { λ t. AreKept t.live.items
        × (vec_len t.live ≤ 256)
        × (256 ≤ vec_capacity t.live) };
}

/// Where a peer's transfer stands among those that are live, or is to be put.
#[derive(Clone, Copy)]
pub struct Place {
    pub(crate) index: usize,
}

impl Transfers {
    /// No transfers, and room for all that may be live.
    pub fn new(alloc: Global) -> Result<Transfers, NoMemory>
        ensures { IfOk result (λ transfers. transfers ≡ map.empty) }
    {
        match Vec::with_capacity(alloc, MOST) {
            Ok(live) => Ok(Transfers { live }),
            Err(_refused) => Err(NoMemory),
        }
    }

    /// How many are live.
    pub fn len(&self) -> usize
        ensures count { result ≡ map.len self.now }
        ensures few { result ≤ 256 }
    {
        self.live.len()
    }

    /// Whether none is.
    pub fn is_empty(&self) -> bool
        ensures { result ≡ (map.len self.now == 0) }
    {
        self.len() == 0
    }

    /// Whether as many are live as may be.
    pub(crate) fn is_full(&self) -> bool
        ensures { result ≡ has_no_room self.now }
    {
        self.live.len() >= MOST
    }

    /// Where a peer's transfer stands, or is to be put. It's the one search of a datagram.
    pub(crate) fn find(&self, peer: Peer) -> Place
        ensures { IsPlaceOf self.now peer result }
    {
        Place {
            index: place_of(&self.live, peer),
        }
    }

    /// The transfer of a peer.
    pub(crate) fn get(&self, peer: Peer, place: Place) -> Option<&Live>
        requires { IsPlaceOf self.now peer place }
        ensures { MatchOption result (map.get self.now peer ≡ None)
            (λ live. map.get self.now peer ≡ Some live.now) }
    {
        if is_at(&self.live, place.index, peer) {
            Some(&self.live[place.index].1)
        } else {
            None
        }
    }

    /// Puts a peer's transfer in, in place of an older one.
    pub(crate) fn put(&mut self, peer: Peer, place: Place, live: Live)
        requires place { IsPlaceOf self.old peer place }
        requires room { HasRoomFor self.old peer }
        ensures { self.new ≡ map.insert self.old peer live }
    {
        if is_at(&self.live, place.index, peer) {
            self.live[place.index].1 = live;
        } else {
            insert_at(&mut self.live, place.index, (peer, live));
        }
    }

    /// Ends a peer's transfer, if it has one.
    pub(crate) fn end(&mut self, peer: Peer, place: Place)
        requires { IsPlaceOf self.old peer place }
        ensures { self.new ≡ map.remove self.old peer }
    {
        if is_at(&self.live, place.index, peer) {
            let _ended = self.live.remove(place.index);
        }
    }

    /// The next block of a peer's transfer was sent.
    pub(crate) fn go_on(&mut self, peer: Peer, place: Place, now: Moment)
        requires place { IsPlaceOf self.old peer place }
        requires more { IfSome (map.get self.old peer) (λ x. is_at_last x ≡ false) }
        ensures { self.new ≡ changed self.old peer (gone_on now.0) }
    {
        if is_at(&self.live, place.index, peer) {
            self.live[place.index].1.go_on(now);
        }
    }

    /// The first packet of a peer's transfer was sent again.
    pub(crate) fn ask_again(&mut self, peer: Peer, place: Place, now: Moment)
        requires { IsPlaceOf self.old peer place }
        ensures { self.new ≡ changed self.old peer (asked_again now.0) }
    {
        if is_at(&self.live, place.index, peer) {
            self.live[place.index].1.ask_again(now);
        }
    }
}

// Where a peer's transfer stands, or is to be put.
fn place_of(entries: &Vec<(Peer, Live)>, peer: Peer) -> usize
    requires { AreKept entries.now.items }
    ensures place { result ≡ place_of peer entries.now.items }
    ensures within { result ≤ vec_len entries.now }
{
    entries.partition_point(
        |entry: &(Peer, Live)| -> bool
            ensures { result ≡ is_gt (peer_cmp peer entry.now.0) }
        { is_above(peer, entry.0) },
    )
}

// Whether the peer's own transfer stands at the place.
fn is_at(entries: &Vec<(Peer, Live)>, place: usize, peer: Peer) -> bool
    ensures { result ≡ is_in_front peer (drop place entries.now.items) }
{
    place < entries.len() && is_same(peer, entries[place].0)
}

// Inserts an entry where there is room for it.
fn insert_at(entries: &mut Vec<(Peer, Live)>, place: usize, entry: (Peer, Live))
    requires within { place ≤ vec_len entries.old }
    requires room { vec_len entries.old < vec_capacity entries.old }
    ensures items { entries.new.items ≡ insert entries.old.items place entry }
    ensures len { vec_len entries.new ≡ vec_len entries.old + 1 }
    ensures capacity { vec_capacity entries.old ≤ vec_capacity entries.new }
{
    let _is_done = entries.insert(place, entry).is_ok();
}

fn is_above(peer: Peer, other: Peer) -> bool
    ensures { result ≡ is_gt (peer_cmp peer other) }
{
    peer.cmp(&other) == Ordering::Greater
}

fn is_same(peer: Peer, other: Peer) -> bool
    ensures { result ≡ is_eq (peer_cmp peer other) }
{
    peer.cmp(&other) == Ordering::Equal
}
