//! What a Tick does: packets that weren't answered are sent again, and transfers of which nothing
//! came for too long are closed.

ghost use Rattle.std.specs.Prelude.{◌≡◌, ◌+◌, ◌≤◌, ◌<◌, ◌++◌, suc, take, drop, vec_len, Ok};
ghost use Rattle.std.specs.Prelude.{IfOk, OnErr, slice_index_or};
ghost use Rattle.std.specs.List.{flat_map};
ghost use Rattle.std.specs.Vec.{vec_capacity};
ghost use Rattle.std.specs.FinMap as map;
ghost use Rattle.off_base.specs.declared.addresses.Peer.{Peer as PeerSeen};
ghost use Rattle.off_defs.specs.State.{Transfer};
ghost use Rattle.off_transfer_rules.specs.Ticks.{tick_items};
ghost use Rattle.off_tftp.specs.Kept.{tick_left, ticked_list};
ghost use Rattle.off_tftp.specs.Deciding.{items_of};
ghost use Rattle.off_tftp.specs.Ticking.{says_items, nothing_done, Ticks};

use crate::deciding::packet_to;
use crate::live::Live;
use crate::transfers::Transfers;
use off_base::{Moment, NoMemory, Peer};
use off_defs::Sent;
use off_outside::Replies;
use off_transfer_rules::Ticked;
use std::alloc::Global;

/// What a Tick did: the packets that go again, in the order of peers, and how many transfers it
/// sent again and closed.
#[derive(Drop)]
pub struct TickDone {
    pub packets: Replies,
    pub ticked: Ticked,
}

impl Transfers {
    /// What a Tick does at a moment. Where no transfer is live it takes no memory. After `NoMemory`
    /// the transfers are as before.
    pub fn on_tick(&mut self, alloc: Global, now: Moment) -> Result<TickDone, NoMemory>
        ensures ticks { IfOk result (Ticks now.0 self.old self.new) }
        ensures idle { self.old ≡ map.empty → result ≡ Ok nothing_done }
        ensures kept { OnErr result (self.new ≡ self.old) }
    {
        if self.is_empty() {
            return Ok(TickDone {
                packets: Replies::new(alloc),
                ticked: Ticked {
                    again: 0,
                    closed: 0,
                },
            });
        }
        let packets = due_packets(alloc, &self.live, now)?;
        let again = packets.len();
        let before = self.live.len();
        tick_all(&mut self.live, now);
        let closed = before - self.live.len();
        let ticked = Ticked {
            again: again as u32,
            closed: closed as u32,
        };
        Ok(TickDone { packets, ticked })
    }
}

// The packets that go again, in the order of peers.
fn due_packets(alloc: Global, entries: &Vec<(Peer, Live)>, now: Moment) -> Result<Replies, NoMemory>
    ensures { IfOk result
        (λ packets. packets ≡ says_items (flat_map (tick_items now.0) entries.now.items)) }
{
    let mut packets = Replies::new(alloc);
    for place in 0..entries.len() {
        if let Some(packet) = due_packet(alloc, &entries[place], now)? {
            packets.push(packet)?;
        }
    }
    Ok(packets)
}

// The packet of a transfer that goes again, if one does.
fn due_packet(alloc: Global, entry: &(Peer, Live), now: Moment) -> Result<Option<Sent>, NoMemory>
    ensures { IfOk result
        (λ packet. items_of packet ≡ tick_items now.0 (entry.now.0, entry.now.1)) }
{
    if !entry.1.is_due(now) {
        return Ok(None);
    }
    if !entry.1.has_resend() {
        return Ok(None);
    }
    let bytes = entry.1.last_packet(alloc)?;
    Ok(Some(packet_to(entry.0, bytes)))
}

// What a Tick leaves of all, from the last one on.
fn tick_all(entries: &mut Vec<(Peer, Live)>, now: Moment)
    ensures items { entries.new.items ≡ ticked_list now.0 entries.old.items }
    ensures few { vec_len entries.new ≤ vec_len entries.old }
    ensures capacity { vec_capacity entries.new ≡ vec_capacity entries.old }
{
    let mut left = entries.len();
    'back: while left > 0 {
        left -= 1;
        tick_at(entries, left, now);
    }
}

// What a Tick leaves of the one at a place.
fn tick_at(entries: &mut Vec<(Peer, Live)>, place: usize, now: Moment)
    requires { place < vec_len entries.old }
    ensures items { (entry : PeerSeen × Transfer)
        → entry ≡ slice_index_or entries.old.items place entry
        → entries.new.items ≡ take place entries.old.items
        ++ (tick_left now.0 entry ++ drop (suc place) entries.old.items) }
    ensures few { vec_len entries.new ≤ vec_len entries.old }
    ensures one_less { vec_len entries.old ≤ vec_len entries.new + 1 }
    ensures capacity { vec_capacity entries.new ≡ vec_capacity entries.old }
{
    if !entries[place].1.is_due(now) {
        return;
    }
    if !entries[place].1.has_resend() {
        let _closed = entries.remove(place);
        return;
    }
    entries[place].1.send_again(now);
}
