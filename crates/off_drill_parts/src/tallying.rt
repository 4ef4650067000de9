ghost use Rattle.std.specs.Prelude.{◌≡◌, ◌-◌, ◌∷◌, [], true, false, length, MatchOption};
ghost use Rattle.off_drill_rules.specs.Numbers.{tally_of, one_for, is_data, is_data_of};
ghost use Rattle.off_drill_rules.specs.Numbers.{block_octets, none_yet};
ghost use Rattle.off_drill_parts.specs.Tallying.{raised_by, data_tally};

use off_drill_rules::Tally;
use off_outside::{Replies, Sent, Service};

/// Nothing yet.
pub fn none_yet() -> Tally
    ensures { result ≡ none_yet }
{
    Tally {
        offers: 0,
        acks: 0,
        files: 0,
        blocks: 0,
        octets: 0,
    }
}

/// Counts what was said. Each number stops at the greatest.
pub fn count_said(tally: Tally, said: &Replies) -> Tally
    ensures { result ≡ raised_by tally (tally_of said.now) }
{
    let line = said.line();
    let of_line = Tally {
        offers: tally.offers.saturating_add(one_for(b"dhcp offer", line)),
        acks: tally.acks.saturating_add(one_for(b"dhcp ack", line)),
        files: tally.files.saturating_add(one_for(b"tftp done", line)),
        blocks: tally.blocks,
        octets: tally.octets,
    };
    count_data(of_line, said)
}

// A line of these words counts as one.
fn one_for(words: &[u8], line: &[u8]) -> u64
    ensures { result ≡ one_for words.now line.now }
{
    if line == words { 1 } else { 0 }
}

// Counts the DATA packets of what was said.
fn count_data(tally: Tally, said: &Replies) -> Tally
    ensures { result ≡ raised_by tally (data_tally said.now.items) }
{
    let mut sum = tally;
    for i in 0..said.len() {
        sum = count_item(sum, said.get(i));
    }
    sum
}

fn count_item(tally: Tally, item: &Sent) -> Tally
    ensures { result ≡ raised_by tally (data_tally (item.now ∷ [])) }
{
    match octets_of_item(item) {
        Some(octets) => Tally {
            offers: tally.offers,
            acks: tally.acks,
            files: tally.files,
            blocks: tally.blocks.saturating_add(1),
            octets: tally.octets.saturating_add(octets),
        },
        None => tally,
    }
}

// How many bytes of a file an item has, if it's a DATA packet.
fn octets_of_item(item: &Sent) -> Option<u64>
    ensures { MatchOption result (is_data item.now ≡ false)
        (λ octets. (is_data item.now ≡ true) × (octets ≡ block_octets item.now)) }
{
    match item {
        Sent::Datagram {
            service,
            to: _,
            bytes,
        } => match service {
            Service::Tftp => octets_of_packet(bytes.as_slice()),
            Service::Dhcp => None,
            Service::Time => None,
        },
        Sent::Answer { conn: _, bytes: _ } => None,
        Sent::Close { conn: _ } => None,
    }
}

// A packet that begins with 3 is DATA (RFC 1350, section 5), and has four bytes before its block.
fn octets_of_packet(bytes: &[u8]) -> Option<u64>
    ensures { MatchOption result (is_data_of Service.Tftp bytes.now ≡ false)
        (λ octets. (is_data_of Service.Tftp bytes.now ≡ true)
        × (octets ≡ length bytes.now - 4)) }
{
    if bytes.len() < 2 {
        return None;
    }
    if bytes[1] != 3 {
        return None;
    }
    Some(bytes.len().saturating_sub(4) as u64)
}
