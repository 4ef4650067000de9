ghost use Rattle.std.specs.Prelude.{◌≡◌, ◌≤◌, ◌+◌, ◌*◌, ◌++◌, length, OnOk};
ghost use Rattle.std.specs.List.{slice_range};
ghost use Rattle.off_dhcp.specs.Datagram.{option_in};
ghost use Rattle.off_base.specs.Parts.{bytes_of};
ghost use Rattle.off_dhcp.specs.Reply.{relay_options, relayed, pieces};

use crate::Message;
use crate::pieces::push_option;
use arrayvec::ArrayVec;
use off_base::{Bytes, Joined, JoinedBytes, NoMemory};

// Option 82 (RFC 3046).
const RELAY_AGENT: u8 = 82;

const MOST_OF_AN_OPTION: usize = 255;

/// Appends option 82 of the request, where it has one: as several options if it is longer than
/// one can be.
pub fn push_relay(out: &mut Bytes, m: &Message<'_>) -> Result<(), NoMemory>
    ensures { OnOk result (out.new ≡ out.old ++ relay_options (option_in 82 m.now.options)) }
{
    let value = m.option(RELAY_AGENT);
    if !value.present() {
        return Ok(());
    }
    if let Some(bytes) = value.whole() {
        if bytes.len() <= MOST_OF_AN_OPTION {
            return push_option(out, RELAY_AGENT, bytes);
        }
    }
    push_pieces(out, &value)
}

// Appends a value piece by piece, byte for byte, since it doesn't lie in one piece.
fn push_pieces(out: &mut Bytes, value: &Joined<'_>) -> Result<(), NoMemory>
    ensures { OnOk result (out.new ≡ out.old
        ++ relayed (bytes_of value.now) (pieces (length (bytes_of value.now)))) }
{
    let mut bytes = value.bytes();
    let len = value.len();
    for k in 0..pieces_of(len) {
        let piece = piece_of(&mut bytes, len, k);
        push_option(out, RELAY_AGENT, piece.as_slice())?;
    }
    Ok(())
}

fn pieces_of(len: usize) -> usize
    ensures { result ≡ pieces len }
{
    len.div_ceil(MOST_OF_AN_OPTION).max(1)
}

// The bytes of the value, of which there are so many, that its option with this number has.
fn piece_of(value: &mut JoinedBytes<'_>, len: usize, k: usize) -> ArrayVec<u8, 255>
    requires all { len ≡ length value.old }
    requires within { 255 * k ≤ len }
    ensures piece { result.items ≡ slice_range value.old (255 * k) (255 * k + 255) }
    ensures same { value.new ≡ value.old }
{
    let mut piece = ArrayVec::new();
    let from = MOST_OF_AN_OPTION * k;
    let to = len.min(from.saturating_add(MOST_OF_AN_OPTION));
    for i in from..to {
        piece.push(value.byte_at(i));
    }
    piece
}
