ghost use Rattle.std.specs.Prelude.{◌≡◌, ◌+◌, ◌≤◌, length};
ghost use Rattle.std.specs.Int.{w32, from_be_bytes};
ghost use Rattle.std.specs.List.{slice_range};
ghost use Rattle.off_peers.specs.Forgeries.{is_forged};

use off_base::Ip4;

// How many bytes a message has before its options, their cookie included.
const BEFORE_OPTIONS: usize = 240;

// Where the addresses of the client and of its relay begin (ciaddr, giaddr).
const CLIENT: usize = 12;

const RELAY: usize = 24;

/// Whether a datagram to the DHCP port is a message without a relay of a client that has another
/// address than the datagram's sender. Anybody could otherwise give back the address of a modem, or
/// renew it, with one datagram.
pub fn is_forged(datagram: &[u8], source: Ip4) -> bool
    ensures { result ≡ is_forged datagram.now source.0 }
{
    if datagram.len() < BEFORE_OPTIONS || address_at(datagram, RELAY) != 0 {
        return false;
    }
    let client = address_at(datagram, CLIENT);
    client != 0 && client != source.0
}

// The address in four bytes.
fn address_at(bytes: &[u8], at: usize) -> u32
    requires { at + 4 ≤ length bytes.now }
    ensures { result ≡ from_be_bytes w32 (slice_range bytes.now at (at + 4)) }
{
    let mut four = [0; 4];
    four.copy_from_slice(&bytes[at..at + 4]);
    u32::from_be_bytes(four)
}
