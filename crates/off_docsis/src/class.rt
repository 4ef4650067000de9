ghost use Rattle.std.specs.Prelude.{◌≡◌, ◌≤◌, ◌↔◌, IsTrue, length, take};
ghost use Rattle.std.specs.Char.{is_ascii_digit};
ghost use Rattle.off_base.specs.Parts.{bytes_of};
ghost use Rattle.off_docsis.specs.Cable.{begins_as_modem, spells_docsis, has_version};
ghost use Rattle.off_docsis.specs.Cable.{BeginsAsModem};

use off_base::{Joined, JoinedBytes};

// How many bytes are looked at.
const FRONT: usize = 10;

/// Whether the vendor class identifier (option 60) is that of a cable modem: it begins with
/// `docsis`, a digit, `.`, a digit and `:` (CANN-DHCP-Reg).
pub fn is_modem(option60: &Joined<'_>) -> bool
    ensures test { result ≡ begins_as_modem (bytes_of option60.now) }
    ensures form { IsTrue result ↔ BeginsAsModem (bytes_of option60.now) }
{
    let mut bytes = option60.bytes();
    if bytes.len() < FRONT {
        return false;
    }
    let front = front_of(&mut bytes);
    spells_docsis(&front) && has_version(&front)
}

// The bytes of which the test is. They are read in their order, by one walk over the options.
fn front_of(class: &mut JoinedBytes<'_>) -> [u8; 10]
    requires { 10 ≤ length class.old }
    ensures { result ≡ take 10 class.old }
{
    [
        class.byte_at(0),
        class.byte_at(1),
        class.byte_at(2),
        class.byte_at(3),
        class.byte_at(4),
        class.byte_at(5),
        class.byte_at(6),
        class.byte_at(7),
        class.byte_at(8),
        class.byte_at(9),
    ]
}

fn spells_docsis(front: &[u8; 10]) -> bool
    ensures { result ≡ spells_docsis front.now }
{
    front[0] == b'd'
        && front[1] == b'o'
        && front[2] == b'c'
        && front[3] == b's'
        && front[4] == b'i'
        && front[5] == b's'
}

fn has_version(front: &[u8; 10]) -> bool
    ensures { result ≡ has_version front.now }
{
    front[6].is_ascii_digit() && front[7] == b'.' && front[8].is_ascii_digit() && front[9] == b':'
}
