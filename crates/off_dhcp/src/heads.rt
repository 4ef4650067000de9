ghost use Rattle.std.specs.Prelude.{◌≡◌, ◌+◌, ◌≤◌, length};
ghost use Rattle.std.specs.Int.{w16, w32, from_be_bytes};
ghost use Rattle.std.specs.List.{slice_range};
ghost use Rattle.off_dhcp.specs.Datagram.{option_in, options_in, head_of};

use crate::faults::{OPTIONS, has_fixed_part};
use off_base::{Ip4, Joined, OptionIndex};
use std::marker::Model;

/// The fixed part and the options of a request of BOOTP, whatever its client's hardware is and
/// whatever the options say (RFC 951, section 3; RFC 2131, section 2).
///
/// Contracts see the datagram's bytes, in which it lies. Where the options stand is found by one
/// walk, as it is read.
#[derive(Drop)]
pub struct Head<'a> {
    pub(crate) bytes: &'a [u8],
    pub(crate) options: OptionIndex<'a>,
}

impl<'a> Model for Head<'a> {
    ghost use Rattle.std.specs.Prelude.{◌≡◌, List, ℕ, true};
    ghost use Rattle.off_dhcp.specs.Datagram.{has_head, options_in};

    ghost Value = { List ℕ };

    ghost view = { λ h. h.bytes.now };

    ghost invariant = { λ h. (has_head h.bytes.now ≡ true)
        × (h.options ≡ options_in h.bytes.now) };
}

impl<'a> Head<'a> {
    /// Reads a datagram, and takes no memory. There is none where it has fewer than 240 or more
    /// than 1,500 bytes, isn't a request, has no cookie, or where an option passes the end.
    pub fn read(bytes: &'a [u8]) -> Option<Head<'a>>
        ensures { result ≡ head_of bytes.now }
    {
        if !has_fixed_part(bytes) {
            return None;
        }
        match OptionIndex::read(options_of(bytes)) {
            Ok(options) => Some(Head { bytes, options }),
            Err(_place) => None,
        }
    }

    /// The datagram's bytes.
    pub fn bytes(&self) -> &'a [u8]
        ensures bytes { result.now ≡ self.now }
        ensures long { 240 ≤ length self.now }
        ensures short { length self.now ≤ 1500 }
    {
        self.bytes
    }

    /// The transaction's number.
    pub fn xid(&self) -> u32
        ensures { result ≡ from_be_bytes w32 (slice_range self.now 4 8) }
    {
        four_bytes(self.bytes, 4)
    }

    /// The flags, of which the highest bit asks for a broadcast.
    pub fn flags(&self) -> u16
        ensures { result ≡ from_be_bytes w16 (slice_range self.now 10 12) }
    {
        two_bytes(self.bytes, 10)
    }

    /// The client's own address, where it has one.
    pub fn ciaddr(&self) -> Ip4
        ensures { result.0 ≡ from_be_bytes w32 (slice_range self.now 12 16) }
    {
        Ip4(four_bytes(self.bytes, 12))
    }

    /// The relay's address, or 0 where there is no relay.
    pub fn giaddr(&self) -> Ip4
        ensures { result.0 ≡ from_be_bytes w32 (slice_range self.now 24 28) }
    {
        Ip4(four_bytes(self.bytes, 24))
    }

    /// The 16 bytes of `chaddr`.
    pub fn hardware(&self) -> &'a [u8]
        ensures bytes { result.now ≡ slice_range self.now 28 44 }
        ensures len { length result.now ≡ 16 }
    {
        &self.bytes[28..44]
    }

    /// The values of all options of a code, joined in their order (RFC 3396, section 7).
    pub fn option(&self, code: u8) -> Joined<'a>
        ensures { result ≡ option_in code (options_in self.now) }
    {
        self.options.option(code)
    }
}

// What stands behind the fixed part and the cookie.
pub(crate) fn options_of(bytes: &[u8]) -> &[u8]
    requires { 240 ≤ length bytes.now }
    ensures { result.now ≡ options_in bytes.now }
{
    &bytes[OPTIONS..]
}

// The number in four bytes, the most significant first.
fn four_bytes(bytes: &[u8], at: usize) -> u32
    requires { at + 4 ≤ length bytes.now }
    ensures { result ≡ from_be_bytes w32 (slice_range bytes.now at (at + 4)) }
{
    let mut four = [0; 4];
    four.copy_from_slice(&bytes[at..at + 4]);
    u32::from_be_bytes(four)
}

// The number in two bytes, the most significant first.
fn two_bytes(bytes: &[u8], at: usize) -> u16
    requires { at + 2 ≤ length bytes.now }
    ensures { result ≡ from_be_bytes w16 (slice_range bytes.now at (at + 2)) }
{
    let mut two = [0; 2];
    two.copy_from_slice(&bytes[at..at + 2]);
    u16::from_be_bytes(two)
}
