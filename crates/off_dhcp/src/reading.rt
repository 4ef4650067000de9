ghost use Rattle.std.specs.Prelude.{◌≡◌, ◌≤◌, length, None};
ghost use Rattle.off_base.specs.Choices.{first_there};
ghost use Rattle.off_dhcp.specs.Datagram.{message_of, option_in, options_in, mac_of_client};
ghost use Rattle.off_dhcp.specs.Datagram.{ReadsOptions, received};
ghost use Rattle.off_dhcp.specs.Datagram.{fixed_faults, message_fault};

use crate::DhcpFault;
use crate::faults::{MESSAGE_TYPE, fixed_fault, index_fault, sound_options};
use crate::heads::{Head, options_of};
use off_base::{Ip4, Joined, Mac};
use std::marker::Model;

/// A client's message (RFC 2131, section 2): a head whose client is an Ethernet one, and which says
/// its kind. It lies in the datagram's bytes.
#[derive(Drop)]
pub struct Message<'a> {
    head: Head<'a>,
}

impl<'a> Model for Message<'a> {
    ghost use Rattle.std.specs.Prelude.{◌≡◌, None};
    ghost use Rattle.off_dhcp.specs.Datagram.{Received, received, message_fault};

    ghost Value = { Received };

    ghost view = { λ m. received m.head };

    ghost invariant = { λ m. message_fault m.head ≡ None };
}

impl<'a> Message<'a> {
    /// Reads a datagram, and takes no memory.
    ///
    /// The faults come in this order: `Short`, `Long`, `NotRequest`, `Hardware`, `Cookie`,
    /// `OptionCut`, `NoType`, `Overload`.
    pub fn read(bytes: &'a [u8]) -> Result<Message<'a>, DhcpFault>
        ensures message { result ≡ message_of bytes.now }
        ensures options { ReadsOptions (options_in bytes.now) }
    {
        match fixed_fault(bytes) {
            Some(fault) => Err(fault),
            None => Message::behind_the_fixed_part(bytes),
        }
    }

    /// Reads the datagram of a head, whose options aren't gone over again. The faults come in the
    /// order of `read`.
    pub fn of(head: Head<'a>) -> Result<Message<'a>, DhcpFault>
        ensures { result ≡ message_of head.entry }
    {
        match head_fault(&head) {
            Some(fault) => Err(fault),
            None => Ok(Message { head }),
        }
    }

    // Reads a datagram whose fixed part has no fault.
    fn behind_the_fixed_part(bytes: &'a [u8]) -> Result<Message<'a>, DhcpFault>
        requires long { 240 ≤ length bytes.now }
        requires short { length bytes.now ≤ 1500 }
        requires none { first_there (fixed_faults bytes.now) ≡ None }
        ensures { result ≡ message_of bytes.now }
    {
        match sound_options(options_of(bytes)) {
            Ok(options) => {
                let head = Head { bytes, options };
                Ok(Message { head })
            }
            Err(fault) => Err(fault),
        }
    }

    /// The fixed part and the options, as any message of BOOTP has them.
    pub fn head(&self) -> &Head<'a>
        ensures { self.now ≡ received result.now }
    {
        &self.head
    }

    /// The message type, option 53 (RFC 2132, section 9.6): 1 DISCOVER, 3 REQUEST, 4 DECLINE,
    /// 7 RELEASE, 8 INFORM.
    pub fn kind(&self) -> u8
        ensures { result ≡ self.now.kind }
    {
        self.head.option(MESSAGE_TYPE).byte(0)
    }

    /// The transaction's number.
    pub fn xid(&self) -> u32
        ensures { result ≡ self.now.xid }
    {
        self.head.xid()
    }

    /// The flags, of which the highest bit asks for a broadcast.
    pub fn flags(&self) -> u16
        ensures { result ≡ self.now.flags }
    {
        self.head.flags()
    }

    /// The client's own address, where it has one.
    pub fn ciaddr(&self) -> Ip4
        ensures { result.0 ≡ self.now.ciaddr }
    {
        self.head.ciaddr()
    }

    /// The relay's address, or 0 where there is no relay.
    pub fn giaddr(&self) -> Ip4
        ensures { result.0 ≡ self.now.giaddr }
    {
        self.head.giaddr()
    }

    /// The client's hardware address: the first six bytes of `chaddr`.
    pub fn mac(&self) -> Mac
        ensures { result.0 ≡ mac_of_client self.now }
    {
        let mut mac = [0; 6];
        mac.copy_from_slice(&self.hardware()[..6]);
        Mac(mac)
    }

    /// The 16 bytes of `chaddr`.
    pub fn hardware(&self) -> &'a [u8]
        ensures bytes { result.now ≡ self.now.hardware }
        ensures len { length self.now.hardware ≡ 16 }
    {
        self.head.hardware()
    }

    /// The values of all options of a code, joined in their order (RFC 3396, section 7).
    pub fn option(&self, code: u8) -> Joined<'a>
        ensures { result ≡ option_in code self.now.options }
    {
        self.head.option(code)
    }
}

// The first fault of a message by its head.
fn head_fault(head: &Head<'_>) -> Option<DhcpFault>
    ensures { result ≡ message_fault head.now }
{
    match fixed_fault(head.bytes) {
        Some(fault) => Some(fault),
        None => index_fault(&head.options),
    }
}
