ghost use Rattle.std.specs.Prelude.{◌≡◌, ◌≤◌, length, Some, None, MatchResult};
ghost use Rattle.std.specs.List.{slice_range};
ghost use Rattle.off_dhcp.specs.Datagram.{options_in, option_in, message_of};
ghost use Rattle.off_query_rules.specs.Asked.{query_of, says_query};
ghost use Rattle.off_query_rules.specs.Asked.{ciaddr_of, giaddr_of, mac_of};

use off_base::{Ip4, Joined, Mac};
use off_dhcp::{DhcpFault, Head, Message};
use std::marker::Model;

const MESSAGE_TYPE: u8 = 53;

const OPTION_OVERLOAD: u8 = 52;

// DHCPLEASEQUERY (RFC 4388, section 6.1).
const LEASE_QUERY: u8 = 10;

/// A relay's query for a lease (RFC 4388, section 6.2): a head whose option 53 says so. It lies in
/// the datagram's bytes, and contracts see these.
#[derive(Drop)]
pub struct Query<'a> {
    head: Head<'a>,
}

impl<'a> Model for Query<'a> {
    ghost use Rattle.std.specs.Prelude.{◌≡◌, List, ℕ, true};
    ghost use Rattle.off_query_rules.specs.Asked.{is_query};

    ghost Value = { List ℕ };

    ghost view = { λ q. q.head };

    ghost invariant = { λ q. is_query q.head ≡ true };
}

impl<'a> Query<'a> {
    /// The datagram's bytes.
    pub(crate) fn bytes(&self) -> &'a [u8]
        ensures bytes { result.now ≡ self.now }
        ensures long { 240 ≤ length self.now }
    {
        self.head.bytes()
    }

    /// The client's own address, where the query has it.
    pub(crate) fn ciaddr(&self) -> Ip4
        ensures { result ≡ ciaddr_of self.now }
    {
        self.head.ciaddr()
    }

    /// The relay's address.
    pub(crate) fn giaddr(&self) -> Ip4
        ensures { result ≡ giaddr_of self.now }
    {
        self.head.giaddr()
    }

    /// The 16 bytes of `chaddr`.
    pub(crate) fn hardware(&self) -> &'a [u8]
        ensures { result.now ≡ slice_range self.now 28 44 }
    {
        self.head.hardware()
    }

    /// The client's hardware address: the first six bytes of `chaddr`.
    pub(crate) fn mac(&self) -> Mac
        ensures { result ≡ mac_of self.now }
    {
        let mut mac = [0; 6];
        mac.copy_from_slice(&self.bytes()[28..34]);
        Mac(mac)
    }

    /// The values of all options of a code, joined in their order.
    pub(crate) fn option(&self, code: u8) -> Joined<'a>
        ensures { result ≡ option_in code (options_in self.now) }
    {
        self.head.option(code)
    }
}

/// Reads a datagram to the port of DHCP: a relay's query for a lease, or what each other one is as
/// a client's message. Its options are gone over once, and it takes no memory.
pub fn query_or_message(bytes: &[u8]) -> Result<Query<'_>, Result<Message<'_>, DhcpFault>>
    ensures { MatchResult result (λ query. query_of bytes.now ≡ Some query)
        (λ read. (query_of bytes.now ≡ None) × (read ≡ message_of bytes.now)) }
{
    let Some(head) = Head::read(bytes) else {
        let message = Message::read(bytes);
        return Err(message);
    };
    if !says_query(&head) {
        return Err(Message::of(head));
    }
    Ok(Query { head })
}

// Whether the options of a head are a query's.
fn says_query(head: &Head<'_>) -> bool
    ensures { result ≡ says_query (options_in head.now) }
{
    let kind = head.option(MESSAGE_TYPE);
    kind.len() == 1 && kind.byte(0) == LEASE_QUERY && !head.option(OPTION_OVERLOAD).present()
}
