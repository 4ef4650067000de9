//! What a modem says of itself in options 43 and 60, and its relay of it in option 82.

ghost use Rattle.std.specs.Prelude.{◌≡◌, ◌≤◌, ◌+◌, ◌==◌, ◌&&◌, not, length, take, drop};
ghost use Rattle.std.specs.Prelude.{is_err, true, if◌then◌else◌, Some, None};
ghost use Rattle.std.specs.Str.{bytes_eq};
ghost use Rattle.off_base.specs.Parts.{bytes_of};
ghost use Rattle.off_dhcp.specs.Datagram.{option_in};
ghost use Rattle.off_docsis.specs.Cable.{begins_as_modem};
ghost use Rattle.off_account_rules.specs.Rows.{passes};
ghost use Rattle.off_asking.specs.Asking.{vendor_parts, relay_parts, serial_number};
ghost use Rattle.off_asking.specs.Asking.{remote_identifier, mac, relayed};
ghost use Rattle.off_asking.specs.Said.{Says};

use crate::asking::Asked;
use off_base::{Joined, Mac};
use off_dhcp::Message;
use off_docsis::{DeviceParts, PartCut, RelayParts, Span, device, is_modem, relay};

const VENDOR_SPECIFIC: u8 = 43;

const VENDOR_CLASS: u8 = 60;

const RELAY_AGENT: u8 = 82;

const MAC_BYTES: usize = 6;

/// What the client says of itself, and the relay of it.
#[derive(Drop)]
pub(crate) struct Said<'a> {
    /// Option 43, and where its parts stand.
    pub(crate) vendor: Joined<'a>,
    pub(crate) device: Result<DeviceParts, PartCut>,
    /// Option 82, and where its parts stand.
    pub(crate) relay: Joined<'a>,
    pub(crate) way: Result<RelayParts, PartCut>,
    /// Whether option 60 says that the client is a modem, and whether it says something else.
    pub(crate) is_modem: bool,
    pub(crate) is_other: bool,
}

/// What is said in the options of a message.
pub(crate) fn said_in<'a>(m: &Message<'a>) -> Said<'a>
    ensures { Says m.now result }
{
    let vendor = m.option(VENDOR_SPECIFIC);
    let device = device(&vendor);
    let relay_option = m.option(RELAY_AGENT);
    let way = relay(&relay_option);
    let class = m.option(VENDOR_CLASS);
    let is_modem = is_modem(&class);
    Said {
        vendor,
        device,
        relay: relay_option,
        way,
        is_modem,
        is_other: class.present() && !is_modem,
    }
}

/// Whether a part of option 43 passes its end.
#[tactic(auto, using(crate::proofs::SpanLemmas::vendor_cut))]
pub fn is_vendor_cut(m: &Asked<'_>) -> bool
    ensures { result ≡ is_err (vendor_parts m.now) }
{
    m.said.device.is_err()
}

/// Whether a part of option 82 passes its end.
#[tactic(auto, using(crate::proofs::SpanLemmas::relay_cut))]
pub fn is_relay_cut(m: &Asked<'_>) -> bool
    ensures { result ≡ is_err (relay_parts m.now) }
{
    m.said.way.is_err()
}

/// Whether the client says that it's a modem.
pub fn says_modem(m: &Asked<'_>) -> bool
    ensures { result ≡ begins_as_modem (bytes_of (option_in 60 m.now.options)) }
{
    m.said.is_modem
}

/// Whether the client says that it's something else than a modem.
pub fn says_other(m: &Asked<'_>) -> bool
    ensures { result
        ≡ passes (λ class. not (begins_as_modem class)) (option_in 60 m.now.options) }
{
    m.said.is_other
}

/// Whether the client says a serial number, and another one than this.
pub fn says_other_serial(m: &Asked<'_>, serial: &[u8]) -> bool
    ensures { result ≡ passes (λ said. not (bytes_eq said serial.now)) (serial_number m.now) }
{
    match &m.said.device {
        Ok(parts) => differs(&m.said.vendor, parts.serial, serial),
        Err(_cut) => false,
    }
}

/// Whether the relay names a client of six bytes, and another one than this.
pub fn relays_other(m: &Asked<'_>, mac: Mac) -> bool
    ensures { result ≡ passes (λ remote. (length remote == 6) && not (bytes_eq remote mac.0))
        (remote_identifier m.now) }
{
    match &m.said.way {
        Ok(parts) => {
            let remote = parts.remote;
            remote.len == MAC_BYTES && differs(&m.said.relay, remote, &mac.0)
        }
        Err(_cut) => false,
    }
}

/// The client that the relay names, where it names one by six bytes.
pub fn relayed(m: &Asked<'_>) -> Option<Mac>
    ensures { result ≡ relayed m.now }
{
    match &m.said.way {
        Ok(parts) => mac_in(&m.said.relay, parts.remote),
        Err(_cut) => None,
    }
}

// The hardware address whose six bytes the span of a value has.
fn mac_in(value: &Joined<'_>, span: Span) -> Option<Mac>
    requires { span.there ≡ true → span.at + span.len ≤ length (bytes_of value.now) }
    ensures { result ≡ (if span.there && (span.len == 6)
        then Some (mac (take span.len (drop span.at (bytes_of value.now)))) else None) }
{
    if span.there && span.len == MAC_BYTES {
        Some(mac_at(value, span.at))
    } else {
        None
    }
}

// The hardware address at a place of a value.
fn mac_at(value: &Joined<'_>, at: usize) -> Mac
    requires { at + 6 ≤ length (bytes_of value.now) }
    ensures { result.0 ≡ take 6 (drop at (bytes_of value.now)) }
{
    let mut bytes = value.bytes();
    Mac([
        bytes.byte_at(at),
        bytes.byte_at(at + 1),
        bytes.byte_at(at + 2),
        bytes.byte_at(at + 3),
        bytes.byte_at(at + 4),
        bytes.byte_at(at + 5),
    ])
}

// Whether the span of a value is there, and has other bytes than these.
fn differs(value: &Joined<'_>, span: Span, text: &[u8]) -> bool
    requires { span.there ≡ true → span.at + span.len ≤ length (bytes_of value.now) }
    ensures { result ≡ (span.there
        && not (bytes_eq (take span.len (drop span.at (bytes_of value.now))) text.now)) }
{
    span.there && !(span.len == text.len() && has_text(value, span.at, text))
}

// Whether a text stands at a place of a value.
fn has_text(value: &Joined<'_>, at: usize, text: &[u8]) -> bool
    requires { at + length text.now ≤ length (bytes_of value.now) }
    ensures { result ≡ bytes_eq (take (length text.now) (drop at (bytes_of value.now))) text.now }
{
    let mut bytes = value.bytes();
    for (i, byte) in text.iter().enumerate() {
        if bytes.byte_at(at + i) != *byte {
            return false;
        }
    }
    true
}
