ghost use Rattle.std.specs.Prelude.{◌≡◌, ◌≤◌, IfOk};
ghost use Rattle.off_drill_rules.specs.Rows.{mac, address, relay};
ghost use Rattle.off_drill_rules.specs.Messages.{fixed_part, modem_options, discover, request};
ghost use Rattle.off_drill_rules.specs.Messages.{read_request, acknowledgement};
ghost use Rattle.off_drill_rules.specs.Messages.{by_relay, by_modem};
ghost use Rattle.off_drill_rules.specs.Events.{at_modem};
ghost use Rattle.off_defs.specs.declared.events.What.TheVariants.{Datagram};
ghost use Rattle.off_defs.specs.declared.events.Service.TheVariants.{Dhcp, Tftp};
ghost use Rattle.off_drill_parts.specs.Asking.{event_for, hoped_line};

use crate::rows::{RELAY, address_of, mac_of, moment_of, secret};
use off_base::{Bytes, NoMemory, Peer};
use off_files::file_name;
use off_mic::HmacKey;
use off_outside::{Event, Service, What};
use std::alloc::Global;

// The four bytes in front of a message's options (RFC 2131, section 3).
const COOKIE: [u8; 4] = [99, 130, 83, 99];

/// What a modem asks of the office.
#[derive(Clone, Copy)]
pub enum Ask {
    /// An offer.
    Offer,
    /// The address that it was offered.
    Lease,
    /// Its file.
    File,
    /// The packet behind the one of this number, which has come.
    Next(u16),
}

/// What modem `i` sends to ask for that.
pub fn message(alloc: Global, i: u32, ask: Ask) -> Result<Event, NoMemory>
    requires { i ≤ 4000 }
    ensures { IfOk result (λ event. event ≡ event_for ask i) }
{
    match ask {
        Ask::Offer => {
            let bytes = discover(alloc, i)?;
            Ok(by_relay(i, bytes))
        }
        Ask::Lease => {
            let bytes = request(alloc, i)?;
            Ok(by_relay(i, bytes))
        }
        Ask::File => {
            let bytes = read_request(alloc, i)?;
            Ok(by_modem(i, bytes))
        }
        Ask::Next(number) => {
            let bytes = acknowledgement(alloc, number)?;
            Ok(by_modem(i, bytes))
        }
    }
}

/// The words of the line by which the office says that it did the last of what is asked.
pub fn hoped_line(ask: Ask) -> &'static [u8]
    ensures { result.now ≡ hoped_line ask }
{
    match ask {
        Ask::Offer => b"dhcp offer",
        Ask::Lease => b"dhcp ack",
        Ask::File => b"tftp oack",
        Ask::Next(_) => b"tftp done",
    }
}

// A DHCP message of modem `i`, which its relay hands on.
fn by_relay(i: u32, bytes: Bytes) -> Event
    ensures { result ≡ at_modem i (Datagram Dhcp by_relay bytes) }
{
    Event {
        at: moment_of(i),
        what: What::Datagram {
            service: Service::Dhcp,
            from: Peer {
                ip: RELAY,
                port: 67,
            },
            bytes,
        },
    }
}

// A TFTP packet of modem `i`.
fn by_modem(i: u32, bytes: Bytes) -> Event
    requires { i ≤ 4000 }
    ensures { result ≡ at_modem i (Datagram Tftp (by_modem i) bytes) }
{
    Event {
        at: moment_of(i),
        what: What::Datagram {
            service: Service::Tftp,
            from: Peer {
                ip: address_of(i),
                port: 5000,
            },
            bytes,
        },
    }
}

// A BOOTREQUEST with its number, its relay and its client, up to its options.
fn fixed_part(alloc: Global, i: u32) -> Result<Bytes, NoMemory>
    ensures { IfOk result (λ bytes. bytes ≡ fixed_part i) }
{
    let mac = mac_of(i);
    let mut bytes = Bytes::new(alloc);
    bytes.push_all(&[1, 1, 6, 0])?;
    bytes.push_all(&i.to_be_bytes())?;
    bytes.push_all(&[0; 16])?;
    bytes.push_all(&RELAY.0.to_be_bytes())?;
    bytes.push_all(&mac.0)?;
    bytes.push_all(&[0; 202])?;
    bytes.push_all(&COOKIE)?;
    Ok(bytes)
}

// What a modem says of itself (option 60), and its relay of it (option 82), with the end.
fn modem_options(i: u32) -> [u8; 23]
    ensures { result ≡ modem_options i }
{
    let [a, b, c, d, e, f] = mac_of(i).0;
    [
        60, 10, b'd', b'o', b'c', b's', b'i', b's', b'3', b'.', b'1', b':', 82, 8, 2, 6, a, b, c,
        d, e, f, 255,
    ]
}

fn discover(alloc: Global, i: u32) -> Result<Bytes, NoMemory>
    ensures { IfOk result (λ bytes. bytes ≡ discover i) }
{
    let mut bytes = fixed_part(alloc, i)?;
    bytes.push_all(&[53, 1, 1])?;
    bytes.push_all(&modem_options(i))?;
    Ok(bytes)
}

fn request(alloc: Global, i: u32) -> Result<Bytes, NoMemory>
    requires { i ≤ 4000 }
    ensures { IfOk result (λ bytes. bytes ≡ request i) }
{
    let mut bytes = fixed_part(alloc, i)?;
    bytes.push_all(&[53, 1, 3])?;
    bytes.push_all(&[50, 4])?;
    bytes.push_all(&address_of(i).0.to_be_bytes())?;
    bytes.push_all(&[54, 4, 10, 0, 0, 2])?;
    bytes.push_all(&modem_options(i))?;
    Ok(bytes)
}

#[tactic(auto, unfolding(off_drill_rules::specs::Messages::read_request))]
fn read_request(alloc: Global, i: u32) -> Result<Bytes, NoMemory>
    requires { i ≤ 4000 }
    ensures { IfOk result (λ bytes. bytes ≡ read_request i) }
{
    let mut bytes = Bytes::new(alloc);
    bytes.push_all(&[0, 1])?;
    let key = HmacKey::of(&secret());
    bytes.push_all(&file_name(&key, mac_of(i), address_of(i)))?;
    bytes.push_all(b"\0octet\0blksize\x0044\0")?;
    Ok(bytes)
}

#[tactic(auto, unfolding(off_drill_rules::specs::Messages::acknowledgement))]
fn acknowledgement(alloc: Global, number: u16) -> Result<Bytes, NoMemory>
    ensures { IfOk result (λ bytes. bytes ≡ acknowledgement number) }
{
    let mut bytes = Bytes::new(alloc);
    bytes.push_all(&[0, 4])?;
    bytes.push_all(&number.to_be_bytes())?;
    Ok(bytes)
}
