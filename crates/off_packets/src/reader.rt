//! Packets as clients send them (RFC 1350, section 5; options by RFC 2347).

ghost use Rattle.std.specs.Prelude.{◌≡◌, ◌<◌, ◌≤◌, [], ◌∷◌, length, None, Some, Ok, Err};
ghost use Rattle.std.specs.Prelude.{MatchResult, MatchOption, IfSome, IfOk};
ghost use Rattle.std.specs.List.{position, list_all};
ghost use Rattle.std.specs.Int.{is_in_range};
ghost use Rattle.off_base.specs.Number.{is_number_text};
ghost use Rattle.off_packets.specs.Packets.{packet_of, request_of, acknowledgement_of};
ghost use Rattle.off_packets.specs.Packets.{packet_by, meant_by, ended_texts, is_zero};
ghost use Rattle.off_packets.specs.Packets.{value_of, size_asked, size_read, options_asked};
ghost use Rattle.off_packets.specs.Packets.{length_asked, seconds_asked, seconds_read};
ghost use Rattle.off_packets.specs.Pieces.{IsNumbered, AsksEnough};

use crate::faults::PacketFault;
use crate::packets::{Options, Packet};
use off_base::read_number;

// A packet has at most so many bytes.
const MOST: usize = 1_500;

// The sizes of blocks that may be asked for (RFC 2348).
const LEAST_SIZE: u64 = 8;

const MOST_SIZE: u64 = 65_464;

// The seconds between resends that may be asked for (RFC 2349).
const LEAST_SECONDS: u64 = 1;

const MOST_SECONDS: u64 = 255;

/// What a datagram says, or why it's no packet. It takes no memory.
pub fn read_packet(bytes: &[u8]) -> Result<Packet<'_>, PacketFault>
    ensures exact { MatchResult result (λ packet. packet_of bytes.now ≡ Ok (meant_by packet))
        (λ fault. packet_of bytes.now ≡ Err fault) }
    ensures least { IfOk result AsksEnough }
{
    if bytes.len() > MOST {
        return Err(PacketFault::Form);
    }
    let Some((code, rest)) = cut_number(bytes) else {
        return Err(PacketFault::Form);
    };
    read_by(code, rest)
}

// What a packet of the code says.
fn read_by(code: u16, bytes: &[u8]) -> Result<Packet<'_>, PacketFault>
    ensures exact { MatchResult result (λ packet. packet_by code bytes.now ≡ Ok (meant_by packet))
        (λ fault. packet_by code bytes.now ≡ Err fault) }
    ensures least { IfOk result AsksEnough }
{
    match code {
        1 => read_request(bytes),
        2 => Ok(Packet::Write),
        4 => read_acknowledgement(bytes),
        5 => Ok(Packet::Error),
        _ => Ok(Packet::Other),
    }
}

// What a read request asks.
fn read_request(bytes: &[u8]) -> Result<Packet<'_>, PacketFault>
    ensures exact { MatchResult result
        (λ packet. request_of (ended_texts bytes.now) ≡ Ok (meant_by packet))
        (λ fault. request_of (ended_texts bytes.now) ≡ Err fault) }
    ensures least { IfOk result AsksEnough }
{
    let Some((name, rest)) = cut_text(bytes) else {
        return Err(PacketFault::Form);
    };
    let Some((mode, options)) = cut_text(rest) else {
        return Err(PacketFault::Form);
    };
    if !mode.eq_ignore_ascii_case(b"octet") {
        return Err(PacketFault::Mode);
    }
    Ok(Packet::Read {
        name,
        options: options_asked(options),
    })
}

// Which packet has come.
fn read_acknowledgement(bytes: &[u8]) -> Result<Packet<'_>, PacketFault>
    ensures exact { MatchResult result
        (λ packet. acknowledgement_of bytes.now ≡ Ok (meant_by packet))
        (λ fault. acknowledgement_of bytes.now ≡ Err fault) }
    ensures least { IfOk result AsksEnough }
{
    match cut_number(bytes) {
        Some((number, _)) => Ok(Packet::Ack(number)),
        None => Err(PacketFault::Form),
    }
}

// The number in the first two bytes, and what stands behind it.
fn cut_number(bytes: &[u8]) -> Option<(u16, &[u8])>
    ensures { MatchOption result (length bytes.now < 2)
        (λ cut. IsNumbered bytes.now cut.0 cut.1.now) }
{
    if bytes.len() < 2 {
        return None;
    }
    Some((u16::from_be_bytes([bytes[0], bytes[1]]), &bytes[2..]))
}

// The first text of those that end with a zero byte, and what stands behind that byte.
fn cut_text(bytes: &[u8]) -> Option<(&[u8], &[u8])>
    ensures { MatchOption result (ended_texts bytes.now ≡ [])
        (λ cut. (ended_texts bytes.now ≡ cut.0.now ∷ ended_texts cut.1.now)
        × (length cut.1.now < length bytes.now)) }
{
    match place_of_zero(bytes) {
        Some(place) => Some((&bytes[..place], &bytes[place + 1..])),
        None => None,
    }
}

fn place_of_zero(bytes: &[u8]) -> Option<usize>
    ensures exact { result ≡ position is_zero bytes.now }
    ensures within { IfSome result (λ place. place < length bytes.now) }
{
    bytes.iter().position(|byte| *byte == 0)
}

// What the options ask for, each read by itself.
fn options_asked(options: &[u8]) -> Options
    ensures exact { result ≡ options_asked (ended_texts options.now) }
    ensures least { IfSome result.blksize (λ size. 8 ≤ size) }
{
    Options {
        blksize: size_asked(options),
        tsize: length_asked(options),
        timeout: seconds_asked(options),
    }
}

// The size of blocks that the options ask for.
fn size_asked(options: &[u8]) -> Option<u16>
    ensures exact { result ≡ size_asked (ended_texts options.now) }
    ensures least { IfSome result (λ size. 8 ≤ size) }
{
    match option_value(options, b"blksize") {
        Some(value) => size_read(value),
        None => None,
    }
}

// Whether they ask for the file's length.
fn length_asked(options: &[u8]) -> bool
    ensures { result ≡ length_asked (ended_texts options.now) }
{
    match option_value(options, b"tsize") {
        Some(value) => is_number_text(value),
        None => false,
    }
}

// The seconds between resends that they ask for.
fn seconds_asked(options: &[u8]) -> Option<u8>
    ensures { result ≡ seconds_asked (ended_texts options.now) }
{
    match option_value(options, b"timeout") {
        Some(value) => seconds_read(value),
        None => None,
    }
}

// The value of the first option of a name, whatever it is.
fn option_value<'a>(options: &'a [u8], name: &[u8]) -> Option<&'a [u8]>
    ensures { MatchOption result (value_of name.now (ended_texts options.now) ≡ None)
        (λ value. value_of name.now (ended_texts options.now) ≡ Some value.now) }
{
    let mut left = options;
    'options: loop {
        let Some((named, behind)) = cut_text(left) else {
            return None;
        };
        let Some((value, rest)) = cut_text(behind) else {
            return None;
        };
        if named.eq_ignore_ascii_case(name) {
            return Some(value);
        }
        left = rest;
    }
}

// A size of blocks, in 1 to 5 digits.
fn size_read(value: &[u8]) -> Option<u16>
    ensures exact { result ≡ size_read value.now }
    ensures least { IfSome result (λ size. 8 ≤ size) }
{
    if value.len() > 5 {
        return None;
    }
    let Some(size) = read_number(value, MOST_SIZE) else {
        return None;
    };
    if size < LEAST_SIZE {
        return None;
    }
    Some(size as u16)
}

// A time between resends, in 1 to 3 digits.
fn seconds_read(value: &[u8]) -> Option<u8>
    ensures { result ≡ seconds_read value.now }
{
    if value.len() > 3 {
        return None;
    }
    let Some(seconds) = read_number(value, MOST_SECONDS) else {
        return None;
    };
    if seconds < LEAST_SECONDS {
        return None;
    }
    Some(seconds as u8)
}

// Whether a text is 1 to 20 decimal digits, whatever number they spell.
#[tactic(auto, using(crate::proofs::PacketLemmas::digits_are))]
fn is_number_text(text: &[u8]) -> bool
    ensures { result ≡ is_number_text text.now }
{
    !text.is_empty() && text.len() <= 20 && are_digits(text)
}

fn are_digits(text: &[u8]) -> bool
    ensures { result ≡ list_all (is_in_range 48 57) text.now }
{
    text.iter().all(is_digit)
}

fn is_digit(byte: &u8) -> bool
    ensures { result ≡ is_in_range 48 57 byte.now }
{
    byte.is_ascii_digit()
}
