//! Packets that the office sends (RFC 1350, section 5; RFC 2347, section 2).

ghost use Rattle.std.specs.Prelude.{◌≡◌, ◌++◌, IfOk, OnOk};
ghost use Rattle.off_packets.specs.Replies.{data_packet, oack_packet, error_packet};
ghost use Rattle.off_packets.specs.Replies.{told, size_told, length_told, seconds_told};

use crate::packets::Options;
use itoa::Buffer;
use off_base::{Bytes, NoMemory};
use std::alloc::Global;

// The bytes in front of a block: the kind of the packet and the block's number.
const HEADER: usize = 4;

/// A block of a file in its two pieces. Room is taken for as many bytes as a block may have.
pub fn data_packet(
    alloc: Global,
    number: u16,
    size: u16,
    first: &[u8],
    rest: &[u8],
) -> Result<Bytes, NoMemory>
    ensures { IfOk result (λ packet. packet ≡ data_packet number (first.now ++ rest.now)) }
{
    let mut packet = Bytes::with_capacity(alloc, HEADER + usize::from(size))?;
    packet.push_all(&[0, 3])?;
    packet.push_all(&number.to_be_bytes())?;
    packet.push_all(first)?;
    packet.push_all(rest)?;
    Ok(packet)
}

/// The options that were read, each with what it's told: the size of blocks that was taken, the
/// file's length, and the seconds between resends.
pub fn oack_packet(
    alloc: Global,
    options: Options,
    size: u16,
    len: usize,
) -> Result<Bytes, NoMemory>
    ensures { IfOk result (λ packet. packet ≡ oack_packet options size len) }
{
    let mut packet = Bytes::new(alloc);
    packet.push_all(&[0, 6])?;
    tell_size(&mut packet, options, size)?;
    tell_length(&mut packet, options, len)?;
    tell_seconds(&mut packet, options)?;
    Ok(packet)
}

fn tell_size(packet: &mut Bytes, options: Options, size: u16) -> Result<(), NoMemory>
    ensures { OnOk result (packet.new ≡ packet.old ++ size_told options.blksize size) }
{
    match options.blksize {
        Some(_) => tell(packet, b"blksize", u64::from(size)),
        None => Ok(()),
    }
}

fn tell_length(packet: &mut Bytes, options: Options, len: usize) -> Result<(), NoMemory>
    ensures { OnOk result (packet.new ≡ packet.old ++ length_told options.tsize len) }
{
    if options.tsize {
        return tell(packet, b"tsize", len as u64);
    }
    Ok(())
}

fn tell_seconds(packet: &mut Bytes, options: Options) -> Result<(), NoMemory>
    ensures { OnOk result (packet.new ≡ packet.old ++ seconds_told options.timeout) }
{
    match options.timeout {
        Some(seconds) => tell(packet, b"timeout", u64::from(seconds)),
        None => Ok(()),
    }
}

// An option's name and a number, each ended by a zero byte.
fn tell(packet: &mut Bytes, name: &[u8], number: u64) -> Result<(), NoMemory>
    ensures { OnOk result (packet.new ≡ packet.old ++ told name.now number) }
{
    packet.push_all(name)?;
    packet.push_all(&[0])?;
    packet.push_all(Buffer::new().format(number).as_bytes())?;
    packet.push_all(&[0])
}

/// A refusal: a code, and a text for people.
pub fn error_packet(alloc: Global, code: u16, text: &[u8]) -> Result<Bytes, NoMemory>
    ensures { IfOk result (λ packet. packet ≡ error_packet code text.now) }
{
    let mut packet = Bytes::new(alloc);
    packet.push_all(&[0, 5])?;
    packet.push_all(&code.to_be_bytes())?;
    packet.push_all(text)?;
    packet.push_all(&[0])?;
    Ok(packet)
}
