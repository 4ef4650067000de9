ghost use Rattle.std.specs.Prelude.{◌≡◌, ◌≤◌, suc, true, false, length, Ok, IfOk, IfSome};
ghost use Rattle.off_file_rules.specs.File.{most_file_bytes};
ghost use Rattle.off_packets.specs.Packets.{Reads, packet_of};
ghost use Rattle.off_transfer_rules.specs.Steps.{is_repeated};
ghost use Rattle.off_transfer_rules.specs.Transfers.{packet_of_number, last_packet, is_at_last};
ghost use Rattle.off_transfer_rules.specs.Transfers.{gone_on, asked_again, sent_again};
ghost use Rattle.off_transfer_rules.specs.Transfers.{first_number, size_for, seconds_for};
ghost use Rattle.off_transfer_rules.specs.Transfers.{options_of, seconds_of};
ghost use Rattle.off_transfer_rules.specs.Ticks.{is_due, has_resend};
ghost use Rattle.off_tftp.specs.Granted.{begun_by};

use crate::files::File;
use crate::requests::{Grant, Request};
use off_base::{Bytes, Mac, Moment, NoMemory};
use off_packets::{Options, data_packet, oack_packet};
use std::alloc::Global;
use std::marker::Model;

// The sizes of blocks: none is over what a datagram carries whole, and without one that is asked
// for it's 512 (RFC 1350, section 2).
const MOST_SIZE: u16 = 1_428;

const USUAL_SIZE: u16 = 512;

// A packet that wasn't answered is sent again after so many seconds, where no others are asked
// for, and so often.
const USUAL_SECONDS: u64 = 2;

const MOST_RESENDS: u8 = 5;

/// A live transfer, which owns its file. It stands in a box of its own, so that others are put in
/// front of it and taken from there at little cost.
#[derive(Drop)]
pub struct Live {
    held: Box<Held>,
}

/// What a live transfer holds.
#[derive(Drop)]
struct Held {
    modem: Mac,
    subscriber: u32,
    file: File,
    size: u16,
    request: Bytes,
    // The name has so many bytes, behind the two of the request that tell its kind.
    name_len: usize,
    options: Options,
    sent: u16,
    is_acknowledged: bool,
    last_send: Moment,
    resends: u8,
}

impl Model for Live {
    ghost use Rattle.std.specs.Prelude.{◌≡◌, ◌+◌, ◌≤◌, length, take, drop};
    ghost use Rattle.off_file_rules.specs.File.{most_file_bytes};
    ghost use Rattle.off_packets.specs.Packets.{packet_of, options_by};
    ghost use Rattle.off_defs.specs.State.{Transfer};
    ghost use Rattle.off_defs.specs.Codes.{transfer_code};

    ghost Value = { Transfer };

    ghost coded = { transfer_code };

    ghost view = { λ l. record {
      name = take l.held.value.name_len (drop 2 l.held.value.request);
      modem = l.held.value.modem;
      subscriber = l.held.value.subscriber;
      file = l.held.value.file;
      size = l.held.value.size;
      request = l.held.value.request;
      sent = l.held.value.sent;
      is_acknowledged = l.held.value.is_acknowledged;
      last_send = l.held.value.last_send.0;
      resends = l.held.value.resends;
    } };

    ghost invariant = { λ l. (8 ≤ l.held.value.size) × (l.held.value.size ≤ 1428)
        × (length l.held.value.file ≤ most_file_bytes)
        × (options_by (packet_of l.held.value.request) ≡ l.held.value.options)
        × (2 + l.held.value.name_len ≤ length l.held.value.request) };
}

impl Live {
    /// A transfer as its read request makes it.
    #[tactic(auto, using(crate::proofs::NameLemmas::name_stands))]
    pub(crate) fn begin(
        alloc: Global,
        request: &Request<'_>,
        grant: Grant,
    ) -> Result<Live, NoMemory>
        requires least { IfSome request.now.options.blksize (λ size. 8 ≤ size) }
        requires read { packet_of request.now.bytes.now
            ≡ Ok (Reads request.now.name.now request.now.options) }
        requires few { length grant.file ≤ most_file_bytes }
        ensures { IfOk result (λ live. live ≡ begun_by request.now grant) }
    {
        let mut asked = Bytes::new(alloc);
        asked.push_all(request.bytes)?;
        let held = Held {
            modem: grant.modem,
            subscriber: grant.subscriber,
            file: grant.file,
            size: size_for(request.options),
            request: asked,
            name_len: request.name.len(),
            options: request.options,
            sent: first_number(request.options),
            is_acknowledged: false,
            last_send: request.at,
            resends: 0,
        };
        match Box::new(alloc, held) {
            Ok(held) => Ok(Live { held }),
            Err(_refused) => Err(NoMemory),
        }
    }

    /// Whether the request is the one with which the transfer began, and nothing was acknowledged
    /// since.
    pub(crate) fn is_repeated(&self, request: &[u8]) -> bool
        ensures { result ≡ is_repeated request.now self.now }
    {
        !self.held.is_acknowledged && self.held.request.as_slice() == request
    }

    /// The number of the packet that was sent last.
    pub(crate) fn sent(&self) -> u16
        ensures { result ≡ self.now.sent }
    {
        self.held.sent
    }

    /// For whom the transfer began.
    pub(crate) fn modem(&self) -> Mac
        ensures { result ≡ self.now.modem }
    {
        self.held.modem
    }

    pub(crate) fn subscriber(&self) -> u32
        ensures { result ≡ self.now.subscriber }
    {
        self.held.subscriber
    }

    /// The name for which its request asked.
    pub(crate) fn name(&self) -> &[u8]
        ensures { result.now ≡ self.now.name }
    {
        &self.held.request.as_slice()[2..][..self.held.name_len]
    }

    /// Whether the last block was sent.
    pub(crate) fn is_at_last(&self) -> bool
        ensures { result ≡ is_at_last self.now }
    {
        if self.held.sent == 0 {
            return false;
        }
        self.held.file.len() < usize::from(self.held.sent) * usize::from(self.held.size)
    }

    /// The packet that was sent last.
    pub(crate) fn last_packet(&self, alloc: Global) -> Result<Bytes, NoMemory>
        ensures { IfOk result (λ packet. packet ≡ last_packet self.now) }
    {
        self.packet(alloc, self.held.sent)
    }

    /// The packet behind it.
    pub(crate) fn next_packet(&self, alloc: Global) -> Result<Bytes, NoMemory>
        requires { is_at_last self.now ≡ false }
        ensures { IfOk result
            (λ packet. packet ≡ packet_of_number (options_of self.now) self.now.file self.now.size
            (suc self.now.sent)) }
    {
        self.packet(alloc, self.next_number())
    }

    /// Its number.
    pub(crate) fn next_number(&self) -> u16
        requires { is_at_last self.now ≡ false }
        ensures { result ≡ suc self.now.sent }
    {
        self.held.sent + 1
    }

    fn packet(&self, alloc: Global, number: u16) -> Result<Bytes, NoMemory>
        ensures { IfOk result
            (λ packet. packet ≡ packet_of_number (options_of self.now) self.now.file self.now.size
            number) }
    {
        if number == 0 {
            return oack_packet(alloc, self.options(), self.held.size, self.held.file.len());
        }
        let block = self.held.file.block(self.held.size, number);
        data_packet(alloc, number, self.held.size, block.first, block.rest)
    }

    /// The next block was sent.
    pub(crate) fn go_on(&mut self, now: Moment)
        requires { is_at_last self.old ≡ false }
        ensures { self.new ≡ gone_on now.0 self.old }
    {
        self.held.sent += 1;
        self.held.is_acknowledged = true;
        self.held.last_send = now;
        self.held.resends = 0;
    }

    /// Its first packet was sent again, since its read request came again.
    pub(crate) fn ask_again(&mut self, again: Moment)
        ensures { self.new ≡ asked_again again.0 self.old }
    {
        self.held.last_send = again;
    }

    /// Its last packet was sent again, since nothing came.
    pub(crate) fn send_again(&mut self, now: Moment)
        requires { has_resend self.old ≡ true }
        ensures { self.new ≡ sent_again now.0 self.old }
    {
        self.held.last_send = now;
        self.held.resends += 1;
    }

    /// Whether nothing came for long enough.
    pub(crate) fn is_due(&self, now: Moment) -> bool
        ensures { result ≡ is_due now.0 self.now }
    {
        self.held.last_send.0.saturating_add(self.seconds()) <= now.0
    }

    // Behind how many seconds its packets are sent again.
    fn seconds(&self) -> u64
        ensures { result ≡ seconds_of self.now }
    {
        seconds_for(self.options())
    }

    // What its request asked for.
    fn options(&self) -> Options
        ensures { result ≡ options_of self.now }
    {
        self.held.options
    }

    /// Whether it may be sent again.
    pub(crate) fn has_resend(&self) -> bool
        ensures { result ≡ has_resend self.now }
    {
        self.held.resends < MOST_RESENDS
    }
}

// The size of blocks for the one that is asked for.
fn size_for(options: Options) -> u16
    requires { IfSome options.blksize (λ size. 8 ≤ size) }
    ensures size { result ≡ size_for options }
    ensures least { 8 ≤ result }
    ensures most { result ≤ 1428 }
{
    match options.blksize {
        Some(size) => size.min(MOST_SIZE),
        None => USUAL_SIZE,
    }
}

// The seconds that are asked for, or two.
fn seconds_for(options: Options) -> u64
    ensures { result ≡ seconds_for options }
{
    match options.timeout {
        Some(seconds) => u64::from(seconds),
        None => USUAL_SECONDS,
    }
}

// The number of the first packet: 0 for the one that tells what was taken.
fn first_number(options: Options) -> u16
    ensures { result ≡ first_number options }
{
    if options.has_any() { 0 } else { 1 }
}
