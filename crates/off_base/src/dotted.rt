ghost use Rattle.std.specs.Prelude.{◌≡◌, ◌≢◌, ℕ, ◌+◌, ◌-◌, ◌*◌, ◌%◌, ◌<◌, ◌≤◌, ◌^◌, ◌++◌, length};
ghost use Rattle.std.specs.Prelude.{take, replicate, Some, None, IfOk, IfErr, MatchResult};
ghost use Rattle.std.specs.Fmt.{decimal};
ghost use Rattle.off_base.specs.AddressText.{ip_text_of, ip_of};
ghost use Rattle.off_base.specs.Dotted.{dotted_value};

use crate::Ip4;
use arrayvec::ArrayVec;
use itoa::Buffer;

/// An IPv4 address in dotted decimal: `len` bytes of text, and zeros behind it.
#[derive(Clone, Copy, PartialEq, Eq)]
pub struct IpText {
    pub bytes: [u8; 15],
    pub len: u8,
}

/// A text that is none of an IPv4 address.
#[derive(Clone, Copy, PartialEq, Eq)]
pub struct NotIp;

impl IpText {
    /// The text without the zeros behind it.
    pub fn as_slice(&self) -> &[u8]
        requires { self.now.len ≤ 15 }
        ensures { result.now ≡ take self.now.len self.now.bytes }
    {
        &self.bytes[..usize::from(self.len)]
    }
}

/// The address in dotted decimal, without leading zeros.
pub fn ip_text(a: Ip4) -> IpText
    ensures text { result.bytes ≡ ip_text_of a.0 ++ replicate (15 - length (ip_text_of a.0)) 0 }
    ensures len { result.len ≡ length (ip_text_of a.0) }
    ensures fits { length (ip_text_of a.0) ≤ 15 }
    ensures reads_back { ip_of (ip_text_of a.0) ≡ Some a.0 }
{
    padded(&dotted(a.0))
}

/// Reads an address in dotted decimal: exactly the texts that `ip_text` gives.
///
/// `NotIp` comes exactly for every other text.
pub fn read_ip(text: &[u8]) -> Result<Ip4, NotIp>
    ensures read { IfOk result (λ a. ip_text_of a.0 ≡ text.now) }
    ensures refused { IfErr result (λ _. (a : ℕ) → a < 2 ^ 32 → ip_text_of a ≢ text.now) }
    ensures function { MatchResult result (λ a. ip_of text.now ≡ Some a.0)
        (λ _. ip_of text.now ≡ None) }
{
    let address = Ip4(spelled_address(text));
    let written = ip_text(address);
    if written.as_slice() == text {
        Ok(address)
    } else {
        Err(NotIp)
    }
}

// The text of the address with this number.
fn dotted(number: u32) -> ArrayVec<u8, 15>
    ensures text { result.items ≡ ip_text_of number }
    ensures fits { length (ip_text_of number) ≤ 15 }
    ensures reads_back { ip_of (ip_text_of number) ≡ Some number }
{
    let [first, second, third, fourth] = number.to_be_bytes();
    let mut text = ArrayVec::new();
    push_decimal(&mut text, first);
    text.push(b'.');
    push_decimal(&mut text, second);
    text.push(b'.');
    push_decimal(&mut text, third);
    text.push(b'.');
    push_decimal(&mut text, fourth);
    text
}

// Appends the number in decimal.
fn push_decimal(text: &mut ArrayVec<u8, 15>, number: u8)
    requires { length text.old.items ≤ 12 }
    ensures text { text.new.items ≡ text.old.items ++ decimal number }
    ensures short { length (decimal number) ≤ 3 }
{
    let mut buffer = Buffer::new();
    let _fits = text.try_extend_from_slice(buffer.format(number).as_bytes());
}

// The text with zeros behind it.
fn padded(text: &ArrayVec<u8, 15>) -> IpText
    ensures bytes { result.bytes ≡ text.now.items ++ replicate (15 - length text.now.items) 0 }
    ensures len { result.len ≡ length text.now.items }
{
    let mut bytes = [0; 15];
    bytes[..text.len()].copy_from_slice(text.as_slice());
    IpText {
        bytes,
        len: text.len() as u8,
    }
}

// What the text spells where it is the text of an address. What other texts give doesn't matter,
// since the caller compares the text of the result.
fn spelled_address(text: &[u8]) -> u32
    ensures { result ≡ dotted_value 0 0 text.now }
{
    let mut whole: u32 = 0;
    let mut last: u32 = 0;
    for byte in text {
        if *byte == b'.' {
            whole = append_octet(whole, last);
            last = 0;
        } else {
            last = (last * 10 + u32::from(*byte % 16)) % 256;
        }
    }
    append_octet(whole, last)
}

// The bytes so far with one more behind them, of which the last four stay.
fn append_octet(whole: u32, last: u32) -> u32
    requires { last < 256 }
    ensures { result ≡ whole % 2 ^ 24 * 256 + last }
{
    whole % 0x0100_0000 * 256 + last
}
