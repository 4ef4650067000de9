ghost use Rattle.std.specs.Prelude.{◌≡◌, ◌==◌, ◌≤◌, length, Option, Some, None};
ghost use Rattle.std.specs.Prelude.{MatchResult, MatchOption, if◌then◌else◌};
ghost use Rattle.std.specs.List.{join_with_byte, list_any};
ghost use Rattle.std.specs.Str.{bytes_eq};
ghost use Rattle.hex.specs.Hex.{is_hex_digit};
ghost use Rattle.off_base.specs.AddressText.{mac_text_of, mac_of, mac_forms, digits_in, pairs};
ghost use Rattle.off_base.specs.AddressText.{fours};

use arrayvec::ArrayVec;

/// A hardware address of six bytes (IEEE 802, EUI-48), as RFC 2131's `chaddr` has for Ethernet.
#[derive(Clone, Copy, PartialEq, Eq, PartialOrd, Ord, Hash)]
pub struct Mac(pub [u8; 6]);

/// A text that is none of a hardware address.
#[derive(Clone, Copy, PartialEq, Eq)]
pub struct NotMac;

/// The address in twelve hexadecimal digits, in lower case and without separators.
pub fn mac_text(mac: Mac) -> [u8; 12]
    ensures text { result ≡ mac_text_of mac.0 }
    ensures reads_back { mac_of result ≡ Some mac.0 }
{
    let mut text = [0; 12];
    let _written = hex::encode_to_slice(mac.0.as_slice(), &mut text);
    text
}

/// Reads twelve hexadecimal digits of either case: bare, in pairs with `:` or with `-` between all
/// of them, or in groups of four with `.` between all of them.
///
/// `NotMac` comes exactly for every other text.
pub fn read_mac(text: &[u8]) -> Result<Mac, NotMac>
    ensures { MatchResult result (λ mac. mac_of text.now ≡ Some mac.0)
        (λ _. mac_of text.now ≡ None) }
{
    let Some(digits) = twelve_digits(text) else {
        return Err(NotMac);
    };
    if !is_form_of(text, &digits) {
        return Err(NotMac);
    }
    let mut bytes = [0; 6];
    match hex::decode_to_slice(digits.as_slice(), &mut bytes) {
        Ok(()) => Ok(Mac(bytes)),
        Err(_) => Err(NotMac),
    }
}

// Whether the byte is a hexadecimal digit.
fn is_digit(byte: u8) -> bool
    ensures { result ≡ is_hex_digit byte }
{
    byte.is_ascii_hexdigit()
}

// The digits of a text that isn't longer than any form of twelve of them.
fn hex_digits(text: &[u8]) -> ArrayVec<u8, 17>
    requires { length text.now ≤ 17 }
    ensures { result.items ≡ digits_in text.now }
{
    let mut digits = ArrayVec::new();
    for byte in text {
        if is_digit(*byte) {
            digits.push(*byte);
        }
    }
    digits
}

// The digits of the text, where there are twelve of them.
fn twelve_digits(text: &[u8]) -> Option<[u8; 12]>
    ensures { MatchOption result (mac_of text.now ≡ None)
        (λ digits. (digits ≡ digits_in text.now) × (length digits ≡ 12)) }
{
    if text.len() > 17 {
        return None;
    }
    let digits = hex_digits(text);
    if digits.len() != 12 {
        return None;
    }
    let mut twelve = [0; 12];
    twelve.copy_from_slice(digits.as_slice());
    Some(twelve)
}

// Whether the text is one of the four forms of these digits.
fn is_form_of(text: &[u8], digits: &[u8; 12]) -> bool
    ensures { result ≡ list_any (λ form. bytes_eq text.now form) (mac_forms digits.now) }
{
    text == digits.as_slice()
        || text == in_pairs(digits, b':').as_slice()
        || text == in_pairs(digits, b'-').as_slice()
        || text == in_fours(digits, b'.').as_slice()
}

fn in_pairs(digits: &[u8; 12], separator: u8) -> [u8; 17]
    ensures { result ≡ join_with_byte separator (pairs digits.now) }
{
    let s = separator;
    let [a, b, c, d, e, f, g, h, i, j, k, l] = *digits;
    [a, b, s, c, d, s, e, f, s, g, h, s, i, j, s, k, l]
}

fn in_fours(digits: &[u8; 12], separator: u8) -> [u8; 14]
    ensures { result ≡ join_with_byte separator (fours digits.now) }
{
    let s = separator;
    let [a, b, c, d, e, f, g, h, i, j, k, l] = *digits;
    [a, b, c, d, s, e, f, g, h, s, i, j, k, l]
}
