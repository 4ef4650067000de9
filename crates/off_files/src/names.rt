ghost use Rattle.std.specs.Prelude.{◌≡◌, ◌++◌, take, codes};
ghost use Rattle.std.specs.Int.{w32, to_be_bytes};
ghost use Rattle.hex.specs.Hex.{encode_lower};
ghost use Rattle.off_base.specs.AddressText.{mac_text_of};
ghost use Rattle.off_file_rules.specs.Name.{name_of};

use arrayvec::ArrayVec;
use off_base::{Ip4, Mac, mac_text};
use off_mic::HmacKey;

/// The name of a modem's file at an address: its twelve hexadecimal digits, `-`, sixteen digits of
/// a code that only the site's secret gives, and `.cm`. It takes no memory.
#[tactic(auto, unfolding(off_file_rules::specs::Name::name_of))]
pub fn file_name(key: &HmacKey, mac: Mac, ip: Ip4) -> [u8; 32]
    ensures { result ≡ name_of key.now mac ip }
{
    name_with(&key.code(&named(&mac.0, ip)), mac)
}

// What the code is of (RFC 2104 calls it the text).
fn named(mac: &[u8; 6], ip: Ip4) -> [u8; 10]
    ensures { result ≡ mac.now ++ to_be_bytes w32 ip.0 }
{
    let [a, b, c, d, e, f] = *mac;
    let [w, x, y, z] = ip.0.to_be_bytes();
    [a, b, c, d, e, f, w, x, y, z]
}

// The name with a code.
fn name_with(code: &[u8; 16], mac: Mac) -> [u8; 32]
    ensures { result ≡ mac_text_of mac.0 ++ codes "-" ++ encode_lower (take 8 code.now)
        ++ codes ".cm" }
{
    let mut digits = [0; 16];
    let _written = hex::encode_to_slice(&code[..8], &mut digits);
    let mut held: ArrayVec<u8, 32> = ArrayVec::new();
    let _fits = held.try_extend_from_slice(&mac_text(mac));
    let _fits = held.try_extend_from_slice(b"-");
    let _fits = held.try_extend_from_slice(&digits);
    let _fits = held.try_extend_from_slice(b".cm");
    let mut name = [0; 32];
    name.copy_from_slice(held.as_slice());
    name
}
