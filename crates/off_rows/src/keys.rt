ghost use Rattle.std.specs.Prelude.{◌≡◌, ◌≢◌, ◌<◌, ◌≤◌, ◌^◌, [], ◌∷◌, length, MatchOption};
ghost use Rattle.std.specs.Int.{to_be_bytes, w32, w64};
ghost use Rattle.off_defs.specs.declared.keys.Key.{Key};
ghost use Rattle.off_rows.specs.KeyBytes.{kind_of, numbers_of, key_bytes, IsRanged};

use off_base::{Ip4, Mac};
use off_defs::Key;
use std::marker::Model;

/// The bytes of a key: 1 to 9 bytes, `len` of them, and zeros behind them. Contracts see the bytes
/// without the zeros.
#[derive(Clone, Copy, PartialEq, Eq)]
pub struct KeyBytes {
    pub bytes: [u8; 9],
    pub len: u8,
}

impl Model for KeyBytes {
    ghost use Rattle.std.specs.Prelude.{ℕ, ◌-◌, List, ◌++◌, length, take, replicate};
    ghost use Rattle.off_rows.specs.KeyPads.{IsPadded, bytes_back, length_back};

    ghost Value = { List ℕ };

    ghost view = { λ k. take k.len k.bytes };

    ghost invariant = { λ k. IsPadded k.bytes k.len };

    ghost inverse = { λ v. record { bytes = v ++ replicate (9 - length v) 0; len = length v } };

    ghost inverse_ok = { λ k h i. record {
      bytes = bytes_back k.bytes k.len h i;
      len = length_back k.bytes k.len h i;
    } };
}

impl KeyBytes {
    /// The key's bytes without the zeros behind them.
    pub fn as_slice(&self) -> &[u8]
        ensures bytes { result.now ≡ self.now }
        ensures least { 1 ≤ length self.now }
        ensures most { length self.now ≤ 9 }
    {
        &self.bytes[..usize::from(self.len)]
    }
}

/// The bytes of a key: its kind, and then its numbers with the most significant byte first. Keys
/// are ordered as their bytes are.
pub fn encode_key(k: &Key) -> KeyBytes
    ensures bytes { result ≡ key_bytes k.now }
    ensures ranged { IsRanged k.now }
{
    spelled(*k)
}

fn spelled(key: Key) -> KeyBytes
    ensures bytes { result ≡ key_bytes key }
    ensures ranged { IsRanged key }
{
    match key {
        Key::Site => joined(1, &[]),
        Key::Subscriber(number) => joined(2, &number.to_be_bytes()),
        Key::AddOn(subscriber, number) => {
            let [a, b, c, d] = subscriber.to_be_bytes();
            joined(3, &[a, b, c, d, number])
        }
        Key::Modem(mac) => joined(4, &mac.0),
        Key::Class(number) => joined(5, &number.to_be_bytes()),
        Key::Pool(number) => joined(6, &number.to_be_bytes()),
        Key::Lease(address) => joined(7, &address.0.to_be_bytes()),
        Key::Held(mac) => joined(8, &mac.0),
        Key::Batch(number) => joined(9, &number.to_be_bytes()),
        Key::Hub(number) => joined(10, &number.to_be_bytes()),
        Key::PoolHub(pool) => joined(11, &pool.to_be_bytes()),
        Key::DevicePool(number) => joined(12, &number.to_be_bytes()),
        Key::Device(address) => joined(13, &address.0.to_be_bytes()),
    }
}

// A kind and numbers.
fn joined(kind: u8, numbers: &[u8]) -> KeyBytes
    requires { length numbers.now ≤ 8 }
    ensures { result ≡ kind ∷ numbers.now }
{
    let mut bytes = [0; 9];
    bytes[0] = kind;
    let end = 1 + numbers.len();
    bytes[1..end].copy_from_slice(numbers);
    KeyBytes {
        bytes,
        len: end as u8,
    }
}

/// The key that has these bytes. `None` comes exactly where no key has them.
#[tactic(auto, using(crate::proofs::KeyOrder::decodes_key))]
pub fn decode_key(bytes: &[u8]) -> Option<Key>
    ensures found { MatchOption result
        ((key : Key) → IsRanged key → key_bytes key ≢ bytes.now)
        (λ key. IsRanged key × (key_bytes key ≡ bytes.now)) }
    ensures only { (key : Key) → IsRanged key → key_bytes key ≡ bytes.now → result ≡ Some key }
{
    found_key(bytes)
}

fn found_key(bytes: &[u8]) -> Option<Key>
    ensures { MatchOption result
        ((key : Key) → IsRanged key → key_bytes key ≢ bytes.now)
        (λ key. IsRanged key × (key_bytes key ≡ bytes.now)) }
{
    let Some((kind, numbers)) = bytes.split_first() else {
        return None;
    };
    key_of(*kind, numbers)
}

// The key of a kind that has these numbers.
fn key_of(kind: u8, numbers: &[u8]) -> Option<Key>
    ensures { MatchOption result
        ((key : Key) → IsRanged key → kind_of key ≡ kind → numbers_of key ≢ numbers.now)
        (λ key. IsRanged key × (kind_of key ≡ kind) × (numbers_of key ≡ numbers.now)) }
{
    match kind {
        1 => site_key(numbers),
        2 => word_of(numbers).map(Key::Subscriber),
        3 => add_on_key(numbers),
        4 => mac_of(numbers).map(Key::Modem),
        5 => word_of(numbers).map(Key::Class),
        6 => word_of(numbers).map(Key::Pool),
        7 => word_of(numbers).map(|number| Key::Lease(Ip4(number))),
        8 => mac_of(numbers).map(Key::Held),
        9 => long_of(numbers).map(Key::Batch),
        10 => word_of(numbers).map(Key::Hub),
        11 => word_of(numbers).map(Key::PoolHub),
        12 => word_of(numbers).map(Key::DevicePool),
        13 => word_of(numbers).map(|number| Key::Device(Ip4(number))),
        _ => None,
    }
}

fn site_key(numbers: &[u8]) -> Option<Key>
    ensures { MatchOption result (numbers.now ≢ []) (λ key. (key ≡ Key.Site) × (numbers.now ≡ [])) }
{
    if numbers.is_empty() {
        Some(Key::Site)
    } else {
        None
    }
}

fn add_on_key(numbers: &[u8]) -> Option<Key>
    ensures { MatchOption result (length numbers.now ≢ 5)
        (λ key. (kind_of key ≡ 3) × IsRanged key × (numbers_of key ≡ numbers.now)) }
{
    let [a, b, c, d, number] = *numbers else {
        return None;
    };
    Some(Key::AddOn(u32::from_be_bytes([a, b, c, d]), number))
}

// The number of four bytes.
fn word_of(numbers: &[u8]) -> Option<u32>
    ensures { MatchOption result (length numbers.now ≢ 4)
        (λ number. (number < 2 ^ 32) × (to_be_bytes w32 number ≡ numbers.now)) }
{
    let [a, b, c, d] = *numbers else {
        return None;
    };
    Some(u32::from_be_bytes([a, b, c, d]))
}

// The number of eight bytes.
fn long_of(numbers: &[u8]) -> Option<u64>
    ensures { MatchOption result (length numbers.now ≢ 8)
        (λ number. (number < 2 ^ 64) × (to_be_bytes w64 number ≡ numbers.now)) }
{
    let [a, b, c, d, e, f, g, h] = *numbers else {
        return None;
    };
    Some(u64::from_be_bytes([a, b, c, d, e, f, g, h]))
}

// The hardware address of six bytes.
fn mac_of(numbers: &[u8]) -> Option<Mac>
    ensures { MatchOption result (length numbers.now ≢ 6)
        (λ mac. (length mac.0 ≡ 6) × (mac.0 ≡ numbers.now)) }
{
    let [a, b, c, d, e, f] = *numbers else {
        return None;
    };
    Some(Mac([a, b, c, d, e, f]))
}
