ghost use Rattle.std.specs.Prelude.{◌≡◌, ◌+◌, ◌≤◌, [], ◌++◌, length, decimal, codes};
ghost use Rattle.off_defs.specs.KeyText.{key_text_of};

use crate::keys::Key;
use arrayvec::ArrayVec;
use itoa::Buffer;
use off_base::{ip_text, mac_text};
use std::marker::Model;

/// The text of a key, held in place. Contracts see its bytes.
#[derive(Drop)]
pub struct KeyText {
    held: ArrayVec<u8, 64>,
}

impl Model for KeyText {
    ghost use Rattle.std.specs.Prelude.{List, ℕ};

    ghost Value = { List ℕ };

    ghost view = { λ t. t.held.items };
}

impl KeyText {
    /// The text's bytes, 64 at most.
    pub fn as_slice(&self) -> &[u8]
        ensures text { result.now ≡ self.now }
        ensures short { length result.now ≤ 64 }
    {
        self.held.as_slice()
    }
}

/// What the log says of a key: its kind, and then its numbers in decimal, or its address.
pub fn key_text(k: &Key) -> KeyText
    ensures { result ≡ key_text_of k.now }
{
    match *k {
        Key::Site => worded("site", &[]),
        Key::Subscriber(number) => numbered("subscriber ", u64::from(number)),
        Key::AddOn(subscriber, number) => add_on_text(subscriber, number),
        Key::Modem(mac) => worded("modem ", &mac_text(mac)),
        Key::Class(number) => numbered("class ", u64::from(number)),
        Key::Pool(number) => numbered("pool ", u64::from(number)),
        Key::Lease(address) => worded("lease ", ip_text(address).as_slice()),
        Key::Held(mac) => worded("held ", &mac_text(mac)),
        Key::Batch(number) => numbered("batch ", number),
        Key::Hub(number) => numbered("hub ", u64::from(number)),
        Key::PoolHub(pool) => numbered("pool-hub ", u64::from(pool)),
        Key::DevicePool(number) => numbered("device-pool ", u64::from(number)),
        Key::Device(address) => worded("device ", ip_text(address).as_slice()),
    }
}

fn worded(word: &str, name: &[u8]) -> KeyText
    requires { length word.now + length name.now ≤ 64 }
    ensures { result ≡ word.now ++ name.now }
{
    let mut held = ArrayVec::new();
    let _fits = held.try_extend_from_slice(word.as_bytes());
    let _fits = held.try_extend_from_slice(name);
    KeyText { held }
}

fn numbered(word: &str, number: u64) -> KeyText
    requires { length word.now ≤ 40 }
    ensures { result ≡ word.now ++ decimal number }
{
    let mut buffer = Buffer::new();
    worded(word, buffer.format(number).as_bytes())
}

fn add_on_text(subscriber: u32, number: u8) -> KeyText
    ensures { result ≡ codes "add-on " ++ decimal subscriber ++ codes " " ++ decimal number }
{
    let mut buffer = Buffer::new();
    let mut held = ArrayVec::new();
    let _fits = held.try_extend_from_slice(b"add-on ");
    let _fits = held.try_extend_from_slice(buffer.format(subscriber).as_bytes());
    let _fits = held.try_extend_from_slice(b" ");
    let _fits = held.try_extend_from_slice(buffer.format(number).as_bytes());
    KeyText { held }
}
