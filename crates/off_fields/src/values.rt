ghost use Rattle.std.specs.Prelude.{◌≡◌, ◌≢◌, ◌≤◌, ◌-◌, take, length, option_map, IfSome};
ghost use Rattle.off_documents.specs.Documents.{data_of};
ghost use Rattle.off_clerk_rules.specs.Fields.{number_in, offset_in, text_in, address_in, relay_in};
ghost use Rattle.off_clerk_rules.specs.Fields.{hex_of, hex_in};

use off_base::{Ip4, Secret, Short, read_ip};
use off_documents::Part;

// Each of these reads a JSON value of one kind and range.

pub(crate) fn number_of(value: &Part<'_, '_>, least: u64, most: u64) -> Option<u64>
    ensures exact { result ≡ number_in least most (data_of value.now) }
    ensures least { IfSome result (λ number. least ≤ number) }
    ensures most { IfSome result (λ number. number ≤ most) }
{
    match value.as_u64() {
        Some(number) if least <= number && number <= most => Some(number),
        _ => None,
    }
}

pub(crate) fn offset_of(value: &Part<'_, '_>) -> Option<i32>
    ensures { result ≡ offset_in (data_of value.now) }
{
    match value.as_i64() {
        Some(number) => i32::try_from(number).ok(),
        None => None,
    }
}

pub(crate) fn text_of(value: &Part<'_, '_>) -> Option<Short>
    ensures { result ≡ text_in (data_of value.now) }
{
    match value.as_str() {
        Some(text) => Short::read(text.as_bytes()).ok(),
        None => None,
    }
}

pub(crate) fn address_of(value: &Part<'_, '_>) -> Option<Ip4>
    ensures { result ≡ address_in (data_of value.now) }
{
    match value.as_str() {
        Some(text) => read_ip(text.as_bytes()).ok(),
        None => None,
    }
}

pub(crate) fn relay_of(value: &Part<'_, '_>) -> Option<Ip4>
    ensures exact { result ≡ relay_in (data_of value.now) }
    ensures given { IfSome result (λ address. address.0 ≢ 0) }
{
    match address_of(value) {
        Some(address) if address.0 != 0 => Some(address),
        _ => None,
    }
}

pub(crate) fn secret_of(value: &Part<'_, '_>) -> Option<Secret>
    ensures { result ≡ hex_in 64 (data_of value.now) }
{
    let mut room = [0; 64];
    let Some(length) = hex_into(value, &mut room) else {
        return None;
    };
    Secret::read(&room[..length])
}

// Reads hexadecimal into the front of some room, and tells how many bytes there are.
pub(crate) fn hex_into(value: &Part<'_, '_>, room: &mut [u8]) -> Option<usize>
    ensures value { option_map (λ count. take count room.new) result
        ≡ hex_in (length room.old) (data_of value.now) }
    ensures within { IfSome result (λ count. count ≤ length room.old) }
{
    match value.as_str() {
        Some(text) => decoded(text.as_bytes(), room),
        None => None,
    }
}

fn decoded(text: &[u8], room: &mut [u8]) -> Option<usize>
    ensures value { option_map (λ count. take count room.new) result
        ≡ hex_of (length room.old) text.now }
    ensures within { IfSome result (λ count. count ≤ length room.old) }
{
    if text.len() > 2 * room.len() {
        return None;
    }
    let count = text.len() / 2;
    match hex::decode_to_slice(text, &mut room[..count]) {
        Ok(()) => Some(count),
        Err(_) => None,
    }
}
