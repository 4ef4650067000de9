ghost use Rattle.std.specs.Prelude.{◌≡◌, ◌++◌, decimal, string_bytes, IfOk, OnOk};
ghost use Rattle.std.specs.Fmt.{signed_decimal};
ghost use Rattle.hex.specs.Hex.{encode_lower};
ghost use Rattle.off_base.specs.AddressText.{ip_text_of, mac_text_of};
ghost use Rattle.off_clerk_rules.specs.Replies.{text_of, flag_text};

use itoa::Buffer;
use off_base::{Bytes, Ip4, Mac, NoMemory, Short, ip_text, mac_text};
use serde_json::Value;
use std::alloc::Global;

// Each of these appends one value to a text.

pub(crate) fn push_number(text: &mut Bytes, number: u64) -> Result<(), NoMemory>
    ensures { OnOk result (text.new ≡ text.old ++ decimal number) }
{
    text.push_all(Buffer::new().format(number).as_bytes())
}

pub(crate) fn push_signed(text: &mut Bytes, number: i32) -> Result<(), NoMemory>
    ensures { OnOk result (text.new ≡ text.old ++ signed_decimal number) }
{
    text.push_all(Buffer::new().format(number).as_bytes())
}

pub(crate) fn push_flag(text: &mut Bytes, flag: bool) -> Result<(), NoMemory>
    ensures { OnOk result (text.new ≡ text.old ++ flag_text flag) }
{
    if flag {
        text.push_all(b"true")
    } else {
        text.push_all(b"false")
    }
}

pub(crate) fn push_address(text: &mut Bytes, address: Ip4) -> Result<(), NoMemory>
    ensures { OnOk result (text.new ≡ text.old ++ ip_text_of address.0) }
{
    text.push_all(ip_text(address).as_slice())
}

pub(crate) fn push_mac(text: &mut Bytes, mac: Mac) -> Result<(), NoMemory>
    ensures { OnOk result (text.new ≡ text.old ++ mac_text_of mac.0) }
{
    text.push_all(&mac_text(mac))
}

pub(crate) fn push_hex(alloc: Global, text: &mut Bytes, value: &[u8]) -> Result<(), NoMemory>
    ensures { OnOk result (text.new ≡ text.old ++ encode_lower value.now) }
{
    let digits = hex::encode(alloc, value)?;
    text.push_all(digits.as_str().as_bytes())
}

// With the marks around it.
pub(crate) fn push_text(alloc: Global, text: &mut Bytes, held: &Short) -> Result<(), NoMemory>
    ensures { OnOk result (text.new ≡ text.old ++ text_of held.now) }
{
    let quoted = quoted(alloc, held)?;
    text.push_all(quoted.as_str().as_bytes())
}

fn quoted(alloc: Global, held: &Short) -> Result<String, NoMemory>
    ensures { IfOk result (λ quoted. string_bytes quoted ≡ text_of held.now) }
{
    let value = Value::String(String::from_str(alloc, held.as_str())?);
    Ok(value.to_string(alloc)?)
}
