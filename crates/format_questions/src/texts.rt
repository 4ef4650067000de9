use off_base::{Secret, Short, read_ip, read_mac, read_number};
use script_words::{Line, Page, Unread};
use std::alloc::Global;

/// `number 255 "007"`: the number of a text that is at most 255.
pub fn number(alloc: Global, page: &mut Page, line: Line<'_>) -> Result<(), Unread> {
    let mut line = line;
    let most = line.number(u64::MAX)?;
    let text = line.bytes(alloc)?;
    match read_number(text.as_slice(), most) {
        Some(number) => Ok(page.number(number)?),
        None => Ok(page.text("none")?),
    }
}

/// `mac "02:aa:bb:cc:dd:ee"`
pub fn mac(alloc: Global, page: &mut Page, line: Line<'_>) -> Result<(), Unread> {
    let mut line = line;
    let text = line.bytes(alloc)?;
    match read_mac(text.as_slice()) {
        Ok(mac) => Ok(page.mac(mac)?),
        Err(_) => Ok(page.text("none")?),
    }
}

/// `ip "10.64.0.10"`: its number, and the address again.
pub fn ip(alloc: Global, page: &mut Page, line: Line<'_>) -> Result<(), Unread> {
    let mut line = line;
    let text = line.bytes(alloc)?;
    match read_ip(text.as_slice()) {
        Ok(address) => {
            page.number(u64::from(address.0))?;
            page.text(" ")?;
            Ok(page.address(address)?)
        }
        Err(_) => Ok(page.text("none")?),
    }
}

/// `secret 00ff`: the bytes of the secret and of its copy.
pub fn secret(alloc: Global, page: &mut Page, line: Line<'_>) -> Result<(), Unread> {
    let mut line = line;
    let bytes = line.bytes(alloc)?;
    match Secret::read(bytes.as_slice()) {
        Some(secret) => {
            page.hex(secret.as_slice())?;
            page.text(" ")?;
            Ok(page.hex(secret.copy().as_slice())?)
        }
        None => Ok(page.text("none")?),
    }
}

/// `short "Ann"`: the bytes of the text and of its copy.
pub fn short(alloc: Global, page: &mut Page, line: Line<'_>) -> Result<(), Unread> {
    let mut line = line;
    let bytes = line.bytes(alloc)?;
    match Short::read(bytes.as_slice()) {
        Ok(short) => {
            page.hex(short.as_slice())?;
            page.text(" ")?;
            Ok(page.hex(short.copy().as_str().as_bytes())?)
        }
        Err(_) => Ok(page.text("none")?),
    }
}
