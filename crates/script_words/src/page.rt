use itoa::Buffer;
use md5::{Digest, Md5};
use off_base::{Bytes, Ip4, Mac, NoMemory, ip_text, mac_text};
use std::alloc::Global;

// Bytes beyond so many are printed by their number and their digest.
const MOST_PRINTED: usize = 2_000;

/// Text to be printed.
#[derive(Drop)]
pub struct Page {
    text: Bytes,
}

// Whether the byte stands for itself in a printed text.
fn is_plain(byte: u8) -> bool {
    (b' '..=b'~').contains(&byte) && byte != b'\\'
}

fn hex_digit(value: u8) -> u8 {
    if value < 10 {
        value.wrapping_add(b'0')
    } else {
        value.wrapping_sub(10).wrapping_add(b'a')
    }
}

impl Page {
    /// An empty one.
    pub fn new(alloc: Global) -> Page {
        Page {
            text: Bytes::new(alloc),
        }
    }

    /// All that was printed on it.
    pub fn as_slice(&self) -> &[u8] {
        self.text.as_slice()
    }

    /// Appends a text.
    pub fn text(&mut self, text: &str) -> Result<(), NoMemory> {
        self.text.push_all(text.as_bytes())
    }

    /// Appends bytes as they are.
    pub fn raw(&mut self, bytes: &[u8]) -> Result<(), NoMemory> {
        self.text.push_all(bytes)
    }

    /// Ends a line.
    pub fn end_line(&mut self) -> Result<(), NoMemory> {
        self.text.push_all(b"\n")
    }

    /// Appends a number in decimal.
    pub fn number(&mut self, number: u64) -> Result<(), NoMemory> {
        let mut buffer = Buffer::new();
        self.text.push_all(buffer.format(number).as_bytes())
    }

    /// Appends an IPv4 address in dotted decimal.
    pub fn address(&mut self, address: Ip4) -> Result<(), NoMemory> {
        self.text.push_all(ip_text(address).as_slice())
    }

    /// Appends a hardware address.
    pub fn mac(&mut self, mac: Mac) -> Result<(), NoMemory> {
        self.text.push_all(&mac_text(mac))
    }

    /// Appends bytes in hexadecimal, or of many their number and their MD5 digest (RFC 1321).
    pub fn hex(&mut self, bytes: &[u8]) -> Result<(), NoMemory> {
        if bytes.len() > MOST_PRINTED {
            return self.digest(bytes);
        }
        for byte in bytes {
            self.byte(*byte)?;
        }
        Ok(())
    }

    fn byte(&mut self, byte: u8) -> Result<(), NoMemory> {
        self.text
            .push_all(&[hex_digit(byte / 16), hex_digit(byte % 16)])
    }

    fn digest(&mut self, bytes: &[u8]) -> Result<(), NoMemory> {
        let mut hasher = Md5::new();
        hasher.update(bytes);
        self.number(bytes.len() as u64)?;
        self.text(" bytes, md5 ")?;
        for byte in hasher.finalize() {
            self.byte(byte)?;
        }
        Ok(())
    }

    /// Appends bytes as a text, in which `\n`, `\r`, `\\` and `\x0a` stand for one byte each; of
    /// many their number and their MD5 digest.
    pub fn escaped(&mut self, bytes: &[u8]) -> Result<(), NoMemory> {
        if bytes.len() > MOST_PRINTED {
            return self.digest(bytes);
        }
        for byte in bytes {
            self.printed(*byte)?;
        }
        Ok(())
    }

    fn printed(&mut self, byte: u8) -> Result<(), NoMemory> {
        if is_plain(byte) {
            return self.text.push_all(&[byte]);
        }
        match byte {
            b'\n' => self.text("\\n"),
            b'\r' => self.text("\\r"),
            b'\\' => self.text("\\\\"),
            _ => {
                self.text("\\x")?;
                self.byte(byte)
            }
        }
    }
}
