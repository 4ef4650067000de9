use crate::line::Unread;
use off_base::{Bytes, NoMemory};

// How far a quoted text was read.
#[derive(Clone, Copy)]
enum At {
    // Before it.
    Front,
    // In it.
    Text,
    // Behind a backslash.
    Escape,
    // Behind `\x`.
    High,
    // Behind `\x` and a digit.
    Low(u8),
}

// The place of the mark that ends a quoted text.
pub struct Ended {
    pub end: usize,
}

// The value of a hexadecimal digit.
fn digit(byte: u8) -> Result<u8, Unread> {
    match byte {
        b'0'..=b'9' => Ok(byte.wrapping_sub(b'0')),
        b'a'..=b'f' => Ok(byte.wrapping_sub(b'a').wrapping_add(10)),
        _ => Err(Unread::Words),
    }
}

// What a byte behind a backslash stands for.
fn meant(byte: u8) -> u8 {
    match byte {
        b'n' => b'\n',
        b'r' => b'\r',
        b't' => b'\t',
        _ => byte,
    }
}

// Where the reading stands behind a byte of the text.
fn in_text(byte: u8, out: &mut Bytes) -> Result<At, NoMemory> {
    if byte == b'\\' {
        return Ok(At::Escape);
    }
    out.push_all(&[byte])?;
    Ok(At::Text)
}

// Where the reading stands behind one more byte.
fn behind(at: At, byte: u8, out: &mut Bytes) -> Result<At, Unread> {
    match at {
        At::Front => Ok(At::Text),
        At::Text => Ok(in_text(byte, out)?),
        At::Escape => {
            if byte == b'x' {
                return Ok(At::High);
            }
            out.push_all(&[meant(byte)])?;
            Ok(At::Text)
        }
        At::High => Ok(At::Low(digit(byte)?)),
        At::Low(high) => {
            out.push_all(&[high.wrapping_mul(16).wrapping_add(digit(byte)?)])?;
            Ok(At::Text)
        }
    }
}

/// Reads a quoted text, which begins and ends with one mark, and gives the place of the mark that
/// ends it.
pub fn quoted(text: &[u8], out: &mut Bytes) -> Result<Ended, Unread> {
    let Some(mark) = text.first() else {
        return Err(Unread::Words);
    };
    if *mark != b'"' && *mark != b'\'' {
        return Err(Unread::Words);
    }
    let mut at = At::Front;
    for (place, byte) in text.iter().enumerate() {
        if matches!(at, At::Text) && *byte == *mark {
            return Ok(Ended { end: place });
        }
        at = behind(at, *byte, out)?;
    }
    Err(Unread::Words)
}
