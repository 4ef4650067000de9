use crate::quoted::{Ended, quoted};
use off_base::{Bytes, Ip4, Mac, Moment, NoMemory, Short, read_ip, read_mac, read_number};
use std::alloc::{AllocError, Global};

// The moment that scripts call `t`.
const T: u64 = 1_700_000_000;

/// Why a line wasn't read.
#[derive(Clone, Copy, Debug, PartialEq, Eq)]
pub enum Unread {
    /// Memory was wanted, and refused.
    Memory,
    /// It isn't written as such a line is.
    Words,
}

impl From<NoMemory> for Unread {
    fn from(_refused: NoMemory) -> Unread {
        Unread::Memory
    }
}

impl From<AllocError> for Unread {
    fn from(_refused: AllocError) -> Unread {
        Unread::Memory
    }
}

/// What is left of a line of a script, which is read from its front, word by word.
#[derive(Clone, Copy)]
pub struct Line<'a> {
    rest: &'a [u8],
}

// What stands behind the byte at a place.
fn behind(text: &[u8], place: usize) -> &[u8] {
    text.get(place.saturating_add(1)..).unwrap_or(b"")
}

impl<'a> Line<'a> {
    /// The whole line.
    pub fn over(text: &'a [u8]) -> Line<'a> {
        Line { rest: text }
    }

    /// What is left.
    pub fn rest(&self) -> &'a [u8] {
        self.rest
    }

    /// The next word, which ends at a space or with the line. It is empty where nothing is left.
    pub fn word(&mut self) -> &'a [u8] {
        let rest = self.rest;
        let end = rest
            .iter()
            .position(|byte| *byte == b' ')
            .unwrap_or(rest.len());
        self.rest = behind(rest, end);
        rest.get(..end).unwrap_or(rest)
    }

    /// A number in decimal of at most `most`.
    pub fn number(&mut self, most: u64) -> Result<u64, Unread> {
        read_number(self.word(), most).ok_or(Unread::Words)
    }

    /// A number of 32 bits.
    pub fn count(&mut self) -> Result<u32, Unread> {
        let number = self.number(u64::from(u32::MAX))?;
        Ok(u32::try_from(number).unwrap_or(u32::MAX))
    }

    /// A number of 8 bits.
    pub fn byte(&mut self) -> Result<u8, Unread> {
        let number = self.number(255)?;
        Ok(u8::try_from(number).unwrap_or(u8::MAX))
    }

    /// A number of 64 bits as a size.
    pub fn size(&mut self) -> Result<usize, Unread> {
        let number = self.number(u64::MAX)?;
        Ok(usize::try_from(number).unwrap_or(usize::MAX))
    }

    /// A number of 32 bits with a sign.
    pub fn signed(&mut self) -> Result<i32, Unread> {
        let word = self.word();
        let sign: i64 = if word.starts_with(b"-") { -1 } else { 1 };
        let digits = word.strip_prefix(b"-").unwrap_or(word);
        let number = read_number(digits, 2_147_483_648).ok_or(Unread::Words)?;
        let number = i64::try_from(number).unwrap_or(i64::MAX);
        i32::try_from(number.wrapping_mul(sign)).map_err(|_| Unread::Words)
    }

    /// An IPv4 address in dotted decimal.
    pub fn address(&mut self) -> Result<Ip4, Unread> {
        read_ip(self.word()).map_err(|_| Unread::Words)
    }

    /// A hardware address.
    pub fn mac(&mut self) -> Result<Mac, Unread> {
        read_mac(self.word()).map_err(|_| Unread::Words)
    }

    /// A moment: a number of seconds, or `t`, `t+2` or `t-2`.
    pub fn moment(&mut self) -> Result<Moment, Unread> {
        let word = self.word();
        if word == b"t".as_slice() {
            return Ok(Moment(T));
        }
        if let Some(later) = word.strip_prefix(b"t+") {
            let by = read_number(later, u64::MAX).ok_or(Unread::Words)?;
            return Ok(Moment(T.wrapping_add(by)));
        }
        if let Some(earlier) = word.strip_prefix(b"t-") {
            let by = read_number(earlier, T).ok_or(Unread::Words)?;
            return Ok(Moment(T.wrapping_sub(by)));
        }
        let number = read_number(word, u64::MAX).ok_or(Unread::Words)?;
        Ok(Moment(number))
    }

    /// A text of at most 64 bytes between quotation marks.
    pub fn short(&mut self, alloc: Global) -> Result<Short, Unread> {
        let mut text = Bytes::new(alloc);
        self.quoted(&mut text)?;
        Short::read(text.as_slice()).map_err(|_| Unread::Words)
    }

    /// What stands between quotation marks, or between apostrophes. `\n`, `\r`, `\t`, `\\`, `\"`,
    /// `\'` and `\x0a` stand for one byte each.
    pub fn quoted(&mut self, out: &mut Bytes) -> Result<(), Unread> {
        let Ended { end } = quoted(self.rest, out)?;
        // A space may stand behind.
        let rest = behind(self.rest, end);
        self.rest = rest.strip_prefix(b" ").unwrap_or(rest);
        Ok(())
    }

    /// The bytes of all that is left: quoted texts and hexadecimal digits, which stand between
    /// spaces. Behind a word such as `1000*` the next of them comes so many times.
    pub fn bytes(&mut self, alloc: Global) -> Result<Bytes, Unread> {
        let mut out = Bytes::new(alloc);
        let mut times = 1;
        for _ in 0..self.rest.len() {
            if self.rest.is_empty() {
                break;
            }
            times = self.part(alloc, &mut out, times)?;
        }
        Ok(out)
    }

    // Appends a part so many times, or reads how many times the next one comes.
    fn part(&mut self, alloc: Global, out: &mut Bytes, times: u64) -> Result<u64, Unread> {
        if let Some(number) = self.times() {
            return Ok(number);
        }
        let mut part = Bytes::new(alloc);
        self.piece(alloc, &mut part)?;
        for _ in 0..times {
            out.push_all(part.as_slice())?;
        }
        Ok(1)
    }

    // How many times the next part comes, where a word such as `1000*` stands here.
    fn times(&mut self) -> Option<u64> {
        let mut ahead = *self;
        let digits = ahead.word().strip_suffix(b"*")?;
        let number = read_number(digits, 100_000_000)?;
        self.rest = ahead.rest;
        Some(number)
    }

    // A quoted text, or hexadecimal digits.
    fn piece(&mut self, alloc: Global, out: &mut Bytes) -> Result<(), Unread> {
        if self.rest.starts_with(b"\"") || self.rest.starts_with(b"'") {
            return self.quoted(out);
        }
        self.hex(alloc, out)
    }

    /// A word of hexadecimal digits; `-` is no byte.
    pub fn hex(&mut self, alloc: Global, out: &mut Bytes) -> Result<(), Unread> {
        let word = self.word();
        if word == b"-".as_slice() {
            return Ok(());
        }
        let bytes = hex::decode(alloc, word).map_err(|_| Unread::Words)?;
        out.push_all(bytes.as_slice())?;
        Ok(())
    }
}
