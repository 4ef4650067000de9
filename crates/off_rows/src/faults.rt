/// Why a row wasn't read.
#[derive(Clone, Copy, PartialEq, Eq)]
pub enum RowErr {
    /// No row of the key's kind has these bytes. This is the place of the first byte of the first
    /// field that can't be read, or of the first byte that is left over, counted from 0.
    BadRow(usize),
    /// The bytes are a row's, and memory for its settings was refused.
    Memory,
}
