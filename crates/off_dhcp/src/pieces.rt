//! The pieces of which a reply is made. After `NoMemory` the bytes so far are of no use.

ghost use Rattle.std.specs.Prelude.{◌≡◌, ◌≤◌, ◌++◌, length, [], ◌∷◌, OnOk};
ghost use Rattle.off_dhcp.specs.Reply.{zeros, four, option, padded};

use off_base::{Bytes, END_OPTION, NoMemory};

const LEAST_BYTES: usize = 300;

/// Appends an option of four bytes.
pub fn push_number(out: &mut Bytes, code: u8, number: u32) -> Result<(), NoMemory>
    ensures { OnOk result (out.new ≡ out.old ++ option code (four number)) }
{
    push_option(out, code, &number.to_be_bytes())
}

/// Appends an option.
pub fn push_option(out: &mut Bytes, code: u8, value: &[u8]) -> Result<(), NoMemory>
    requires { length value.now ≤ 255 }
    ensures { OnOk result (out.new ≡ out.old ++ option code value.now) }
{
    out.push_all(&[code, value.len() as u8])?;
    out.push_all(value)
}

/// Appends the end of the options, and zeros up to 300 bytes.
pub fn finish(out: &mut Bytes) -> Result<(), NoMemory>
    ensures { OnOk result (out.new ≡ padded (out.old ++ (255 ∷ []))) }
{
    out.push_all(&[END_OPTION])?;
    let short = LEAST_BYTES.saturating_sub(out.len());
    push_zeros(out, short)
}

/// Appends so many zeros.
pub fn push_zeros(out: &mut Bytes, count: usize) -> Result<(), NoMemory>
    requires { count ≤ 300 }
    ensures { OnOk result (out.new ≡ out.old ++ zeros count) }
{
    let zeros = [0; LEAST_BYTES];
    out.push_all(&zeros[..count])
}
