ghost use Rattle.std.specs.Prelude.{◌≡◌, ◌≤◌, ◌==◌, ◌&&◌, true, length};
ghost use Rattle.std.specs.Prelude.{Some, None, IfNone, IsOk, IfOk, MatchResult};
ghost use Rattle.std.specs.List.{slice_range};
ghost use Rattle.std.specs.Str.{bytes_eq};
ghost use Rattle.off_base.specs.Choices.{first_there};
ghost use Rattle.off_base.specs.Parts.{parts_in};
ghost use Rattle.off_dhcp.specs.Datagram.{fixed_faults, option_faults};
ghost use Rattle.off_dhcp.specs.Datagram.{magic_cookie, has_fixed_part};

use off_base::OptionIndex;

/// Why a datagram is no message that the office reads. The first fault in the order of `read` is
/// told.
#[derive(Clone, Copy, PartialEq, Eq)]
pub enum DhcpFault {
    /// Fewer than 240 bytes: the fixed part and the cookie.
    Short,
    /// The first byte, op, isn't 1 (BOOTREQUEST).
    NotRequest,
    /// The hardware type isn't 1 (Ethernet), or its length isn't 6.
    Hardware,
    /// The four bytes in front of the options aren't `63 82 53 63`.
    Cookie,
    /// An option passes the end. Its code stands at this place of the datagram.
    OptionCut(usize),
    /// The joined option 53 hasn't exactly one byte.
    NoType,
    /// Option 52 is there: further options in `sname` or `file` aren't read.
    Overload,
    /// More than 1,500 bytes.
    Long,
}

/// The bytes in front of the options: the fixed part (RFC 2131, section 2) and the cookie.
pub(crate) const OPTIONS: usize = 240;

const COOKIE: usize = 236;

const MOST_BYTES: usize = 1500;

const BOOTREQUEST: u8 = 1;

const ETHERNET: u8 = 1;

const ETHERNET_LENGTH: u8 = 6;

/// The four bytes in front of the options (RFC 2131, section 3).
pub const MAGIC_COOKIE: [u8; 4] = [99, 130, 83, 99];

/// Option 53 (RFC 2132, section 9.6).
pub(crate) const MESSAGE_TYPE: u8 = 53;

const OPTION_OVERLOAD: u8 = 52;

/// The first fault of the fixed part.
pub(crate) fn fixed_fault(bytes: &[u8]) -> Option<DhcpFault>
    ensures first { result ≡ first_there (fixed_faults bytes.now) }
    ensures long { IfNone result (240 ≤ length bytes.now) }
    ensures short { IfNone result (length bytes.now ≤ 1500) }
{
    if bytes.len() < OPTIONS {
        return Some(DhcpFault::Short);
    }
    if bytes.len() > MOST_BYTES {
        return Some(DhcpFault::Long);
    }
    if !is_request(bytes[0]) {
        return Some(DhcpFault::NotRequest);
    }
    if !is_ethernet(bytes[1], bytes[2]) {
        return Some(DhcpFault::Hardware);
    }
    if !has_cookie(bytes) {
        return Some(DhcpFault::Cookie);
    }
    None
}

/// Whether a datagram has the fixed part of a request, and the cookie.
pub(crate) fn has_fixed_part(bytes: &[u8]) -> bool
    ensures { result ≡ has_fixed_part bytes.now }
{
    bytes.len() >= OPTIONS && bytes.len() <= MOST_BYTES && is_request(bytes[0]) && has_cookie(bytes)
}

fn has_cookie(bytes: &[u8]) -> bool
    requires { 240 ≤ length bytes.now }
    ensures { result ≡ bytes_eq (slice_range bytes.now 236 240) magic_cookie }
{
    &bytes[COOKIE..OPTIONS] == MAGIC_COOKIE.as_slice()
}

fn is_request(operation: u8) -> bool
    ensures { result ≡ (operation == 1) }
{
    operation == BOOTREQUEST
}

fn is_ethernet(kind: u8, length: u8) -> bool
    ensures { result ≡ ((kind == 1) && (length == 6)) }
{
    kind == ETHERNET && length == ETHERNET_LENGTH
}

/// Goes over the options, which begin at place 240 of the datagram: where they stand, or their
/// first fault.
pub(crate) fn sound_options(options: &[u8]) -> Result<OptionIndex<'_>, DhcpFault>
    requires { length options.now ≤ 1260 }
    ensures index { IfOk result (λ index. index ≡ options.now) }
    ensures fault { MatchResult result (λ _. first_there (option_faults options.now) ≡ None)
        (λ fault. first_there (option_faults options.now) ≡ Some fault) }
{
    match OptionIndex::read(options) {
        Ok(index) => match index_fault(&index) {
            Some(fault) => Err(fault),
            None => Ok(index),
        },
        Err(place) => Err(DhcpFault::OptionCut(place + OPTIONS)),
    }
}

/// The first fault of options of which none passes the end.
pub(crate) fn index_fault(options: &OptionIndex<'_>) -> Option<DhcpFault>
    requires { IsOk (parts_in true options.now) }
    ensures { result ≡ first_there (option_faults options.now) }
{
    if options.option(MESSAGE_TYPE).len() != 1 {
        return Some(DhcpFault::NoType);
    }
    if options.option(OPTION_OVERLOAD).present() {
        return Some(DhcpFault::Overload);
    }
    None
}
