//! What a client's message says, by plain reading of its options.

use off_asking::{Form, Named};
use off_base::{Bytes, Ip4, Joined, Mac, NoMemory};
use off_dhcp::Message;
use std::alloc::Global;

/// What a client's message says.
#[derive(Drop)]
pub(crate) struct Said {
    pub(crate) discovers: bool,
    pub(crate) requests: bool,
    pub(crate) declines: bool,
    pub(crate) releases: bool,
    pub(crate) client: Mac,
    pub(crate) ciaddr: Ip4,
    pub(crate) giaddr: Ip4,
    /// Options 50 and 54, and the form that a REQUEST has by them.
    pub(crate) address: Named,
    pub(crate) server: Named,
    pub(crate) form: Form,
    /// Whether option 60 says that the client is a modem, where it's there.
    pub(crate) is_modem: Option<bool>,
    /// The serial number, of option 43, and the client that the relay names, of option 82.
    pub(crate) serial: Part,
    pub(crate) remote: Part,
}

/// A part of an option: whether one of the option's parts passes its end, and else the value of the
/// first one with a code.
#[derive(Drop)]
pub(crate) struct Part {
    pub(crate) is_cut: bool,
    pub(crate) value: Option<Bytes>,
}

impl Said {
    /// The address for which a REQUEST asks, or that a DECLINE or a RELEASE gives back.
    pub(crate) fn claimed(&self) -> Option<Ip4> {
        if self.requests {
            asked_by(self.form)
        } else if self.declines {
            at(self.address)
        } else {
            Some(self.ciaddr)
        }
    }
}

/// What a message says.
pub(crate) fn said_in(alloc: Global, m: &Message<'_>) -> Result<Said, NoMemory> {
    let kind = m.kind();
    let address = named(&m.option(50));
    let server = named(&m.option(54));
    let serial = part_of(alloc, &m.option(43), true, 4)?;
    let remote = part_of(alloc, &m.option(82), false, 2)?;
    let is_modem = names_a_modem(alloc, &m.option(60))?;
    Ok(Said {
        discovers: kind == 1,
        requests: kind == 3,
        declines: kind == 4,
        releases: kind == 7,
        client: m.mac(),
        ciaddr: m.ciaddr(),
        giaddr: m.giaddr(),
        address,
        server,
        form: form_by(address, server, m.ciaddr()),
        is_modem,
        serial,
        remote,
    })
}

/// The address that is named, where one is.
pub(crate) fn at(named: Named) -> Option<Ip4> {
    match named {
        Named::At(address) => Some(address),
        Named::Absent | Named::Malformed => None,
    }
}

// The address of an option: one that names an address has four bytes.
fn named(value: &Joined<'_>) -> Named {
    if !value.present() {
        return Named::Absent;
    }
    if value.len() != 4 {
        return Named::Malformed;
    }
    let bytes = [value.byte(0), value.byte(1), value.byte(2), value.byte(3)];
    Named::At(Ip4(u32::from_be_bytes(bytes)))
}

// The form of a REQUEST (RFC 2131, the table of section 4.3.6).
fn form_by(address: Named, server: Named, ciaddr: Ip4) -> Form {
    match (address, server, ciaddr.0 == 0) {
        (Named::At(asked), Named::At(_), true) => Form::Selecting(asked),
        (Named::At(asked), Named::Absent, true) => Form::InitReboot(asked),
        (Named::Absent, Named::Absent, false) => Form::Renewing(ciaddr),
        _ => Form::NoForm,
    }
}

fn asked_by(form: Form) -> Option<Ip4> {
    match form {
        Form::Selecting(asked) => Some(asked),
        Form::InitReboot(asked) => Some(asked),
        Form::Renewing(asked) => Some(asked),
        Form::NoForm => None,
    }
}

// Whether option 60, where it's there, begins with `docsis`, a digit, a dot, a digit and a colon.
fn names_a_modem(alloc: Global, value: &Joined<'_>) -> Result<Option<bool>, NoMemory> {
    if !value.present() {
        return Ok(None);
    }
    let text = copied(alloc, value)?;
    Ok(Some(match text.as_slice().get(6..10) {
        Some([major, b'.', minor, b':']) => {
            text.as_slice().starts_with(b"docsis")
                && major.is_ascii_digit()
                && minor.is_ascii_digit()
        }
        _ => false,
    }))
}

// The bytes of all options of a code.
fn copied(alloc: Global, value: &Joined<'_>) -> Result<Bytes, NoMemory> {
    let mut bytes = Bytes::new(alloc);
    for place in 0..value.len() {
        bytes.push_all(&[value.byte(place)])?;
    }
    Ok(bytes)
}

// The first part of an option with a code. Where the parts are marked, 0 is a pad, and 255 the end.
fn part_of(
    alloc: Global,
    value: &Joined<'_>,
    is_marked: bool,
    wanted: u8,
) -> Result<Part, NoMemory> {
    let bytes = copied(alloc, value)?;
    part_in(alloc, bytes.as_slice(), is_marked, wanted)
}

fn part_in(alloc: Global, bytes: &[u8], is_marked: bool, wanted: u8) -> Result<Part, NoMemory> {
    let mut part = Part {
        is_cut: false,
        value: None,
    };
    let mut at: usize = 0;
    for _part in 0..bytes.len() {
        let Some(code) = bytes.get(at) else {
            break;
        };
        if is_marked && *code == 255 {
            break;
        }
        if is_marked && *code == 0 {
            at = at.wrapping_add(1);
            continue;
        }
        let Some(value) = sized(alloc, bytes, at.wrapping_add(1))? else {
            return Ok(Part {
                is_cut: true,
                value: None,
            });
        };
        at = at.wrapping_add(2).wrapping_add(value.len());
        if *code == wanted && part.value.is_none() {
            part.value = Some(value);
        }
    }
    Ok(part)
}

// The bytes behind a length, where all of them are there.
fn sized(alloc: Global, bytes: &[u8], at: usize) -> Result<Option<Bytes>, NoMemory> {
    let Some(len) = bytes.get(at) else {
        return Ok(None);
    };
    let mut value = Bytes::new(alloc);
    for place in 0..usize::from(*len) {
        let Some(byte) = bytes.get(at.wrapping_add(1).wrapping_add(place)) else {
            return Ok(None);
        };
        value.push_all(&[*byte])?;
    }
    Ok(Some(value))
}
