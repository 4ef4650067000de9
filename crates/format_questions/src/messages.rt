use off_base::{Joined, NoMemory, first_cut};
use off_dhcp::{DhcpFault, Message};
use off_docsis::{DeviceParts, PartCut, RelayParts, Span, device, is_modem, relay};
use off_query::query_or_message;
use script_words::{Line, Page, Unread};
use std::alloc::Global;

fn numbered(page: &mut Page, word: &str, number: u64) -> Result<(), NoMemory> {
    page.text(word)?;
    page.number(number)
}

/// `options 350101ff`: the place of the first option that passes the end, or `whole`.
pub fn options(alloc: Global, page: &mut Page, line: Line<'_>) -> Result<(), Unread> {
    let mut line = line;
    let options = line.bytes(alloc)?;
    match first_cut(options.as_slice()) {
        Some(place) => Ok(numbered(page, "cut ", place as u64)?),
        None => Ok(page.text("whole")?),
    }
}

// The joined bytes of an option, or `absent`.
fn show_joined(page: &mut Page, joined: &Joined<'_>) -> Result<(), NoMemory> {
    if !joined.present() {
        return page.text("absent");
    }
    numbered(page, "", joined.len() as u64)?;
    page.text(" ")?;
    for place in 0..joined.len() {
        page.hex(&[joined.byte(place)])?;
    }
    Ok(())
}

/// `option 43 2b0101ff`: the joined value of an option.
pub fn option(alloc: Global, page: &mut Page, line: Line<'_>) -> Result<(), Unread> {
    let mut line = line;
    let code = line.byte()?;
    let options = line.bytes(alloc)?;
    if first_cut(options.as_slice()).is_some() {
        return Ok(page.text("cut")?);
    }
    Ok(show_joined(page, &Joined::over(options.as_slice(), code))?)
}

fn show_span(page: &mut Page, word: &str, span: Span) -> Result<(), NoMemory> {
    page.text(word)?;
    if !span.there {
        return page.text(" none");
    }
    numbered(page, " ", span.at as u64)?;
    numbered(page, "+", span.len as u64)
}

/// `relay 5200`: where the circuit and the remote identifier stand in option 82 of these options.
pub fn relay_of(alloc: Global, page: &mut Page, line: Line<'_>) -> Result<(), Unread> {
    let mut line = line;
    let options = line.bytes(alloc)?;
    if first_cut(options.as_slice()).is_some() {
        return Err(Unread::Words);
    }
    let parts = relay(&Joined::over(options.as_slice(), 82));
    Ok(show_relay(page, parts)?)
}

fn show_relay(page: &mut Page, parts: Result<RelayParts, PartCut>) -> Result<(), NoMemory> {
    match parts {
        Ok(RelayParts { circuit, remote }) => {
            show_span(page, "circuit", circuit)?;
            show_span(page, " remote", remote)
        }
        Err(PartCut { place }) => numbered(page, "cut ", place as u64),
    }
}

/// `device 2b00`: where the type, the serial number and the software version stand in option 43 of
/// these options.
pub fn device_of(alloc: Global, page: &mut Page, line: Line<'_>) -> Result<(), Unread> {
    let mut line = line;
    let options = line.bytes(alloc)?;
    if first_cut(options.as_slice()).is_some() {
        return Err(Unread::Words);
    }
    let parts = device(&Joined::over(options.as_slice(), 43));
    Ok(show_device(page, parts)?)
}

fn show_device(page: &mut Page, parts: Result<DeviceParts, PartCut>) -> Result<(), NoMemory> {
    match parts {
        Ok(parts) => {
            show_span(page, "type", parts.kind)?;
            show_span(page, " serial", parts.serial)?;
            show_span(page, " software", parts.software)
        }
        Err(PartCut { place }) => numbered(page, "cut ", place as u64),
    }
}

/// `docsis 3c0a..`: whether option 60 of these options is that of a cable modem.
pub fn docsis(alloc: Global, page: &mut Page, line: Line<'_>) -> Result<(), Unread> {
    let mut line = line;
    let options = line.bytes(alloc)?;
    if first_cut(options.as_slice()).is_some() {
        return Err(Unread::Words);
    }
    let modem = is_modem(&Joined::over(options.as_slice(), 60));
    Ok(page.text(if modem { "modem" } else { "other" })?)
}

/// Prints why a datagram is no message.
pub fn show_fault(page: &mut Page, fault: DhcpFault) -> Result<(), NoMemory> {
    match fault {
        DhcpFault::Short => page.text("short"),
        DhcpFault::NotRequest => page.text("not-request"),
        DhcpFault::Hardware => page.text("hardware"),
        DhcpFault::Cookie => page.text("cookie"),
        DhcpFault::OptionCut(place) => numbered(page, "option-cut ", place as u64),
        DhcpFault::NoType => page.text("no-type"),
        DhcpFault::Overload => page.text("overload"),
        DhcpFault::Long => page.text("long"),
    }
}

/// `dhcp 0101..`: the fields of a message, or its first fault.
pub fn dhcp(alloc: Global, page: &mut Page, line: Line<'_>) -> Result<(), Unread> {
    let mut line = line;
    let bytes = line.bytes(alloc)?;
    match Message::read(bytes.as_slice()) {
        Ok(message) => Ok(show_message(page, &message)?),
        Err(fault) => Ok(show_fault(page, fault)?),
    }
}

fn show_message(page: &mut Page, message: &Message<'_>) -> Result<(), NoMemory> {
    numbered(page, "kind ", u64::from(message.kind()))?;
    page.text(" xid ")?;
    page.hex(&message.xid().to_be_bytes())?;
    numbered(page, " flags ", u64::from(message.flags()))?;
    page.text(" ciaddr ")?;
    page.address(message.ciaddr())?;
    page.text(" giaddr ")?;
    page.address(message.giaddr())?;
    page.text(" mac ")?;
    page.mac(message.mac())?;
    page.text(" hardware ")?;
    page.hex(message.hardware())
}

/// `dhcp-option 43 0101..`: the joined value of an option of a message.
pub fn dhcp_option(alloc: Global, page: &mut Page, line: Line<'_>) -> Result<(), Unread> {
    let mut line = line;
    let code = line.byte()?;
    let bytes = line.bytes(alloc)?;
    match Message::read(bytes.as_slice()) {
        Ok(message) => Ok(show_joined(page, &message.option(code))?),
        Err(fault) => Ok(show_fault(page, fault)?),
    }
}

/// `query 0101..`: whether a datagram is a relay's query for a lease.
pub fn query(alloc: Global, page: &mut Page, line: Line<'_>) -> Result<(), Unread> {
    let mut line = line;
    let bytes = line.bytes(alloc)?;
    match query_or_message(bytes.as_slice()) {
        Ok(_query) => Ok(page.text("query")?),
        Err(_read) => Ok(page.text("none")?),
    }
}
