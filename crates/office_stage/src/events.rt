use off_base::{Bytes, Moment, Peer};
use off_outside::{Event, Events, Service, What};
use script_words::{Line, Page, Unread};
use std::alloc::Global;

fn push(events: &mut Events, at: Moment, what: What) -> Result<(), Unread> {
    events.push(Event { at, what })?;
    Ok(())
}

/// Appends the event of a line, or the events of one that stands for several.
pub fn push_event(alloc: Global, events: &mut Events, text: &[u8]) -> Result<(), Unread> {
    let mut line = Line::over(text);
    let at = line.moment()?;
    match line.word() {
        b"tick" => push(events, at, What::Tick),
        b"end" => push(events, at, What::End),
        b"closed" => push(
            events,
            at,
            What::Closed {
                conn: line.count()?,
            },
        ),
        b"piece" => push_piece(alloc, events, at, &mut line),
        b"pieces" => push_pieces(alloc, events, at, &mut line),
        b"ask" => push_request(alloc, events, at, &mut line),
        b"datagram" => push_datagram(alloc, events, at, &mut line),
        b"prefixes" => push_prefixes(alloc, events, at, &mut line),
        _ => Err(Unread::Words),
    }
}

// `piece 4 "GET"`
fn push_piece(
    alloc: Global,
    events: &mut Events,
    at: Moment,
    line: &mut Line<'_>,
) -> Result<(), Unread> {
    let conn = line.count()?;
    let bytes = line.bytes(alloc)?;
    push(events, at, What::Piece { conn, bytes })
}

fn bytes_of(alloc: Global, part: &[u8]) -> Result<Bytes, Unread> {
    let mut bytes = Bytes::new(alloc);
    bytes.push_all(part)?;
    Ok(bytes)
}

// `pieces 4 20 "GET"` has the bytes in pieces of 20.
fn push_pieces(
    alloc: Global,
    events: &mut Events,
    at: Moment,
    line: &mut Line<'_>,
) -> Result<(), Unread> {
    let conn = line.count()?;
    let size = line.size()?;
    let bytes = line.bytes(alloc)?;
    if size == 0 {
        return Err(Unread::Words);
    }
    for part in bytes.as_slice().chunks(size) {
        let bytes = bytes_of(alloc, part)?;
        push(events, at, What::Piece { conn, bytes })?;
    }
    Ok(())
}

// `ask 4 PUT /subscribers/7 {"active":true}` is a whole request with a body.
fn push_request(
    alloc: Global,
    events: &mut Events,
    at: Moment,
    line: &mut Line<'_>,
) -> Result<(), Unread> {
    let conn = line.count()?;
    let mut page = Page::new(alloc);
    page.raw(line.word())?;
    page.text(" ")?;
    page.raw(line.word())?;
    page.text(" HTTP/1.1\r\nContent-Length: ")?;
    page.number(line.rest().len() as u64)?;
    page.text("\r\n\r\n")?;
    page.raw(line.rest())?;
    let bytes = bytes_of(alloc, page.as_slice())?;
    push(events, at, What::Piece { conn, bytes })
}

fn read_service(word: &[u8]) -> Result<Service, Unread> {
    match word {
        b"dhcp" => Ok(Service::Dhcp),
        b"time" => Ok(Service::Time),
        b"tftp" => Ok(Service::Tftp),
        _ => Err(Unread::Words),
    }
}

// `from 10.64.0.1:67`
fn read_peer(line: &mut Line<'_>) -> Result<Peer, Unread> {
    let _from = line.word();
    let word = line.word();
    let place = word.iter().position(|byte| *byte == b':');
    let place = place.ok_or(Unread::Words)?;
    let ip = Line::over(word.get(..place).unwrap_or(b"")).address()?;
    let mut port = Line::over(word.get(place.saturating_add(1)..).unwrap_or(b""));
    let port = port.number(65_535)?;
    Ok(Peer {
        ip,
        port: u16::try_from(port).unwrap_or(0),
    })
}

// `datagram time from 10.64.0.10:5000 00ff`
fn push_datagram(
    alloc: Global,
    events: &mut Events,
    at: Moment,
    line: &mut Line<'_>,
) -> Result<(), Unread> {
    let service = read_service(line.word())?;
    let from = read_peer(line)?;
    let bytes = line.bytes(alloc)?;
    push(
        events,
        at,
        What::Datagram {
            service,
            from,
            bytes,
        },
    )
}

// `prefixes dhcp from 10.64.0.1:67 0101` has a datagram of no bytes, one of the first byte, and so
// on to all of them.
fn push_prefixes(
    alloc: Global,
    events: &mut Events,
    at: Moment,
    line: &mut Line<'_>,
) -> Result<(), Unread> {
    let service = read_service(line.word())?;
    let from = read_peer(line)?;
    let whole = line.bytes(alloc)?;
    for len in 0..=whole.len() {
        let bytes = bytes_of(alloc, whole.as_slice().get(..len).unwrap_or(b""))?;
        push(
            events,
            at,
            What::Datagram {
                service,
                from,
                bytes,
            },
        )?;
    }
    Ok(())
}
