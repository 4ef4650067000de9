use crate::kept::Kept;
use crate::outside::Outside;
use crate::scene::Scene;
use off_base::{NoMemory, Peer};
use off_outside::{MemLink, SentRef, Service};
use off_words::place;
use script_words::{Page, Unread, show_row};
use std::alloc::Global;

/// Prints the status of a run, what was written and sent, and what else the scene shows.
pub fn show_run<K: Kept>(
    alloc: Global,
    page: &mut Page,
    scene: &Scene<'_>,
    status: u8,
    outside: &mut Outside<K>,
) -> Result<(), Unread> {
    page.text("status ")?;
    page.number(u64::from(status))?;
    page.end_line()?;
    show_written(page, outside.out.written())?;
    show_sent(page, outside.link.held())?;
    if outside.keeper.has_lost() {
        page.text("a crash would leave other rows\n")?;
    }
    if scene.shows_calls {
        show_calls(page, &outside.keeper)?;
    }
    if scene.shows_tables {
        show_tables(alloc, page, &mut outside.keeper)?;
    }
    Ok(())
}

// Whether the byte may stand in a line.
fn is_text(byte: u8) -> bool {
    byte == b'\n' || (b' '..=b'~').contains(&byte)
}

// Text is printed line by line, and other bytes in hexadecimal.
fn show_written(page: &mut Page, written: &[u8]) -> Result<(), NoMemory> {
    if written.iter().all(|byte| is_text(*byte)) {
        return show_lines(page, written);
    }
    page.text("bytes ")?;
    page.hex(written)?;
    page.end_line()
}

fn show_lines(page: &mut Page, written: &[u8]) -> Result<(), NoMemory> {
    let mut begins = true;
    for byte in written {
        if begins {
            page.text("| ")?;
        }
        page.raw(&[*byte])?;
        begins = *byte == b'\n';
    }
    if begins {
        return Ok(());
    }
    page.text(" (no line end)\n")
}

fn show_sent(page: &mut Page, link: &MemLink) -> Result<(), NoMemory> {
    for place in 0..link.sent_len() {
        show_item(page, link.sent(place))?;
    }
    Ok(())
}

fn show_item(page: &mut Page, item: SentRef<'_>) -> Result<(), NoMemory> {
    match item {
        SentRef::Datagram { service, to, bytes } => show_datagram(page, service, to, bytes),
        SentRef::Answer { conn, bytes } => {
            page.text("answer ")?;
            page.number(u64::from(conn))?;
            page.text(" ")?;
            page.escaped(bytes)?;
            page.end_line()
        }
        SentRef::Close { conn } => {
            page.text("close ")?;
            page.number(u64::from(conn))?;
            page.end_line()
        }
    }
}

fn show_datagram(
    page: &mut Page,
    service: Service,
    to: Peer,
    bytes: &[u8],
) -> Result<(), NoMemory> {
    page.text(match service {
        Service::Dhcp => "datagram dhcp to ",
        Service::Time => "datagram time to ",
        Service::Tftp => "datagram tftp to ",
    })?;
    page.address(to.ip)?;
    page.text(":")?;
    page.number(u64::from(to.port))?;
    page.text(" ")?;
    page.hex(bytes)?;
    page.end_line()
}

fn show_calls<K: Kept>(page: &mut Page, keeper: &K) -> Result<(), NoMemory> {
    page.text("calls of the keeper ")?;
    page.number(keeper.calls())?;
    page.end_line()
}

// The rows in the order of their keys. A call that is listed to fail is made again.
fn show_tables<K: Kept>(alloc: Global, page: &mut Page, keeper: &mut K) -> Result<(), Unread> {
    let mut last = None;
    for _ in 0..u64::MAX {
        let Ok(entry) = keeper.next(alloc, last.as_ref()) else {
            continue;
        };
        let Some((key, row)) = entry else {
            return Ok(());
        };
        page.text("row ")?;
        show_row(page, &key, &row)?;
        page.end_line()?;
        last = Some(key);
    }
    Ok(())
}

/// Prints what the words ask to be made, where they are of the form of `serve`.
pub fn show_place(page: &mut Page, words: &[String]) -> Result<(), NoMemory> {
    let Some(wanted) = place(words) else {
        return page.text("no place\n");
    };
    page.text("place ")?;
    page.text(wanted.store)?;
    for port in wanted.ports {
        page.text(" ")?;
        page.number(u64::from(port))?;
    }
    page.end_line()
}
