ghost use Rattle.std.specs.Prelude.{◌≡◌, IfOk, OnOk};

use crate::events::push_event;
use crate::kept::Kept;
use crate::outside::{Outside, runs};
use crate::scene::{Part, Scene};
use crate::wanting::WantingLink;
use off_base::{Bytes, NoMemory, read_number};
use off_defs::Writes;
use off_outside::{Calls, Events, Keeper, Link, MemLink, MemSink, MemSource};
use off_rows::KeyBytes;
use script_words::{Line, Page, Unread, read_write};
use std::alloc::Global;
use std::str;

/// Calls of one object that fail beside the listed ones: so many, from this number on.
#[derive(Clone, Copy)]
pub struct More {
    pub part: Part,
    pub from: u64,
    pub count: u64,
}

/// None.
pub const NO_MORE: More = More {
    part: Part::Link,
    from: 0,
    count: 0,
};

// The calls that fail: the listed ones, and those of an object that fail beside them.
fn calls(alloc: Global, listed: &[u8], part: Part, more: More) -> Result<Calls, Unread> {
    let mut all = Calls::new(alloc);
    for word in listed.split(|byte| *byte == b' ') {
        if !word.is_empty() {
            all.push(read_number(word, u64::MAX).ok_or(Unread::Words)?)?;
        }
    }
    if part == more.part {
        push_more(&mut all, more)?;
    }
    Ok(all)
}

fn push_more(all: &mut Calls, more: More) -> Result<(), NoMemory> {
    for place in 0..more.count {
        all.push(more.from.wrapping_add(place))?;
    }
    Ok(())
}

fn link_of(alloc: Global, scene: &Scene<'_>, more: More) -> Result<WantingLink, Unread>
    ensures { IfOk result (λ link. (⟦<WantingLink as Link>⟧.seen link).missed ≡ 0) }
{
    let fails = calls(alloc, scene.fails.link, Part::Link, more)?;
    let wants = calls(alloc, scene.wants, Part::Link, NO_MORE)?;
    let events = events_of(alloc, scene.events.as_slice())?;
    let rooms = scene.rooms;
    match MemLink::new(alloc, events, rooms.items, rooms.octets, fails) {
        Ok(link) => Ok(WantingLink::new(link, wants)),
        Err(NoMemory) => Err(Unread::Memory),
    }
}

fn events_of(alloc: Global, lines: &[&[u8]]) -> Result<Events, Unread> {
    let mut events = Events::new(alloc);
    for line in lines {
        push_event(alloc, &mut events, line)?;
    }
    Ok(events)
}

fn source_of(alloc: Global, scene: &Scene<'_>, more: More) -> Result<MemSource, Unread> {
    let fails = calls(alloc, scene.fails.source, Part::Source, more)?;
    let bytes: Bytes = Line::over(scene.source).bytes(alloc)?;
    Ok(MemSource::new(alloc, bytes, fails))
}

fn sink_of(alloc: Global, scene: &Scene<'_>, more: More) -> Result<MemSink, Unread> {
    let fails = calls(alloc, scene.fails.sink, Part::Sink, more)?;
    Ok(MemSink::new(alloc, scene.rooms.sink, fails)?)
}

// A keeper of the opening cells, and of the opening rows, which are put by its first call.
fn keeper_of<K: Kept + Drop>(alloc: Global, scene: &Scene<'_>, more: More) -> Result<K, Unread> {
    let fails = calls(alloc, scene.fails.keeper, Part::Keeper, more)?;
    let empty: K = K::made(alloc, fails)?;
    let mut keeper = with_cells(alloc, empty, scene.cells.as_slice())?;
    put_rows(alloc, &mut keeper, scene.rows.as_slice())?;
    Ok(keeper)
}

// `cell 0802 0a`, the bytes of a key and those under it.
fn with_cells<K: Kept + Drop>(alloc: Global, empty: K, lines: &[&[u8]]) -> Result<K, Unread> {
    let mut keeper = empty;
    for text in lines {
        let mut line = Line::over(text);
        let ident = key_of(part(alloc, &mut line)?.as_slice())?;
        let val = part(alloc, &mut line)?;
        keeper = keeper.with_cell(alloc, ident, val)?;
    }
    Ok(keeper)
}

fn part(alloc: Global, line: &mut Line<'_>) -> Result<Bytes, Unread> {
    let mut bytes = Bytes::new(alloc);
    line.hex(alloc, &mut bytes)?;
    Ok(bytes)
}

// A key of 1 to 9 bytes.
fn key_of(ident: &[u8]) -> Result<KeyBytes, Unread> {
    let mut bytes = [0; 9];
    let len = ident.len();
    if len == 0 || 9 < len {
        return Err(Unread::Words);
    }
    bytes[..len].copy_from_slice(ident);
    Ok(KeyBytes {
        bytes,
        len: len as u8,
    })
}

fn put_rows<K: Kept>(alloc: Global, keeper: &mut K, lines: &[&[u8]]) -> Result<(), Unread> {
    let mut writes = Writes::new(alloc);
    for line in lines {
        push_row(alloc, &mut writes, line)?;
    }
    match keeper.commit(alloc, &writes) {
        Ok(()) => Ok(()),
        Err(_failed) => Err(Unread::Memory),
    }
}

// `repeat 1 200000 subscriber # active 2 "Ann"` has the row for each number from the first to the
// last, which stands in decimal for `#` and in eight hexadecimal digits for `%`.
fn push_row(alloc: Global, writes: &mut Writes, text: &[u8]) -> Result<(), Unread> {
    let mut line = Line::over(text);
    if line.word() != b"repeat".as_slice() {
        return Ok(writes.push(read_write(alloc, &mut Line::over(text))?)?);
    }
    let first = line.count()?;
    let last = line.count()?;
    for number in first..=last {
        push_numbered(alloc, writes, line.rest(), number)?;
    }
    Ok(())
}

fn push_numbered(
    alloc: Global,
    writes: &mut Writes,
    text: &[u8],
    number: u32,
) -> Result<(), Unread> {
    let mut page = Page::new(alloc);
    for byte in text {
        match *byte {
            b'#' => page.number(u64::from(number))?,
            b'%' => page.hex(&number.to_be_bytes())?,
            _ => page.raw(&[*byte])?,
        }
    }
    let mut line = Line::over(page.as_slice());
    Ok(writes.push(read_write(alloc, &mut line)?)?)
}

// The words, which stand between spaces; `_` stands for an empty word.
fn words_of(alloc: Global, text: &[u8]) -> Result<Vec<String>, Unread> {
    let mut words = Vec::new(alloc);
    if text.is_empty() {
        return Ok(words);
    }
    for word in text.split(|byte| *byte == b' ') {
        let word = if word == b"_".as_slice() { b"" } else { word };
        push_word(alloc, &mut words, word)?;
    }
    Ok(words)
}

fn push_word(alloc: Global, words: &mut Vec<String>, word: &[u8]) -> Result<(), Unread> {
    let Ok(text) = str::from_utf8(word) else {
        return Err(Unread::Words);
    };
    match words.push(String::from_str(alloc, text)?) {
        Ok(()) => Ok(()),
        Err(_refused) => Err(Unread::Memory),
    }
}

/// Reads the words of a line.
pub fn read_words(alloc: Global, text: &[u8]) -> Result<Vec<String>, Unread> {
    words_of(alloc, text)
}

/// Begins with the scene's opening rows.
pub fn open<K: Kept + Drop>(
    alloc: Global,
    scene: &Scene<'_>,
    more: More,
    outside: &mut Outside<K>,
) -> Result<(), Unread> {
    outside.keeper = keeper_of(alloc, scene, more)?;
    Ok(())
}

// Gives the scene's events, its bytes and its room.
fn renew<K: Kept>(
    alloc: Global,
    scene: &Scene<'_>,
    more: More,
    outside: &mut Outside<K>,
) -> Result<(), Unread>
    ensures { OnOk result ((⟦<WantingLink as Link>⟧.seen outside.new.link).missed ≡ 0) }
{
    outside.source = source_of(alloc, scene, more)?;
    outside.out = sink_of(alloc, scene, more)?;
    outside.link = link_of(alloc, scene, more)?;
    Ok(())
}

/// Runs the scene over the tables that the keeper has, and gives the status.
pub fn played<K: Kept>(
    alloc: Global,
    scene: &Scene<'_>,
    more: More,
    outside: &mut Outside<K>,
) -> Result<u8, Unread> {
    let words = words_of(alloc, scene.words)?;
    renew(alloc, scene, more, outside)?;
    Ok(runs(alloc, words.as_slice(), outside))
}
