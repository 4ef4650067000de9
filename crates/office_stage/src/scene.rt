use script_words::{Line, Unread};
use std::alloc::Global;

/// An object whose calls may be made to fail.
#[derive(Clone, Copy, PartialEq, Eq)]
pub enum Part {
    Link,
    Source,
    Sink,
    Keeper,
}

/// How much is kept of what is sent and written.
#[derive(Clone, Copy)]
pub struct Rooms {
    pub items: usize,
    pub octets: usize,
    pub sink: usize,
}

/// The numbers of the calls that fail, as they are written.
#[derive(Clone, Copy)]
pub struct Fails<'a> {
    pub link: &'a [u8],
    pub source: &'a [u8],
    pub sink: &'a [u8],
    pub keeper: &'a [u8],
}

/// What a run is made of: lines of the script, as they are written.
#[derive(Drop)]
pub struct Scene<'a> {
    pub words: &'a [u8],
    pub cells: Vec<&'a [u8]>,
    pub rows: Vec<&'a [u8]>,
    pub events: Vec<&'a [u8]>,
    pub source: &'a [u8],
    pub fails: Fails<'a>,
    /// The numbers of the link's calls of `next` at which memory is wanted.
    pub wants: &'a [u8],
    pub each: Option<Part>,
    pub rooms: Rooms,
    pub shows_tables: bool,
    pub shows_calls: bool,
}

// The words of a run where the script gives none.
const WORDS: &[u8] = b"serve --store memory --ports 67,37,69,80 --turns 5000";

const ROOMS: Rooms = Rooms {
    items: 1_000,
    octets: 200_000,
    sink: 200_000,
};

const NO_FAILS: Fails<'static> = Fails {
    link: b"",
    source: b"",
    sink: b"",
    keeper: b"",
};

/// Appends a line to others.
pub fn push<'a>(lines: &mut Vec<&'a [u8]>, line: &'a [u8]) -> Result<(), Unread> {
    match lines.push(line) {
        Ok(()) => Ok(()),
        Err(_refused) => Err(Unread::Memory),
    }
}

/// Reads the name of an object.
fn read_part(word: &[u8]) -> Result<Part, Unread> {
    match word {
        b"link" => Ok(Part::Link),
        b"source" => Ok(Part::Source),
        b"sink" => Ok(Part::Sink),
        b"keeper" => Ok(Part::Keeper),
        _ => Err(Unread::Words),
    }
}

impl<'a> Scene<'a> {
    /// A run with no rows and no events, in which nothing fails.
    pub fn new(alloc: Global) -> Scene<'a> {
        Scene {
            words: WORDS,
            cells: Vec::new(alloc),
            rows: Vec::new(alloc),
            events: Vec::new(alloc),
            source: b"",
            fails: NO_FAILS,
            wants: b"",
            each: None,
            rooms: ROOMS,
            shows_tables: false,
            shows_calls: false,
        }
    }

    /// Takes a line that says what a run is made of: what its first word says, or an event, or an
    /// opening row.
    pub fn take(&mut self, text: &'a [u8]) -> Result<(), Unread> {
        let mut line = Line::over(text);
        match line.word() {
            b"words" => {
                self.words = line.rest();
                Ok(())
            }
            b"source" => {
                self.source = line.rest();
                Ok(())
            }
            b"room" => self.take_room(line),
            b"cell" => push(&mut self.cells, line.rest()),
            b"fails" => self.take_fails(line),
            b"wants" => self.take_wants(line),
            b"show" => self.take_show(line),
            _ => self.take_row(text),
        }
    }

    // An event begins with its moment.
    fn take_row(&mut self, text: &'a [u8]) -> Result<(), Unread> {
        if Line::over(text).moment().is_ok() {
            return push(&mut self.events, text);
        }
        push(&mut self.rows, text)
    }

    // `room link 20 400`, the items and their bytes, or `room sink 400`.
    fn take_room(&mut self, line: Line<'a>) -> Result<(), Unread> {
        let mut line = line;
        match read_part(line.word())? {
            Part::Link => {
                self.rooms.items = line.size()?;
                self.rooms.octets = line.size()?;
                Ok(())
            }
            Part::Sink => {
                self.rooms.sink = line.size()?;
                Ok(())
            }
            _ => Err(Unread::Words),
        }
    }

    // `fails link 1 2 3`, or `fails each link`.
    fn take_fails(&mut self, line: Line<'a>) -> Result<(), Unread> {
        let mut line = line;
        let word = line.word();
        if word == b"each".as_slice() {
            self.each = Some(read_part(line.word())?);
            return Ok(());
        }
        match read_part(word)? {
            Part::Link => self.fails.link = line.rest(),
            Part::Source => self.fails.source = line.rest(),
            Part::Sink => self.fails.sink = line.rest(),
            Part::Keeper => self.fails.keeper = line.rest(),
        }
        Ok(())
    }

    // `wants link 1 2`: an event, at whose taking memory is wanted.
    fn take_wants(&mut self, line: Line<'a>) -> Result<(), Unread> {
        let mut line = line;
        if read_part(line.word())? != Part::Link {
            return Err(Unread::Words);
        }
        self.wants = line.rest();
        Ok(())
    }

    // `show tables`, or `show calls`, those of the keeper.
    fn take_show(&mut self, line: Line<'a>) -> Result<(), Unread> {
        let mut line = line;
        match line.word() {
            b"tables" => {
                self.shows_tables = true;
                Ok(())
            }
            b"calls" => {
                self.shows_calls = true;
                Ok(())
            }
            _ => Err(Unread::Words),
        }
    }
}
