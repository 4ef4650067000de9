use crate::line::{Line, Unread};
use crate::page::Page;
use off_base::{Bytes, NoMemory, Setting, Settings, read_number};
use std::alloc::Global;
use std::mem;

// A group that was begun: its code, and the settings before it.
#[derive(Drop)]
struct Outer {
    code: u8,
    before: Settings,
}

// Settings as they are read: those of the innermost group that was begun, and the groups around it.
#[derive(Drop)]
struct Reading {
    here: Settings,
    around: Vec<Outer>,
}

fn code(digits: &[u8]) -> Result<u8, Unread> {
    let number = read_number(digits, 255).ok_or(Unread::Words)?;
    Ok(u8::try_from(number).unwrap_or(u8::MAX))
}

impl Reading {
    fn begin(&mut self, alloc: Global, code: u8) -> Result<(), Unread> {
        let before = mem::replace(&mut self.here, Settings::new(alloc));
        match self.around.push(Outer { code, before }) {
            Ok(()) => Ok(()),
            Err(_refused) => Err(Unread::Memory),
        }
    }

    fn end(&mut self) -> Result<(), Unread> {
        let Some(Outer { code, before }) = self.around.pop() else {
            return Err(Unread::Words);
        };
        let parts = mem::replace(&mut self.here, before);
        self.here.push(Setting::Group { code, parts })?;
        Ok(())
    }

    fn leaf(&mut self, alloc: Global, word: &[u8]) -> Result<(), Unread> {
        let place = word.iter().position(|byte| *byte == b'=');
        let place = place.ok_or(Unread::Words)?;
        let mut value = Bytes::new(alloc);
        Line::over(word.get(place.saturating_add(1)..).unwrap_or(b"")).hex(alloc, &mut value)?;
        let code = code(word.get(..place).unwrap_or(b""))?;
        self.here.push(Setting::Leaf { code, value })?;
        Ok(())
    }

    fn take(&mut self, alloc: Global, word: &[u8]) -> Result<(), Unread> {
        if word == b"}".as_slice() {
            return self.end();
        }
        if let Some(digits) = word.strip_suffix(b"{") {
            return self.begin(alloc, code(digits)?);
        }
        self.leaf(alloc, word)
    }
}

/// Reads settings to the end of the line: `3=01` is a leaf, and between `24{` and `}` stand the
/// parts of a group.
pub fn read_settings_of(alloc: Global, line: &mut Line<'_>) -> Result<Settings, Unread> {
    let mut reading = Reading {
        here: Settings::new(alloc),
        around: Vec::new(alloc),
    };
    for _ in 0..line.rest().len() {
        if line.rest().is_empty() {
            break;
        }
        reading.take(alloc, line.word())?;
    }
    let Reading { here, around } = reading;
    if around.is_empty() {
        Ok(here)
    } else {
        Err(Unread::Words)
    }
}

/// Prints settings as they are read, with a space before each.
#[cycle(show)]
pub fn show_settings(page: &mut Page, settings: &Settings) -> Result<(), NoMemory> {
    for place in 0..settings.len() {
        show_setting(page, settings.get(place))?;
    }
    Ok(())
}

#[cycle(show)]
fn show_setting(page: &mut Page, setting: &Setting) -> Result<(), NoMemory> {
    match setting {
        Setting::Leaf { code, value } => {
            page.text(" ")?;
            page.number(u64::from(*code))?;
            page.text("=")?;
            page.hex(value.as_slice())
        }
        Setting::Group { code, parts } => {
            page.text(" ")?;
            page.number(u64::from(*code))?;
            page.text("{")?;
            show_settings(page, parts)?;
            page.text(" }")
        }
    }
}
