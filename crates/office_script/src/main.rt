//! Plays examples that are data, from the script on standard input. A line `over NAME ..` begins a
//! part of it.
//!
//! Over a keeper each section is served by `off_serve::run` over objects in memory, and what comes
//! of it is printed. The names say what keeps the tables of its runs:
//! `memory`; `cells` in memory, where calls can be made to fail; a table of a `database` in memory;
//! a `journal` on a disk in memory. What comes of a part over the first keeper is printed, and what
//! comes of it over another where that is something else. Over `crashes`, a journal on a disk whose
//! calls fail, each image that a crash may leave is opened behind each commit: nothing is printed
//! where each has what was committed. The lines before the first part are shared by all of these.
//!
//! Over `formats` or `clerks` each line is a question, and its answer is printed behind it.
//!
//! `tests/examples/README.md` says how a script is written. The text that is expected is the file
//! `stdout`, which comes from worked examples, public vectors and `tests/examples/office.py`, and
//! never from this program.
#![tactic(auto)]

mod counted;
mod crashes;
mod script;
mod watched;

use crate::counted::{InCells, InDatabase, InJournal};
use crate::script::{Part, is_whole, parts_of};
use crate::watched::InWatched;
use clerk_questions::Clerks;
use format_questions::Formats;
use off_keepmem::MemKeeper;
use office_stage::{Kept, Stage};
use script_words::{Page, Unread, answer_all};
use std::alloc::Global;
use std::io;
use std::io::{Read, Write};
use std::process::ExitCode;

// Plays lines, and takes over what they print. A line that can't be read stands at the end.
fn play<'a, K: Kept + Drop>(
    alloc: Global,
    stage: &mut Stage<'a, K>,
    page: &mut Page,
    lines: &'a [u8],
) -> Result<(), Unread> {
    for line in lines.split(|byte| *byte == b'\n') {
        let taken = stage.take(alloc, line);
        page.raw(stage.printed())?;
        stage.turn_page(alloc);
        if taken.is_err() {
            page.raw(line)?;
            return Ok(());
        }
    }
    Ok(())
}

// What comes of a part over one keeper.
fn played<K: Kept + Drop>(alloc: Global, part: &Part<'_>) -> Result<Page, Unread> {
    let mut stage: Stage<'_, K> = Stage::new(alloc)?;
    let mut page = Page::new(alloc);
    play(alloc, &mut stage, &mut page, part.shared)?;
    play(alloc, &mut stage, &mut page, part.lines)?;
    Ok(page)
}

// What comes of a part over the keeper of a name.
fn played_over(alloc: Global, keeper: &[u8], part: &Part<'_>) -> Result<Page, Unread> {
    match keeper {
        b"memory" => played::<MemKeeper>(alloc, part),
        b"cells" => played::<InCells>(alloc, part),
        b"database" => played::<InDatabase>(alloc, part),
        b"journal" => played::<InJournal>(alloc, part),
        b"crashes" => played::<InWatched>(alloc, part),
        _ => Err(Unread::Words),
    }
}

// Prints what comes of a part over another keeper, where it isn't what has to come of it.
fn compare(
    alloc: Global,
    page: &mut Page,
    keeper: &[u8],
    part: &Part<'_>,
    expected: &Page,
) -> Result<(), Unread> {
    let found = played_over(alloc, keeper, part)?;
    let is_right = if keeper == b"crashes".as_slice() {
        is_whole(found.as_slice())
    } else {
        found.as_slice() == expected.as_slice()
    };
    if !is_right {
        page.text("over ")?;
        page.raw(keeper)?;
        page.end_line()?;
        page.raw(found.as_slice())?;
    }
    Ok(())
}

// Prints what comes of a part's runs over each of its keepers.
fn show_runs(alloc: Global, page: &mut Page, part: &Part<'_>) -> Result<(), Unread> {
    let mut keepers = part.over.split(|byte| *byte == b' ');
    let Some(first) = keepers.next() else {
        return Err(Unread::Words);
    };
    let expected = played_over(alloc, first, part)?;
    page.raw(expected.as_slice())?;
    for keeper in keepers {
        compare(alloc, page, keeper, part, &expected)?;
    }
    Ok(())
}

fn show_part(alloc: Global, page: &mut Page, part: &Part<'_>) -> Result<(), Unread> {
    match part.over {
        b"formats" => answer_all(alloc, &Formats, page, part.lines),
        b"clerks" => answer_all(alloc, &Clerks, page, part.lines),
        _ => show_runs(alloc, page, part),
    }
}

// Prints what comes of all parts, which stand behind the lines that they share.
fn show(alloc: Global, page: &mut Page, script: &[u8]) -> Result<(), Unread> {
    let (shared, parts) = parts_of(script)?;
    let mut rest = parts;
    for _ in 0..script.len() {
        let (part, others) = Part::first_of(shared, rest)?;
        show_part(alloc, page, &part)?;
        match others {
            Some(parts) => rest = parts,
            None => return Ok(()),
        }
    }
    Ok(())
}

fn main(rt: HostRuntime) -> ExitCode {
    let mut script = Vec::new(rt.alloc());
    if rt.reader().read_to_end(&mut script).is_err() {
        return ExitCode::from(2);
    }
    let mut page = Page::new(rt.alloc());
    let shown = show(rt.alloc(), &mut page, script.as_slice());
    let printed = io::writer(&rt).write_all(page.as_slice());
    ExitCode::from(u8::from(shown.is_err() || printed.is_err()))
}
