use off_base::{NoMemory, Settings};
use off_tree::{Path, TreeFault, check_addon, check_class};
use script_words::{Line, Page, Unread, read_settings_of};
use std::alloc::Global;

/// `class 24{ 1=0001 6=07 }`: `good`, or the first fault of a class's settings.
pub fn class(alloc: Global, page: &mut Page, line: Line<'_>) -> Result<(), Unread> {
    let mut line = line;
    let settings = read_settings_of(alloc, &mut line)?;
    show_check(page, check_class(&settings))
}

/// `add-on 24{ 1=0001 6=07 }`: `good`, or the first fault of an add-on's settings.
pub fn add_on(alloc: Global, page: &mut Page, line: Line<'_>) -> Result<(), Unread> {
    let mut line = line;
    let settings = read_settings_of(alloc, &mut line)?;
    show_check(page, check_addon(&settings))
}

// The most bytes of a value that `fit` tries.
const MOST_LENGTH: u8 = 17;

// The letter of a check: `+` is good, and a fault is told by its first letter.
fn letter(checked: Result<(), TreeFault>) -> &'static str {
    match checked {
        Ok(()) => "+",
        Err(TreeFault::UnknownCode(_)) => "u",
        Err(TreeFault::Length(_)) => "l",
        Err(TreeFault::Range(_)) => "r",
        Err(TreeFault::Missing(_)) => "m",
        Err(TreeFault::Twice(_)) => "t",
        Err(_) => "?",
    }
}

// Appends a leaf of so many bytes 1; a name, code 4, ends in a byte 0.
fn push_leaf(page: &mut Page, code: u8, length: u8) -> Result<(), NoMemory> {
    page.number(u64::from(code))?;
    page.text("=")?;
    for left in (0..length).rev() {
        page.text(if code == 4 && left == 0 { "00" } else { "01" })?;
    }
    page.text(if length == 0 { "-" } else { "" })
}

// Settings in which the leaf stands for `?`.
fn with_leaf(alloc: Global, text: &[u8], code: u8, length: u8) -> Result<Settings, Unread> {
    let mut page = Page::new(alloc);
    for byte in text {
        if *byte == b'?' {
            push_leaf(&mut page, code, length)?;
        } else {
            page.raw(&[*byte])?;
        }
    }
    read_settings_of(alloc, &mut Line::over(page.as_slice()))
}

/// `fit class 7 24{ 1=0001 6=07 ? } ..`: a letter for each length of a leaf of the code in the
/// place of `?`, from 0 to 17: `+` good, `u` unknown-code, `l` length, `r` range, `m` missing, `t`
/// twice.
pub fn fit(alloc: Global, page: &mut Page, line: Line<'_>) -> Result<(), Unread> {
    let mut line = line;
    let is_class = line.word().starts_with(b"class");
    let code = line.byte()?;
    for length in 0..=MOST_LENGTH {
        let settings = with_leaf(alloc, line.rest(), code, length)?;
        page.text(letter(if is_class {
            check_class(&settings)
        } else {
            check_addon(&settings)
        }))?;
    }
    Ok(())
}

fn show_check(page: &mut Page, checked: Result<(), TreeFault>) -> Result<(), Unread> {
    match checked {
        Ok(()) => Ok(page.text("good")?),
        Err(fault) => Ok(show_fault(page, fault)?),
    }
}

fn show_fault(page: &mut Page, fault: TreeFault) -> Result<(), NoMemory> {
    match fault {
        TreeFault::UnknownCode(path) => placed(page, "unknown-code ", path),
        TreeFault::Length(path) => placed(page, "length ", path),
        TreeFault::Range(path) => placed(page, "range ", path),
        TreeFault::Missing(path) => placed(page, "missing ", path),
        TreeFault::Twice(path) => placed(page, "twice ", path),
        TreeFault::FlowReference(number) => numbered(page, "flow-reference ", u64::from(number)),
        TreeFault::ClassifierReference(number) => {
            numbered(page, "classifier-reference ", u64::from(number))
        }
        TreeFault::TooLong(number) => numbered(page, "too-long ", u64::from(number)),
    }
}

fn numbered(page: &mut Page, word: &str, number: u64) -> Result<(), NoMemory> {
    page.text(word)?;
    page.number(number)
}

// The codes of a path between points.
fn placed(page: &mut Page, word: &str, path: Path) -> Result<(), NoMemory> {
    numbered(page, word, u64::from(path.a))?;
    if path.depth > 1 {
        numbered(page, ".", u64::from(path.b))?;
    }
    if path.depth > 2 {
        numbered(page, ".", u64::from(path.c))?;
    }
    Ok(())
}
