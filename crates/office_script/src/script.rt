use script_words::Unread;

/// A part of a script.
#[derive(Clone, Copy)]
pub struct Part<'a> {
    /// The lines that it shares with the other parts over keepers.
    pub shared: &'a [u8],
    /// What its first line names: keepers, a space between two, or what its questions are on.
    pub over: &'a [u8],
    /// Its own lines.
    pub lines: &'a [u8],
}

// What begins a part, behind the end of the line before it.
const OVER: &[u8] = b"\nover ";

// What the office's stage prints where a crash leaves other tables than those that were committed.
const LOST: &[u8] = b"a crash would leave other rows\n";

impl<'a> Part<'a> {
    /// The first part of those that begin with what they are over, and the others.
    pub fn first_of(
        shared: &'a [u8],
        parts: &'a [u8],
    ) -> Result<(Part<'a>, Option<&'a [u8]>), Unread> {
        let Some((over, rest)) = split_at(parts, b"\n") else {
            return Err(Unread::Words);
        };
        let (lines, others) = match split_at(rest, OVER) {
            Some((lines, others)) => (lines, Some(others)),
            None => (rest, None),
        };
        Ok((
            Part {
                shared,
                over,
                lines,
            },
            others,
        ))
    }
}

/// The lines that all parts share, and the parts.
pub fn parts_of(script: &[u8]) -> Result<(&[u8], &[u8]), Unread> {
    split_at(script, OVER).ok_or(Unread::Words)
}

/// Whether all lines could be read, and no crash leaves other tables. A line that can't be read
/// stands at the end, without a line end.
pub fn is_whole(printed: &[u8]) -> bool {
    printed.ends_with(b"\n") && place_of(printed, LOST).is_none()
}

// Where a mark begins, if it is there.
fn place_of(text: &[u8], mark: &[u8]) -> Option<usize> {
    for at in 0..text.len() {
        if text[at..].starts_with(mark) {
            return Some(at);
        }
    }
    None
}

// What stands before a mark and behind it, if it is there.
fn split_at<'a>(text: &'a [u8], mark: &[u8]) -> Option<(&'a [u8], &'a [u8])> {
    let at = place_of(text, mark)?;
    let before = text.get(..at)?;
    let behind = text.get(at.checked_add(mark.len())?..)?;
    Some((before, behind))
}
