use crate::line::Unread;
use crate::page::Page;
use std::alloc::Global;

/// What answers questions.
pub trait Answers {
    /// Prints the answer to a question.
    fn answer(&self, alloc: Global, page: &mut Page, text: &[u8]) -> Result<(), Unread>;
}

// Prints a line of the script, and its answer where it is a question.
fn take<A: Answers>(
    answers: &A,
    alloc: Global,
    page: &mut Page,
    text: &[u8],
) -> Result<(), Unread> {
    if text.starts_with(b"#") {
        return Ok(());
    }
    page.raw(text)?;
    page.end_line()?;
    if text.is_empty() || text.starts_with(b"section") {
        return Ok(());
    }
    answers.answer(alloc, page, text)?;
    Ok(page.end_line()?)
}

/// Prints the lines of a script, and behind each question its answer.
pub fn answer_all<A: Answers>(
    alloc: Global,
    answers: &A,
    page: &mut Page,
    lines: &[u8],
) -> Result<(), Unread> {
    for line in lines
        .strip_suffix(b"\n")
        .unwrap_or(lines)
        .split(|byte| *byte == b'\n')
    {
        take(answers, alloc, page, line)?;
    }
    Ok(())
}
