ghost use Rattle.std.specs.Prelude.{◌≡◌, ◌≤◌, length};
ghost use Rattle.off_jobs.specs.Text.{refused};
ghost use Rattle.off_jobs.specs.Ending.{Tells};
ghost use Rattle.off_import_job.specs.Telling.{import_end, fault_end, refusal_end};
ghost use Rattle.off_import_job.specs.Telling.{broken_words, row_words, rows_line};

use crate::importing::Ended;
use arrayvec::ArrayVec;
use itoa::Buffer;
use off_accounts::AccountErr;
use off_clerk::fault_word;
use off_clerk_rules::Fault;
use off_import::{ImportErr, fault_words};
use off_jobs::{Line, numbered_line, refused_line, tell, tell_memory, tell_undone, tell_unread};
use off_office::stay_closed;
use off_orders::Rule;
use off_outside::{KeepErr, Sink};

/// Tells what became of an import, and answers the status, or 4 where the sink fails.
pub(crate) fn tell_end<W: Sink>(ended: Ended, out: &mut W) -> u8
    ensures { Tells (import_end ended) result (W.seen out.old) (W.seen out.new) }
{
    match ended {
        Ended::Closed(err) => stay_closed(err, out),
        Ended::Unread(err) => tell_unread(err, 9, out),
        Ended::NoImport(err) => tell_fault(err, out),
        Ended::NotDone(err) => tell_refusal(err, out),
        Ended::Done(rows) => tell(out, rows_line(rows).as_slice(), 0),
    }
}

// Tells why the bytes are no import.
fn tell_fault<W: Sink>(err: ImportErr, out: &mut W) -> u8
    ensures { Tells (fault_end err) result (W.seen out.old) (W.seen out.new) }
{
    match err {
        ImportErr::Fault(fault) => {
            let words = fault_words(fault);
            tell(out, refused_line(words.as_slice()).as_slice(), 9)
        }
        ImportErr::Memory => tell_memory(out),
    }
}

// Tells why an import wasn't done.
fn tell_refusal<W: Sink>(err: AccountErr, out: &mut W) -> u8
    ensures { Tells (refusal_end err) result (W.seen out.old) (W.seen out.new) }
{
    match err {
        AccountErr::Refused { row, rule } => tell(out, broken_line(row, rule).as_slice(), 9),
        AccountErr::Failed => tell_undone(KeepErr::Failed, out),
        AccountErr::Memory => tell_memory(out),
    }
}

// The line of a rule that refuses an import: which batch differs, or the row that breaks it.
fn broken_line(row: u32, rule: Rule) -> Line
    ensures { result.items ≡ refused (broken_words row rule) }
{
    match rule {
        Rule::BatchDiffers(batch) => numbered_line(b"batch-differs ", batch),
        _ => row_line(row, fault_word(&Fault::Rule { row, rule })),
    }
}

// The line of a rule's word, and of the row where there is one.
fn row_line(row: u32, word: &[u8]) -> Line
    requires { length word.now ≤ 40 }
    ensures { result.items ≡ refused (row_words row word.now) }
{
    if row == 0 {
        return refused_line(word);
    }
    let mut words: ArrayVec<u8, 64> = ArrayVec::new();
    let _word = words.try_extend_from_slice(word);
    let _row = words.try_extend_from_slice(b" row ");
    numbered_line(words.as_slice(), u64::from(row))
}

// How many rows an import has.
fn rows_line(rows: u32) -> Line
    ensures { result.items ≡ rows_line rows }
{
    let mut buffer = Buffer::new();
    let digits = buffer.format(rows);
    let mut line = ArrayVec::new();
    let _word = line.try_extend_from_slice(b"rows ");
    let _number = line.try_extend_from_slice(digits.as_bytes());
    let _end = line.try_extend_from_slice(b"\n");
    line
}
