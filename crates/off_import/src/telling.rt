ghost use Rattle.std.specs.Prelude.{◌≡◌, ◌≤◌, ◌++◌, length, decimal, option_map};
ghost use Rattle.off_import_rules.specs.Faults.{fault_detail, fault_words};

use arrayvec::ArrayVec;
use itoa::Buffer;
use off_import_rules::ImportFault;

/// Room for a fault's word, a row and a column.
pub type FaultText = ArrayVec<u8, 64>;

/// Where an import is wrong, as a clerk is told: the row, or the row and the column.
pub fn fault_detail(fault: ImportFault) -> Option<FaultText>
    ensures { option_map (λ text. text.items) result ≡ fault_detail fault }
{
    match fault {
        ImportFault::Width(row) => Some(numbered(b"", row)),
        ImportFault::Field(row, column) => Some(pair(b"", row, b",", column)),
        _ => None,
    }
}

/// The fault as the command line tells it: its word, the row and the column.
pub fn fault_words(fault: ImportFault) -> FaultText
    ensures { result.items ≡ fault_words fault }
{
    match fault {
        ImportFault::Width(row) => numbered(b"width ", row),
        ImportFault::Field(row, column) => pair(b"field ", row, b" ", column),
        _ => plain(fault.word()),
    }
}

// A word alone.
fn plain(word: &[u8]) -> FaultText
    requires { length word.now ≤ 20 }
    ensures { result.items ≡ word.now }
{
    let mut text = ArrayVec::new();
    let _word = text.try_extend_from_slice(word);
    text
}

// A word, and a number behind it.
fn numbered(word: &[u8], number: u32) -> FaultText
    requires { length word.now ≤ 20 }
    ensures text { result.items ≡ word.now ++ decimal number }
    ensures short { length result.items ≤ 30 }
{
    let mut buffer = Buffer::new();
    let digits = buffer.format(number);
    let mut text = plain(word);
    let _number = text.try_extend_from_slice(digits.as_bytes());
    text
}

// A word, and two numbers behind it.
fn pair(word: &[u8], first: u32, between: &[u8], second: u32) -> FaultText
    requires word { length word.now ≤ 20 }
    requires between { length between.now ≤ 1 }
    ensures { result.items ≡ word.now ++ decimal first ++ between.now ++ decimal second }
{
    let mut buffer = Buffer::new();
    let digits = buffer.format(second);
    let mut text = numbered(word, first);
    let _between = text.try_extend_from_slice(between);
    let _second = text.try_extend_from_slice(digits.as_bytes());
    text
}
