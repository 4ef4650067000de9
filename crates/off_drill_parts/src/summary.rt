ghost use Rattle.std.specs.Prelude.{◌≡◌, ◌≤◌, ◌+◌, ◌++◌, length, decimal};
ghost use Rattle.off_drill_rules.specs.Numbers.{summary};

use arrayvec::ArrayVec;
use itoa::Buffer;
use off_drill_rules::Tally;

/// Room for the six numbers and the words between them.
pub type Line = ArrayVec<u8, 192>;

/// The line of a drill that came to its end.
pub fn summary_line(count: u32, tally: Tally) -> Line
    ensures { result.items ≡ summary count tally }
{
    let mut line = ArrayVec::new();
    push_number(&mut line, b"drill ", u64::from(count));
    push_number(&mut line, b" offers ", tally.offers);
    push_number(&mut line, b" acks ", tally.acks);
    push_number(&mut line, b" files ", tally.files);
    push_number(&mut line, b" blocks ", tally.blocks);
    push_number(&mut line, b" octets ", tally.octets);
    let _end = line.try_extend_from_slice(b"\n");
    line
}

// Appends words and a number.
fn push_number(line: &mut Line, words: &[u8], number: u64)
    requires { length line.old.items + length words.now + 20 ≤ 191 }
    ensures text { line.new.items ≡ line.old.items ++ words.now ++ decimal number }
    ensures long { length line.new.items ≤ length line.old.items + length words.now + 20 }
{
    let mut buffer = Buffer::new();
    let digits = buffer.format(number);
    let _words = line.try_extend_from_slice(words);
    let _number = line.try_extend_from_slice(digits.as_bytes());
}
