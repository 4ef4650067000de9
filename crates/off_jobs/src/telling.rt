ghost use Rattle.std.specs.Prelude.{◌≡◌, ◌≤◌, ◌++◌, ◌∷◌, [], length, codes, decimal};
ghost use Rattle.off_jobs.specs.Text.{refused, read_fault_words, mic_fault_words};
ghost use Rattle.off_jobs.specs.Ending.{Tells, ending_of, memory_refused, undone_end, unread_end};

use crate::input::InputErr;
use arrayvec::ArrayVec;
use itoa::Buffer;
use off_mic::MicFault;
use off_outside::{Failed, KeepErr, Sink};
use off_tlv::ReadFault;

/// Room for `refused`, the word of a fault or of a rule, and a number.
pub type Line = ArrayVec<u8, 96>;

/// Writes a text, and answers its status, or 4 where the sink fails.
pub fn tell<W: Sink>(out: &mut W, text: &[u8], status: u8) -> u8
    ensures { Tells (ending_of status text.now) result (W.seen out.old) (W.seen out.new) }
{
    match out.write(text) {
        Ok(()) => status,
        Err(Failed) => 4,
    }
}

/// Tells why a source wasn't read to its end, and answers the status: `own` for too many bytes, 7
/// where the source failed, 6 where memory was refused, or 4 where the sink fails.
pub fn tell_unread<W: Sink>(err: InputErr, own: u8, out: &mut W) -> u8
    ensures { Tells (unread_end own err) result (W.seen out.old) (W.seen out.new) }
{
    match err {
        InputErr::TooLong => tell(out, b"refused too-long\n", own),
        InputErr::Failed => tell(out, b"source refused\n", 7),
        InputErr::Memory => tell_memory(out),
    }
}

/// Tells why the keeper didn't do what it was to do, and answers the status: 3 where it failed, 6
/// where memory was refused, or 4 where the sink fails.
pub fn tell_undone<W: Sink>(err: KeepErr, out: &mut W) -> u8
    ensures { Tells (undone_end err) result (W.seen out.old) (W.seen out.new) }
{
    match err {
        KeepErr::Failed => tell(out, b"keeper refused\n", 3),
        KeepErr::Memory => tell_memory(out),
    }
}

/// Tells that memory was refused, and answers the status: 6, or 4 where the sink fails.
pub fn tell_memory<W: Sink>(out: &mut W) -> u8
    ensures { Tells memory_refused result (W.seen out.old) (W.seen out.new) }
{
    tell(out, b"memory refused\n", 6)
}

/// The line for a file that the grammar refuses.
pub(crate) fn read_fault_line(fault: ReadFault) -> Line
    ensures { result.items ≡ refused (read_fault_words fault) }
{
    match fault {
        ReadFault::Cut(place) => numbered_line(b"cut ", place as u64),
        ReadFault::NoEnd => refused_line(b"no-end"),
        ReadFault::AfterEnd(place) => numbered_line(b"after-end ", place as u64),
        ReadFault::EarlyPad(place) => numbered_line(b"early-pad ", place as u64),
    }
}

/// The line for a file whose values can't be checked.
pub(crate) fn mic_fault_line(fault: MicFault) -> Line
    ensures { result.items ≡ refused (mic_fault_words fault) }
{
    match fault {
        MicFault::Read(fault) => read_fault_line(fault),
        MicFault::NoMic(code) => numbered_line(b"no-mic ", u64::from(code)),
        MicFault::TwiceMic(code) => numbered_line(b"twice-mic ", u64::from(code)),
        MicFault::MicLength(code) => numbered_line(b"mic-length ", u64::from(code)),
    }
}

/// The line of a refusal, by its words.
pub fn refused_line(words: &[u8]) -> Line
    requires { length words.now ≤ 64 }
    ensures { result.items ≡ refused words.now }
{
    let mut line = ArrayVec::new();
    let _refused = line.try_extend_from_slice(b"refused ");
    let _words = line.try_extend_from_slice(words);
    let _end = line.try_extend_from_slice(b"\n");
    line
}

/// The line of a refusal, by its words and a number behind them.
pub fn numbered_line(words: &[u8], number: u64) -> Line
    requires { length words.now ≤ 45 }
    ensures { result.items ≡ refused (words.now ++ decimal number) }
{
    let mut buffer = Buffer::new();
    let digits = buffer.format(number);
    let mut line = ArrayVec::new();
    let _refused = line.try_extend_from_slice(b"refused ");
    let _words = line.try_extend_from_slice(words);
    let _number = line.try_extend_from_slice(digits.as_bytes());
    let _end = line.try_extend_from_slice(b"\n");
    line
}
