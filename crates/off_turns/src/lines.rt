ghost use Rattle.std.specs.Prelude.{◌≡◌, ◌<◌, ◌≤◌, ◌++◌, ◌∷◌, [], length, decimal, codes};
ghost use Rattle.std.specs.Prelude.{MatchResult};
ghost use Rattle.off_book.specs.Step.{service_word};
ghost use Rattle.off_book.specs.Run.{line_text};
ghost use Rattle.off_turns.specs.Serving.{LineWritten, LineCut};

use arrayvec::ArrayVec;
use itoa::Buffer;
use off_outside::{Event, Failed, Service, Sink, What};

/// Writes the line of an event, if there is one. Where an item was lost the word is `link`.
pub fn write_line<W: Sink>(
    out: &mut W,
    number: u64,
    event: &Event,
    said: &[u8],
    all: bool,
) -> Result<(), Failed>
    requires { length said.now ≤ 80 }
    ensures { let text = line_text number event.now.what said.now all in
        MatchResult result (λ _. LineWritten said.now text (W.seen out.old) (W.seen out.new))
        (λ _. LineCut said.now text (W.seen out.old) (W.seen out.new)) }
{
    if said.is_empty() {
        return Ok(());
    }
    let line = if all {
        line_with(number, said)
    } else {
        line_with(number, link_words(&event.what))
    };
    out.write(line.as_slice())
}

// A line of the log: the number, at most 20 digits, a space, the words, a line feed.
fn line_with(number: u64, words: &[u8]) -> ArrayVec<u8, 102>
    requires { length words.now ≤ 80 }
    ensures { result.items ≡ decimal number ++ (32 ∷ words.now ++ 10 ∷ []) }
{
    let mut buffer = Buffer::new();
    let digits = buffer.format(number);
    let mut line = ArrayVec::new();
    let _number = line.try_extend_from_slice(digits.as_bytes());
    let _space = line.try_extend_from_slice(b" ");
    let _words = line.try_extend_from_slice(words);
    let _end = line.try_extend_from_slice(b"\n");
    line
}

// The words of an event of which an item was lost.
fn link_words(what: &What) -> &'static [u8]
    ensures words { result.now ≡ service_word what.now ++ codes " link" }
    ensures short { length result.now ≤ 80 }
{
    match what {
        What::Datagram {
            service,
            from: _,
            bytes: _,
        } => match service {
            Service::Dhcp => b"dhcp link",
            Service::Time => b"time link",
            Service::Tftp => b"tftp link",
        },
        What::Piece { conn: _, bytes: _ } => b"http link",
        What::Closed { conn: _ } => b"http link",
        What::Tick => b"tick link",
        What::End => b" link",
    }
}
