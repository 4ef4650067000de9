ghost use Rattle.std.specs.Prelude.{◌≡◌, ◌++◌, codes, decimal, OnOk, OnErr, MatchResult};
ghost use Rattle.off_defs.specs.State.{says_nothing};
ghost use Rattle.off_transfer_rules.specs.Words.{tftp_line};
ghost use Rattle.off_transfer_rules.specs.declared.words.TftpWord.TheVariants as word;
ghost use Rattle.off_outside.specs.KeeperCalls.{Looks, Spent};
ghost use Rattle.off_outside.specs.declared.keeper.KeepErr.TheVariants.{Memory};
ghost use Rattle.off_book.specs.Tftp.{tick_said};
ghost use Rattle.off_tftp.specs.Calls.{datagram_calls};
ghost use Rattle.off_tftp.specs.Deciding.{CanBe, items_of};
ghost use Rattle.off_tftp.specs.Ticking.{says_items};
ghost use Rattle.off_office.specs.Acting.{Handled};
ghost use Rattle.off_office.specs.Asking.{FewCalls};
ghost use Rattle.off_office.specs.Conditions.{Mirrors};
ghost use Rattle.off_office.specs.Transferring.{MovesTransfers, DidPacket, SaysPacket};
ghost use Rattle.off_office.specs.Transferring.{CarriesPacket, FailsPacket, TakesTick};

use crate::office::Office;
use arrayvec::ArrayVec;
use itoa::Buffer;
use off_base::{NoMemory, Peer};
use off_outside::{KeepErr, Keeper, Outcome, Replies, Sent, Service, What};
use off_tftp::{Datagram, Decision, TickDone};
use off_transfer_rules::{TftpWord, Ticked};

impl Office {
    // Takes a datagram to the TFTP port.
    pub(crate) fn take_packet<K: Keeper>(
        &mut self,
        keeper: &mut K,
        from: Peer,
        bytes: &[u8],
        out: &mut Replies,
    ) -> Outcome
        requires { out.old ≡ says_nothing }
        ensures { Handled (What.Datagram Service.Tftp from bytes.now) result out.new
            self.old self.new (K.seen keeper.old) (K.seen keeper.new) }
    {
        match self.serve_packet(keeper, from, bytes, out) {
            Ok(()) => Outcome::Did,
            Err(err) => fail_packet(err, out),
        }
    }

    // Does what a datagram asks of the transfers, and says so.
    fn serve_packet<K: Keeper>(
        &mut self,
        keeper: &mut K,
        from: Peer,
        bytes: &[u8],
        out: &mut Replies,
    ) -> Result<(), KeepErr>
        requires { out.old ≡ says_nothing }
        ensures told { Looks result (K.seen keeper.old) (K.seen keeper.new)
            (λ _ t. Mirrors self.old t
            → DidPacket from bytes.now self.old self.new out.new t) }
        ensures moves { MovesTransfers self.old self.new }
        ensures says { OnOk result (SaysPacket out.new) }
        ensures kept { OnErr result (self.new ≡ self.old) }
        ensures spent { Spent (datagram_calls self.old.held.transfers from bytes.now)
            (K.seen keeper.old) (K.seen keeper.new) }
        ensures few { FewCalls from bytes.now self.old self.new
            (K.seen keeper.old) (K.seen keeper.new) }
    {
        let datagram = Datagram {
            from,
            hub: self.runs.hub_around(from.ip),
            at: self.now,
            bytes,
        };
        match self.transfers.on_datagram(
            self.alloc,
            keeper,
            &self.kept,
            &self.agreements,
            &datagram,
        ) {
            Ok(decision) => self.carry_packet(from, decision, out),
            Err(err) => Err(err),
        }
    }

    // Says what was decided of a datagram, and makes its change.
    fn carry_packet(
        &mut self,
        from: Peer,
        decision: Decision,
        out: &mut Replies,
    ) -> Result<(), KeepErr>
        requires silent { out.old ≡ says_nothing }
        requires able { CanBe decision.change self.old.held.transfers from }
        ensures carried { MatchResult result
            (λ _. CarriesPacket from decision self.old self.new out.new)
            (λ err. (err ≡ Memory) × (self.new ≡ self.old)) }
    {
        let Decision {
            word,
            sent,
            change,
            agreed,
        } = decision;
        say_packet(sent, word, out)?;
        self.transfers
            .carry_out(&mut self.kept, self.now, from, change)?;
        self.agreements.put_seen(agreed);
        Ok(())
    }

    // Takes a Tick.
    pub(crate) fn take_tick(&mut self, out: &mut Replies) -> Outcome
        requires { out.old ≡ says_nothing }
        ensures { TakesTick result self.old self.new out.new }
    {
        match self.transfers.on_tick(self.alloc, self.now) {
            Ok(done) => {
                say_tick(done, out);
                Outcome::Did
            }
            Err(NoMemory) => {
                out.set_line(b"tick memory");
                Outcome::Memory
            }
        }
    }
}

// Says that a datagram couldn't be acted on, and nothing else.
fn fail_packet(err: KeepErr, out: &mut Replies) -> Outcome
    ensures { FailsPacket err result out.new }
{
    out.clear();
    match err {
        KeepErr::Memory => {
            out.set_line(b"tftp memory");
            Outcome::Memory
        }
        KeepErr::Failed => {
            out.set_line(b"tftp keeper");
            Outcome::Keeper
        }
    }
}

// Says what was decided of a datagram.
fn say_packet(sent: Option<Sent>, word: TftpWord, out: &mut Replies) -> Result<(), NoMemory>
    requires { out.old ≡ says_nothing }
    ensures { OnOk result (out.new ≡ record { items = items_of sent; line = tftp_line word }) }
{
    if let Some(packet) = sent {
        out.push(packet)?;
    }
    say_word(word, out);
    Ok(())
}

// Sets the line: the service and the word.
fn say_word(word: TftpWord, out: &mut Replies)
    ensures { out.new ≡ record out.old { line = tftp_line word } }
{
    match word {
        TftpWord::Form => out.set_line(b"tftp form"),
        TftpWord::Write => out.set_line(b"tftp write"),
        TftpWord::Mode => out.set_line(b"tftp mode"),
        TftpWord::Again => out.set_line(b"tftp again"),
        TftpWord::NoLease => out.set_line(b"tftp no-lease"),
        TftpWord::Agreement => out.set_line(b"tftp agreement"),
        TftpWord::Name => out.set_line(b"tftp name"),
        TftpWord::Full => out.set_line(b"tftp full"),
        TftpWord::Oack => out.set_line(b"tftp oack"),
        TftpWord::Block(number) => out.set_line(block_line(number).as_slice()),
        TftpWord::Unknown => out.set_line(b"tftp unknown"),
        TftpWord::StaleAck => out.set_line(b"tftp stale-ack"),
        TftpWord::Done => out.set_line(b"tftp done"),
        TftpWord::PeerError => out.set_line(b"tftp peer-error"),
    }
}

// The line of a block that was sent.
fn block_line(number: u16) -> ArrayVec<u8, 80>
    ensures { result.items ≡ tftp_line (word.Block number) }
{
    let mut buffer = Buffer::new();
    let digits = buffer.format(number);
    let mut line = ArrayVec::new();
    let _word = line.try_extend_from_slice(b"tftp block ");
    let _number = line.try_extend_from_slice(digits.as_bytes());
    line
}

// Says what a Tick did. One that did nothing has no line.
fn say_tick(done: TickDone, out: &mut Replies)
    requires { done.packets ≡ says_items done.packets.items }
    ensures { out.new ≡ tick_said done.packets.items done.ticked }
{
    let TickDone { packets, ticked } = done;
    *out = packets;
    if ticked.again == 0 && ticked.closed == 0 {
        return;
    }
    out.set_line(ticked_line(ticked).as_slice());
}

// The line of a Tick that did something.
fn ticked_line(ticked: Ticked) -> ArrayVec<u8, 80>
    ensures { result.items ≡ codes "tick again " ++ decimal ticked.again
        ++ codes " closed " ++ decimal ticked.closed }
{
    let mut line = ArrayVec::new();
    let _again = line.try_extend_from_slice(b"tick again ");
    let _sent = line.try_extend_from_slice(Buffer::new().format(ticked.again).as_bytes());
    let _and = line.try_extend_from_slice(b" closed ");
    let _ended = line.try_extend_from_slice(Buffer::new().format(ticked.closed).as_bytes());
    line
}
