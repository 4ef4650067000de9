ghost use Rattle.std.specs.Prelude.{◌≡◌, ◌≤◌, ◌+◌, ◌++◌, codes, length, OnOk, OnErr, Ok};
ghost use Rattle.std.specs.Prelude.{MatchResult};
ghost use Rattle.off_defs.specs.State.{Tables, says_nothing};
ghost use Rattle.off_dhcp.specs.Datagram.{message_of};
ghost use Rattle.off_lease_rules.specs.Steps.{lease_step};
ghost use Rattle.off_lease_rules.specs.Words.{unread};
ghost use Rattle.off_query_rules.specs.Asked.{query_of};
ghost use Rattle.off_book.specs.Dhcp.{dhcp_line, device_line, replies_of};
ghost use Rattle.off_outside.specs.KeeperCalls.{IsWritten, Looks, NotCommitted, Settled, Spent};
ghost use Rattle.off_behind.specs.Neighbours.{StandsIn, elsewhere};
ghost use Rattle.off_office.specs.Conditions.{Follows, KnowsDevices, Mirrors};
ghost use Rattle.off_lease.specs.Calls.{message_calls};
ghost use Rattle.off_office.specs.Acting.{Handled};
ghost use Rattle.off_office.specs.Asking.{DhcpAsks, ReadAsks, MessageAsks, commit_calls};
ghost use Rattle.off_office.specs.Leasing.{ServesDatagram, ServesMessage, ServesModem, DidStep};
ghost use Rattle.off_office.specs.Leasing.{DidDevice, FailsMessage};

use crate::commanding::commit_all;
use crate::office::Office;
use arrayvec::ArrayVec;
use off_asking::Asked;
use off_base::{Ip4, NoMemory, Peer};
use off_behind::read_olds;
use off_cpe::{DeviceAnswer, DeviceStep, DeviceWord, Known, answer_by};
use off_defs::{DeviceLease, Writes};
use off_dhcp::{DhcpFault, Message};
use off_lease::{DhcpWord, LeaseStep, answer};
use off_outside::{KeepErr, Keeper, Outcome, Replies, Sent, Service, What};
use off_query::query_or_message;

impl Office {
    // Takes a datagram to the DHCP port.
    pub(crate) fn take_message<K: Keeper>(
        &mut self,
        keeper: &mut K,
        from: Peer,
        bytes: &[u8],
        out: &mut Replies,
    ) -> Outcome
        requires { out.old ≡ says_nothing }
        ensures { Handled (What.Datagram Service.Dhcp from bytes.now) result out.new
            self.old self.new (K.seen keeper.old) (K.seen keeper.new) }
    {
        match self.serve_datagram(keeper, bytes, out) {
            Ok(()) => Outcome::Did,
            Err(err) => fail_message(err, out),
        }
    }

    // Answers a datagram that is a relay's query, and takes each other one as a client's message.
    fn serve_datagram<K: Keeper>(
        &mut self,
        keeper: &mut K,
        bytes: &[u8],
        out: &mut Replies,
    ) -> Result<(), KeepErr>
        requires { out.old ≡ says_nothing }
        ensures told { ServesDatagram (query_of bytes.now) result (message_of bytes.now)
            self.old self.new out.new (K.seen keeper.old) (K.seen keeper.new) }
        ensures same { OnErr result (self.new ≡ self.old) }
        ensures spent { DhcpAsks (query_of bytes.now) (message_of bytes.now)
            (K.seen keeper.old) (K.seen keeper.new) }
    {
        match query_or_message(bytes) {
            Ok(query) => self.serve_query(keeper, &query, out),
            Err(read) => self.take_read(keeper, read, out),
        }
    }

    // Does what a message asks, and says so; or says why a datagram is no message.
    fn take_read<K: Keeper>(
        &mut self,
        keeper: &mut K,
        read: Result<Message<'_>, DhcpFault>,
        out: &mut Replies,
    ) -> Result<(), KeepErr>
        requires { out.old ≡ says_nothing }
        ensures told { ServesMessage result read.entry self.old self.new out.new
            (K.seen keeper.old) (K.seen keeper.new) }
        ensures same { OnErr result (self.new ≡ self.old) }
        ensures spent { ReadAsks read.entry (K.seen keeper.old) (K.seen keeper.new) }
    {
        match read {
            Ok(m) => self.serve_message(keeper, &Asked::of(&m), out),
            Err(fault) => {
                out.set_line(line_of(word_of(fault)).as_slice());
                Ok(())
            }
        }
    }

    // Does what a message asks: the reply and the line are in hand before the one commit.
    fn serve_message<K: Keeper>(
        &mut self,
        keeper: &mut K,
        m: &Asked<'_>,
        out: &mut Replies,
    ) -> Result<(), KeepErr>
        requires { out.old ≡ says_nothing }
        ensures told { ServesMessage result (Ok m.now) self.old self.new out.new
            (K.seen keeper.old) (K.seen keeper.new) }
        ensures same { OnErr result (self.new ≡ self.old) }
        ensures spent { MessageAsks m.now (K.seen keeper.old) (K.seen keeper.new) }
    {
        let known = Known {
            devices: &self.devices,
            pools: &self.device_runs,
            modems: &self.runs,
        };
        match answer_by(self.alloc, keeper, &known, self.now, m) {
            Ok(Some(answer)) => self.carry_device(keeper, answer, out),
            Ok(None) => self.serve_modem(keeper, m, out),
            Err(err) => Err(err),
        }
    }

    // Does what a modem's message asks.
    fn serve_modem<K: Keeper>(
        &mut self,
        keeper: &mut K,
        m: &Asked<'_>,
        out: &mut Replies,
    ) -> Result<(), KeepErr>
        requires { out.old ≡ says_nothing }
        ensures told { ServesModem result m.now self.old self.new out.new
            (K.seen keeper.old) (K.seen keeper.new) }
        ensures same { OnErr result (self.new ≡ self.old) }
        ensures spent { Spent (message_calls m.now + 1) (K.seen keeper.old) (K.seen keeper.new) }
    {
        match self.decide_modem(keeper, m) {
            Ok(step) => self.carry_step(keeper, step, out),
            Err(err) => Err(err),
        }
    }

    // What a modem's message does, and nothing of it is done. The key of files' names isn't seen.
    fn decide_modem<K: Keeper>(
        &mut self,
        keeper: &mut K,
        m: &Asked<'_>,
    ) -> Result<LeaseStep, KeepErr>
        ensures told { Looks result (K.seen keeper.old) (K.seen keeper.new)
            (λ step t. Mirrors self.old t → step ≡ lease_step t self.old.held.now m.now) }
        ensures same { self.new ≡ self.old }
        ensures spent { Spent (message_calls m.now) (K.seen keeper.old) (K.seen keeper.new) }
    {
        answer(
            self.alloc,
            keeper,
            &self.runs,
            &mut self.name_key,
            self.now,
            m,
        )
    }

    // Puts in hand what a step of a device says, and then commits what it writes.
    fn carry_device<K: Keeper>(
        &mut self,
        keeper: &mut K,
        answer: DeviceAnswer,
        out: &mut Replies,
    ) -> Result<(), KeepErr>
        requires silent { out.old ≡ says_nothing }
        requires stands { (t : Tables) → KnowsDevices self.old.devices t → StandsIn answer.own t }
        ensures told { MatchResult result
            (λ _. DidDevice answer.step self.old self.new out.new
            (K.seen keeper.old) (K.seen keeper.new))
            (λ err. NotCommitted (IsWritten answer.step.writes) err
            (K.seen keeper.old) (K.seen keeper.new)) }
        ensures same { OnErr result (self.new ≡ self.old) }
        ensures spent { Spent (length (elsewhere answer.own answer.step.writes) + 1)
            (K.seen keeper.old) (K.seen keeper.new) }
    {
        let DeviceAnswer { step, own } = answer;
        let DeviceStep {
            writes,
            reply,
            word,
        } = step;
        say_device(reply, word, out)?;
        self.settle_device(keeper, &writes, own)
    }

    // Puts in hand what a step says, and then commits what it writes.
    fn carry_step<K: Keeper>(
        &mut self,
        keeper: &mut K,
        step: LeaseStep,
        out: &mut Replies,
    ) -> Result<(), KeepErr>
        requires { out.old ≡ says_nothing }
        ensures told { MatchResult result
            (λ _. DidStep step self.old self.new out.new (K.seen keeper.old) (K.seen keeper.new))
            (λ err. NotCommitted (IsWritten step.writes) err
            (K.seen keeper.old) (K.seen keeper.new)) }
        ensures same { OnErr result (self.new ≡ self.old) }
        ensures spent { Spent (commit_calls step.writes) (K.seen keeper.old) (K.seen keeper.new) }
    {
        let LeaseStep {
            writes,
            reply,
            word,
        } = step;
        say_step(reply, word, out)?;
        // A message changes no count of rows.
        let counts = self.counts;
        self.settle(keeper, &writes, &counts)
    }

    // Does what a device's message writes, as `settle` does, where the lease that the device had is
    // known. The leases that other addresses have are read first, so that what is kept of them is
    // found without a search.
    pub(crate) fn settle_device<K: Keeper>(
        &mut self,
        keeper: &mut K,
        writes: &Writes,
        known: Option<(Ip4, DeviceLease)>,
    ) -> Result<(), KeepErr>
        requires { (t : Tables) → KnowsDevices self.old.devices t → StandsIn known t }
        ensures told { MatchResult result
            (λ _. Settled writes.now (K.seen keeper.old) (K.seen keeper.new))
            (λ err. NotCommitted (IsWritten writes.now) err
            (K.seen keeper.old) (K.seen keeper.new)) }
        ensures ok { OnOk result (Follows (K.seen keeper.old).tables self.old self.new
            self.old.counts writes.now) }
        ensures err { OnErr result (self.new ≡ self.old) }
        ensures spent { Spent (length (elsewhere known writes.now) + 1)
            (K.seen keeper.old) (K.seen keeper.new) }
    {
        let olds = read_olds(self.alloc, keeper, writes, known)?;
        self.runs.ready(writes)?;
        let of_devices = self.device_runs.ready(self.alloc, writes)?;
        self.users.ready(writes)?;
        self.devices.ready(writes)?;
        commit_all(self.alloc, keeper, writes)?;
        self.kept.forget(writes);
        self.agreements.forget(writes);
        self.runs.apply(writes);
        self.device_runs.apply(&of_devices);
        self.users.apply(writes);
        self.devices.apply(writes, &olds);
        Ok(())
    }
}

// Says what a step says.
fn say_step(reply: Option<Sent>, word: DhcpWord, out: &mut Replies) -> Result<(), NoMemory>
    requires { out.old ≡ says_nothing }
    ensures { OnOk result (out.new
        ≡ record { items = replies_of reply; line = dhcp_line word }) }
{
    say_reply(reply, line_of(word).as_slice(), out)
}

// Says what a step of a device says.
fn say_device(reply: Option<Sent>, word: DeviceWord, out: &mut Replies) -> Result<(), NoMemory>
    requires { out.old ≡ says_nothing }
    ensures { OnOk result (out.new
        ≡ record { items = replies_of reply; line = device_line word }) }
{
    say_reply(reply, line_with(word.text()).as_slice(), out)
}

// Says a reply, where there is one, and the line.
pub(crate) fn say_reply(reply: Option<Sent>, line: &[u8], out: &mut Replies) -> Result<(), NoMemory>
    requires silent { out.old ≡ says_nothing }
    requires short { length line.now ≤ 80 }
    ensures { OnOk result (out.new ≡ record { items = replies_of reply; line = line.now }) }
{
    if let Some(reply) = reply {
        out.push(reply)?;
    }
    out.set_line(line);
    Ok(())
}

// Says that a message couldn't be acted on, and nothing else.
fn fail_message(err: KeepErr, out: &mut Replies) -> Outcome
    ensures { FailsMessage err result out.new }
{
    out.clear();
    match err {
        KeepErr::Memory => {
            out.set_line(b"dhcp memory");
            Outcome::Memory
        }
        KeepErr::Failed => {
            out.set_line(b"dhcp keeper");
            Outcome::Keeper
        }
    }
}

// Why a datagram is no message, as the log has it.
fn word_of(fault: DhcpFault) -> DhcpWord
    ensures { result ≡ unread fault }
{
    match fault {
        DhcpFault::Short => DhcpWord::Short,
        DhcpFault::Long => DhcpWord::Long,
        DhcpFault::NotRequest => DhcpWord::NotRequest,
        DhcpFault::Hardware => DhcpWord::Hardware,
        DhcpFault::Cookie => DhcpWord::Cookie,
        DhcpFault::OptionCut(_place) => DhcpWord::OptionCut,
        DhcpFault::NoType => DhcpWord::NoType,
        DhcpFault::Overload => DhcpWord::Overload,
    }
}

// The line of a message.
fn line_of(word: DhcpWord) -> ArrayVec<u8, 80>
    ensures { result.items ≡ dhcp_line word }
{
    line_with(word.text())
}

// The line of the log: the service and the word.
pub(crate) fn line_with(word: &[u8]) -> ArrayVec<u8, 80>
    requires { length word.now ≤ 16 }
    ensures { result.items ≡ codes "dhcp " ++ word.now }
{
    let mut line = ArrayVec::new();
    let _service = line.try_extend_from_slice(b"dhcp ");
    let _word = line.try_extend_from_slice(word);
    line
}
