//! What a modem's datagram does.

ghost use Rattle.std.specs.Prelude.{◌≡◌, ◌≤◌, Ok, true, false, is_ok, IfOk, IfSome};
ghost use Rattle.std.specs.Prelude.{OnOk, OnErr, MatchResult};
ghost use Rattle.std.specs.FinMap as map;
ghost use Rattle.off_packets.specs.Packets.{Reads, packet_of};
ghost use Rattle.off_transfer_rules.specs.Steps.{way_of_request, way_of_last};
ghost use Rattle.off_transfer_rules.specs.Steps.{way_of_acknowledgement};
ghost use Rattle.off_transfer_rules.specs.Transfers.{has_no_room, is_at_last};
ghost use Rattle.off_account_rules.specs.Rows.{hub_of};
ghost use Rattle.off_kept.specs.Right.{AllRight};
ghost use Rattle.off_outside.specs.declared.keeper.KeepErr.TheVariants.{Memory};
ghost use Rattle.off_outside.specs.KeeperCalls.{Looks, Spent};
ghost use Rattle.off_tftp.specs.Granted.{as_came, came_in, asked_in};
ghost use Rattle.off_tftp.specs.Agreements.{AllAgreed, RemembersRight};
ghost use Rattle.off_tftp.specs.Calls.{datagram_calls, reading_calls, acknowledgement_calls};
ghost use Rattle.off_tftp.specs.Calls.{agrees_with, UnaskedWhereAgreed};
ghost use Rattle.off_tftp.specs.Calls.{FewWhereUnnamed, FewUnlessNamed, FewUnlessNamedAt};
ghost use Rattle.off_tftp.specs.Keeping.{FewWhereKept, FewWhereBegun};
ghost use Rattle.off_tftp.specs.Places.{IsPlaceOf};
ghost use Rattle.off_tftp.specs.Seen.{view_at};
ghost use Rattle.off_tftp.specs.Deciding.{Does, Serves, Judges, Answers, CanBe, KeepsNothing};
ghost use Rattle.off_tftp.specs.Deciding.{SeesRight, SeesBegun, Remembers, goes_on};
ghost use Rattle.off_tftp.specs.Deciding.{after_change, kept_behind};

use crate::acknowledging::Stage;
use crate::agreements::Agreements;
use crate::deciding::{Change, Decision, Refusal, refuse};
use crate::gathering::{look, look_for_file};
use crate::requests::{Datagram, Request};
use crate::transfers::{Place, Transfers};
use off_base::{Moment, NoMemory, Peer};
use off_kept::Kept;
use off_outside::{KeepErr, Keeper};
use off_packets::{Packet, PacketFault, read_packet};
use off_transfer_rules::TftpWord;
use std::alloc::Global;

impl Transfers {
    /// What a peer's datagram comes to: the word with which the log has it, the packet that goes
    /// back, if any, and the change that `carry_out` makes. Nothing is said or done yet.
    ///
    /// The tables needn't be good: an impossible row is taken as one that isn't there. The bodies
    /// in `kept` and what is remembered in `agreements` are to be right by them, and are so again
    /// behind the change. The rows of which a body is made are read only where it isn't kept, and
    /// an acknowledgement reads none where it's remembered that the tables agree.
    ///
    /// `Failed` comes only where the keeper counted a fault.
    #[tactic(auto, using(crate::proofs::BodyLemmas::askings))]
    pub fn on_datagram<K: Keeper>(
        &self,
        alloc: Global,
        keeper: &mut K,
        kept: &Kept,
        agreements: &Agreements,
        datagram: &Datagram<'_>,
    ) -> Result<Decision, KeepErr>
        ensures told { Looks result (K.seen keeper.old) (K.seen keeper.new)
            (λ d t. datagram.now.hub ≡ hub_of t datagram.now.from.ip → AllRight t kept.now
            → AllAgreed t agreements.now
            → Answers t datagram.now self.now kept.now agreements.now d) }
        ensures able { IfOk result (λ d. CanBe d.change self.now datagram.now.from) }
        ensures spent { Spent (datagram_calls self.now datagram.now.from datagram.now.bytes.now)
            (K.seen keeper.old) (K.seen keeper.new) }
        ensures few { FewWhereKept datagram.now.from.ip kept.now
            (K.seen keeper.old) (K.seen keeper.new) }
        ensures few_unnamed { FewUnlessNamed datagram.now.at.0 datagram.now.hub
            datagram.now.from.ip datagram.now.bytes.now
            (K.seen keeper.old) (K.seen keeper.new) }
        ensures few_before { FewWhereBegun datagram.now.from datagram.now.bytes.now self.now
            kept.now (K.seen keeper.old) (K.seen keeper.new) }
        ensures few_begun { IfOk result (λ d. FewWhereBegun datagram.now.from
            datagram.now.bytes.now
            (after_change d.change datagram.now.at.0 self.now datagram.now.from) kept.now
            (K.seen keeper.old) (K.seen keeper.new)) }
        ensures unasked { UnaskedWhereAgreed datagram.now.at.0 datagram.now.from
            datagram.now.bytes.now self.now agreements.now
            (K.seen keeper.old) (K.seen keeper.new) }
        ensures remembers { IfOk result (Remembers datagram.now.at.0 datagram.now.from
            (map.get self.now datagram.now.from) agreements.now) }
        ensures sees_begun { IfOk result (SeesBegun datagram.now.at.0 datagram.now.from) }
    {
        self.decide(alloc, keeper, kept, agreements, datagram)
    }

    // What it comes to.
    #[tactic(auto, using(crate::proofs::BodyLemmas::askings))]
    fn decide<K: Keeper>(
        &self,
        alloc: Global,
        keeper: &mut K,
        kept: &Kept,
        agreements: &Agreements,
        datagram: &Datagram<'_>,
    ) -> Result<Decision, KeepErr>
        ensures told { Looks result (K.seen keeper.old) (K.seen keeper.new)
            (λ d t. let v = view_at t datagram.now.hub datagram.now.from.ip in
            AllRight t kept.now → RemembersRight v datagram.now.from.ip agreements.now
            → Judges v self.now (as_came datagram.now) d) }
        ensures able { IfOk result (λ d. CanBe d.change self.now datagram.now.from) }
        ensures spent { Spent (datagram_calls self.now datagram.now.from datagram.now.bytes.now)
            (K.seen keeper.old) (K.seen keeper.new) }
        ensures few { FewWhereKept datagram.now.from.ip kept.now
            (K.seen keeper.old) (K.seen keeper.new) }
        ensures few_unnamed { FewUnlessNamedAt datagram.now.at.0 datagram.now.hub
            datagram.now.from.ip datagram.now.bytes.now
            (K.seen keeper.old) (K.seen keeper.new) }
        ensures few_before { FewWhereBegun datagram.now.from datagram.now.bytes.now self.now
            kept.now (K.seen keeper.old) (K.seen keeper.new) }
        ensures few_begun { IfOk result (λ d. FewWhereBegun datagram.now.from
            datagram.now.bytes.now
            (after_change d.change datagram.now.at.0 self.now datagram.now.from) kept.now
            (K.seen keeper.old) (K.seen keeper.new)) }
        ensures unasked { UnaskedWhereAgreed datagram.now.at.0 datagram.now.from
            datagram.now.bytes.now self.now agreements.now
            (K.seen keeper.old) (K.seen keeper.new) }
        ensures remembers { IfOk result (Remembers datagram.now.at.0 datagram.now.from
            (map.get self.now datagram.now.from) agreements.now) }
        ensures sees_begun { IfOk result (SeesBegun datagram.now.at.0 datagram.now.from) }
    {
        let Datagram {
            from,
            hub,
            at,
            bytes,
        } = *datagram;
        let place = self.find(from);
        match read_packet(bytes) {
            Ok(Packet::Read { name, options }) => {
                let request = Request {
                    from,
                    place,
                    hub,
                    at,
                    bytes,
                    name,
                    options,
                };
                self.on_request(alloc, keeper, kept, &request)
            }
            Ok(Packet::Ack(number)) => self.on_acknowledgement(
                alloc, keeper, agreements, datagram, place, number,
            ),
            Ok(Packet::Error) => Ok(Decision {
                word: TftpWord::PeerError,
                sent: None,
                change: Change::Ends(place),
                agreed: None,
            }),
            Ok(Packet::Write) => settled(refuse(alloc, from, Refusal::Write)),
            Ok(Packet::Other) => settled(refuse(alloc, from, Refusal::Form)),
            Err(PacketFault::Form) => settled(refuse(alloc, from, Refusal::Form)),
            Err(PacketFault::Mode) => settled(refuse(alloc, from, Refusal::Mode)),
        }
    }

    // What a read request comes to.
    #[tactic(auto, using(crate::proofs::BodyLemmas::askings))]
    fn on_request<K: Keeper>(
        &self,
        alloc: Global,
        keeper: &mut K,
        kept: &Kept,
        request: &Request<'_>,
    ) -> Result<Decision, KeepErr>
        requires least { IfSome request.now.options.blksize (λ size. 8 ≤ size) }
        requires read { packet_of request.now.bytes.now
            ≡ Ok (Reads request.now.name.now request.now.options) }
        requires place { IsPlaceOf self.now request.now.from request.now.place }
        ensures told { Looks result (K.seen keeper.old) (K.seen keeper.new)
            (λ d t. AllRight t kept.now
            → let v = view_at t request.now.hub request.now.from.ip in
            Serves v self.now (came_in request.now)
            (way_of_request v (came_in request.now) (has_no_room self.now)
            (asked_in request.now) (map.get self.now request.now.from)) d
            × SeesRight v request.now.from.ip d) }
        ensures able { IfOk result (λ d. CanBe d.change self.now request.now.from) }
        ensures ends { IfOk result (λ d. goes_on d.change ≡ false) }
        ensures sees_begun { IfOk result (SeesBegun request.now.at.0 request.now.from) }
        ensures spent { Spent
            (reading_calls request.now.bytes.now (map.get self.now request.now.from))
            (K.seen keeper.old) (K.seen keeper.new) }
        ensures few { FewWhereKept request.now.from.ip kept.now
            (K.seen keeper.old) (K.seen keeper.new) }
        ensures few_unnamed { FewWhereUnnamed request.now.at.0 request.now.hub
            request.now.from.ip request.now.name.now (K.seen keeper.old) (K.seen keeper.new) }
        ensures few_before { FewWhereBegun request.now.from request.now.bytes.now self.now
            kept.now (K.seen keeper.old) (K.seen keeper.new) }
        ensures few_begun { IfOk result (λ d. FewWhereBegun request.now.from
            request.now.bytes.now
            (after_change d.change request.now.at.0 self.now request.now.from) kept.now
            (K.seen keeper.old) (K.seen keeper.new)) }
    {
        if self.repeats(request.from, request.place, request.bytes) {
            return settled(self.repeat(alloc, request.from, request.place));
        }
        let seen = look_for_file(alloc, keeper, kept, request)?;
        settled(self.open_by(alloc, &seen, request))
    }

    // What an acknowledgement comes to.
    #[tactic(auto, using(crate::proofs::ReadLemmas::readings))]
    fn on_acknowledgement<K: Keeper>(
        &self,
        alloc: Global,
        keeper: &mut K,
        agreements: &Agreements,
        datagram: &Datagram<'_>,
        place: Place,
        number: u16,
    ) -> Result<Decision, KeepErr>
        requires { IsPlaceOf self.now datagram.now.from place }
        ensures told { Looks result (K.seen keeper.old) (K.seen keeper.new)
            (λ d t. let v = view_at t datagram.now.hub datagram.now.from.ip in
            RemembersRight v datagram.now.from.ip agreements.now
            → Does v self.now (as_came datagram.now)
            (way_of_acknowledgement v datagram.now.at.0 datagram.now.from.ip number
            (map.get self.now datagram.now.from)) d
            × SeesRight v datagram.now.from.ip d) }
        ensures bare { IfOk result KeepsNothing }
        ensures able { IfOk result (λ d. CanBe d.change self.now datagram.now.from) }
        ensures spent { Spent
            (acknowledgement_calls number (map.get self.now datagram.now.from))
            (K.seen keeper.old) (K.seen keeper.new) }
        ensures unasked { agrees_with datagram.now.at.0 datagram.now.from agreements.now self.now
            ≡ true → Spent 0 (K.seen keeper.old) (K.seen keeper.new) }
        ensures remembers { IfOk result (Remembers datagram.now.at.0 datagram.now.from
            (map.get self.now datagram.now.from) agreements.now) }
    {
        let from = datagram.from;
        match self.stage_of(from, place, number) {
            Stage::Unknown => settled(refuse(alloc, from, Refusal::Unknown)),
            Stage::Stale => Ok(Decision {
                word: TftpWord::StaleAck,
                sent: None,
                change: Change::Stays,
                agreed: None,
            }),
            Stage::Last => Ok(Decision {
                word: TftpWord::Done,
                sent: None,
                change: Change::Ends(place),
                agreed: None,
            }),
            Stage::Next => self.on_next(alloc, keeper, agreements, datagram, place),
        }
    }

    // What an acknowledgement comes to behind whose packet there is another one. Nothing is read
    // where it's remembered that the tables agree.
    #[tactic(auto, using(crate::proofs::ReadLemmas::readings))]
    fn on_next<K: Keeper>(
        &self,
        alloc: Global,
        keeper: &mut K,
        agreements: &Agreements,
        datagram: &Datagram<'_>,
        place: Place,
    ) -> Result<Decision, KeepErr>
        requires place { IsPlaceOf self.now datagram.now.from place }
        requires more { IfSome (map.get self.now datagram.now.from) (λ x. is_at_last x ≡ false) }
        ensures told { Looks result (K.seen keeper.old) (K.seen keeper.new)
            (λ d t. let v = view_at t datagram.now.hub datagram.now.from.ip in
            RemembersRight v datagram.now.from.ip agreements.now
            → IfSome (map.get self.now datagram.now.from)
            (λ x. Does v self.now (as_came datagram.now)
            (way_of_last v datagram.now.at.0 datagram.now.from.ip x) d)
            × SeesRight v datagram.now.from.ip d) }
        ensures bare { IfOk result KeepsNothing }
        ensures able { IfOk result (λ d. CanBe d.change self.now datagram.now.from) }
        ensures spent { Spent 3 (K.seen keeper.old) (K.seen keeper.new) }
        ensures unasked { agrees_with datagram.now.at.0 datagram.now.from agreements.now self.now
            ≡ true → Spent 0 (K.seen keeper.old) (K.seen keeper.new) }
        ensures remembers { IfOk result (Remembers datagram.now.at.0 datagram.now.from
            (map.get self.now datagram.now.from) agreements.now) }
    {
        let Datagram { from, hub, at, .. } = *datagram;
        if self.is_remembered(agreements, at, from, place) {
            return settled(self.go_on_by(alloc, from, place, None));
        }
        let seen = look(alloc, keeper, hub, from.ip)?;
        settled(self.go_on_or_break(alloc, &seen, at, from, place))
    }

    /// Makes the change of a peer's transfer that was decided at a moment. One with which a
    /// transfer begins puts its modem's body first in `kept`; nothing else changes `kept`, or takes
    /// memory. After `NoMemory` the transfers and `kept` are as before.
    pub fn carry_out(
        &mut self,
        kept: &mut Kept,
        now: Moment,
        from: Peer,
        change: Change,
    ) -> Result<(), NoMemory>
        requires { CanBe change self.old from }
        ensures changes { OnOk result (self.new ≡ after_change change now.0 self.old from) }
        ensures keeps { OnOk result (kept.new ≡ kept_behind change kept.old) }
        ensures kept { OnErr result (self.new ≡ self.old) }
        ensures unkept { OnErr result (kept.new ≡ kept.old) }
    {
        match change {
            Change::Stays => Ok(()),
            Change::AsksAgain(place) => {
                self.ask_again(from, place, now);
                Ok(())
            }
            Change::GoesOn(place) => {
                self.go_on(from, place, now);
                Ok(())
            }
            Change::Ends(place) => {
                self.end(from, place);
                Ok(())
            }
            Change::Begins { place, live, entry } => {
                kept.put_first(live.modem(), entry)?;
                self.put(from, place, live);
                Ok(())
            }
        }
    }
}

fn settled(decision: Result<Decision, NoMemory>) -> Result<Decision, KeepErr>
    ensures { MatchResult result (λ settled. decision ≡ Ok settled)
        (λ err. (err ≡ Memory) × (is_ok decision ≡ false)) }
{
    Ok(decision?)
}
