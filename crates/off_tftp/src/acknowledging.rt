//! A packet that has come, and a request that came again.

ghost use Rattle.std.specs.Prelude.{◌≡◌, List, ℕ, None, true, false, length, is_some};
ghost use Rattle.std.specs.Prelude.{IfOk, IfSome};
ghost use Rattle.std.specs.FinMap as map;
ghost use Rattle.off_account_rules.specs.Rows.{passes};
ghost use Rattle.off_transfer_rules.specs.Requests.{datagram_at, file_owner};
ghost use Rattle.off_transfer_rules.specs.View.{View, agrees};
ghost use Rattle.off_transfer_rules.specs.Steps.{Repeats, GoesOn, way_of_last, no_longer_agreed};
ghost use Rattle.off_transfer_rules.specs.Transfers.{is_at_last};
ghost use Rattle.off_tftp.specs.Agreements.{most_slots, stands_for, is_remembered};
ghost use Rattle.off_tftp.specs.Agreements.{IsAgreementOf};
ghost use Rattle.off_tftp.specs.Deciding.{Does, CanBe, KeepsNothing, SeesNothing};
ghost use Rattle.off_tftp.specs.Deciding.{refusal_of, goes_on};
ghost use Rattle.off_tftp.specs.declared.deciding.Change.TheVariants.{Ends};
ghost use Rattle.off_tftp.specs.Places.{IsPlaceOf};
ghost use Rattle.off_tftp.specs.Seen.{view_of};
ghost use Rattle.off_tftp.specs.Stages.{repeats, stage_of};

use crate::agreements::{Agreement, Agreements};
use crate::deciding::{Change, Decision, Refusal, packet_to, refuse};
use crate::gathering::Seen;
use crate::judging::agreement_of;
use crate::transfers::{Place, Transfers};
use off_base::{Moment, NoMemory, Peer};
use off_transfer_rules::TftpWord;
use std::alloc::Global;

/// What an acknowledgement comes to, before anything is read for the peer.
#[derive(Clone, Copy, PartialEq, Eq)]
pub(crate) enum Stage {
    /// There is no transfer.
    Unknown,
    /// It's of another packet than the last one.
    Stale,
    /// It's of the last block.
    Last,
    /// It's of a packet behind which there is another one.
    Next,
}

impl Transfers {
    /// Whether a peer's transfer began with this request, and nothing was acknowledged since.
    pub(crate) fn repeats(&self, from: Peer, place: Place, bytes: &[u8]) -> bool
        requires { IsPlaceOf self.now from place }
        ensures { result ≡ repeats bytes.now (map.get self.now from) }
    {
        match self.get(from, place) {
            Some(live) => live.is_repeated(bytes),
            None => false,
        }
    }

    /// What the acknowledgement of a packet comes to.
    pub(crate) fn stage_of(&self, from: Peer, place: Place, number: u16) -> Stage
        requires { IsPlaceOf self.now from place }
        ensures { result ≡ stage_of number (map.get self.now from) }
    {
        let Some(live) = self.get(from, place) else {
            return Stage::Unknown;
        };
        if live.sent() != number {
            return Stage::Stale;
        }
        if live.is_at_last() {
            Stage::Last
        } else {
            Stage::Next
        }
    }

    /// Whether it's remembered that the tables agree with a peer's transfer.
    pub(crate) fn is_remembered(
        &self,
        agreements: &Agreements,
        now: Moment,
        from: Peer,
        place: Place,
    ) -> bool
        requires { IsPlaceOf self.now from place }
        ensures remembered { result ≡ passes (is_remembered now.0 from.ip agreements.now)
            (map.get self.now from) }
        ensures wide { IfSome (map.get self.now from) (λ _. length agreements.now ≡ most_slots) }
    {
        match self.get(from, place) {
            Some(live) => agreements.has(now, from.ip, live),
            None => false,
        }
    }

    /// The first packet goes again.
    pub(crate) fn repeat(
        &self,
        alloc: Global,
        from: Peer,
        place: Place,
    ) -> Result<Decision, NoMemory>
        requires { IsPlaceOf self.now from place }
        ensures done { (v : View) (now : ℕ) (bytes : List ℕ) → IfOk result
            (λ d. IfSome (map.get self.now from)
            (λ x. Does v self.now (datagram_at now from bytes) (Repeats x) d)) }
        ensures bare { IfOk result KeepsNothing }
        ensures able { IfOk result (λ d. CanBe d.change self.now from) }
        ensures unseen { IfOk result SeesNothing }
    {
        let Some(live) = self.get(from, place) else {
            return Ok(Decision {
                word: TftpWord::Again,
                sent: None,
                change: Change::Stays,
                agreed: None,
            });
        };
        let packet = live.last_packet(alloc)?;
        Ok(Decision {
            word: TftpWord::Again,
            sent: Some(packet_to(from, packet)),
            change: Change::AsksAgain(place),
            agreed: None,
        })
    }

    /// The next block goes where the tables still agree; else the transfer is broken off.
    pub(crate) fn go_on_or_break(
        &self,
        alloc: Global,
        seen: &Seen,
        now: Moment,
        from: Peer,
        place: Place,
    ) -> Result<Decision, NoMemory>
        requires place { IsPlaceOf self.now from place }
        requires more { IfSome (map.get self.now from) (λ x. is_at_last x ≡ false) }
        ensures done { (bytes : List ℕ) → IfOk result
            (λ d. IfSome (map.get self.now from)
            (λ x. Does (view_of seen.now) self.now (datagram_at now.0 from bytes)
            (way_of_last (view_of seen.now) now.0 from.ip x) d)) }
        ensures bare { IfOk result KeepsNothing }
        ensures able { IfOk result (λ d. CanBe d.change self.now from) }
        ensures agreed { IfOk result
            (λ d. IfSome d.agreed (IsAgreementOf (view_of seen.now) from.ip)) }
        ensures seen { IfOk result (λ d. goes_on d.change ≡ true → IfSome (map.get self.now from)
            (λ x. passes (stands_for now.0 from.ip x) d.agreed ≡ true)) }
    {
        let agreed = self.seen_to_agree(seen, now, from, place);
        if agreed.is_none() {
            return break_off(alloc, from, place);
        }
        self.go_on_by(alloc, from, place, agreed)
    }

    // What was seen to agree with a peer's transfer, or nothing.
    fn seen_to_agree(&self, seen: &Seen, now: Moment, from: Peer, place: Place) -> Option<Agreement>
        requires { IsPlaceOf self.now from place }
        ensures agrees { is_some result ≡ passes
            (λ x. agrees (view_of seen.now) now.0 from.ip x.name (file_owner x.modem x.subscriber))
            (map.get self.now from) }
        ensures right { IfSome result (IsAgreementOf (view_of seen.now) from.ip) }
        ensures stands { IfSome (map.get self.now from) (λ x. IfSome result
            (λ a. stands_for now.0 from.ip x a ≡ true)) }
    {
        match self.get(from, place) {
            Some(live) => agreement_of(seen, now, from.ip, live),
            None => None,
        }
    }

    /// The next block goes, and what was seen to agree, if anything was, is to be remembered.
    pub(crate) fn go_on_by(
        &self,
        alloc: Global,
        from: Peer,
        place: Place,
        agreed: Option<Agreement>,
    ) -> Result<Decision, NoMemory>
        requires place { IsPlaceOf self.now from place }
        requires more { IfSome (map.get self.now from) (λ x. is_at_last x ≡ false) }
        ensures done { (v : View) (now : ℕ) (bytes : List ℕ) → IfOk result
            (λ d. IfSome (map.get self.now from)
            (λ x. Does v self.now (datagram_at now from bytes) (GoesOn x) d)) }
        ensures bare { IfOk result KeepsNothing }
        ensures able { IfOk result (λ d. CanBe d.change self.now from) }
        ensures agreed { IfOk result (λ d. d.agreed ≡ agreed) }
    {
        let Some(live) = self.get(from, place) else {
            return Ok(Decision {
                word: TftpWord::Unknown,
                sent: None,
                change: Change::Stays,
                agreed,
            });
        };
        let packet = live.next_packet(alloc)?;
        let number = live.next_number();
        Ok(Decision {
            word: TftpWord::Block(number),
            sent: Some(packet_to(from, packet)),
            change: Change::GoesOn(place),
            agreed,
        })
    }
}

// Ends a transfer with a refusal.
fn break_off(alloc: Global, from: Peer, place: Place) -> Result<Decision, NoMemory>
    ensures { IfOk result
        (λ d. d ≡ record (refusal_of from no_longer_agreed) { change = Ends place }) }
{
    let refusal = refuse(alloc, from, Refusal::Agreement)?;
    Ok(Decision {
        word: refusal.word,
        sent: refusal.sent,
        change: Change::Ends(place),
        agreed: None,
    })
}
