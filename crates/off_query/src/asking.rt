//! What a query asks.

ghost use Rattle.std.specs.Prelude.{◌≡◌};
ghost use Rattle.off_query_rules.specs.Asked.{is_by_address, is_by_mac};
ghost use Rattle.off_query_rules.specs.Asked.{has_client_identifier, question_of};
ghost use Rattle.off_query_rules.specs.Asked.{is_formless, asks_by_address};

use crate::Query;
use off_query_rules::Question;

const CLIENT_IDENTIFIER: u8 = 61;

const ETHERNET: u8 = 1;

const ETHERNET_LENGTH: u8 = 6;

/// By what the query asks.
pub(crate) fn question_of(q: &Query<'_>) -> Question
    ensures { result ≡ question_of q.now }
{
    if has_client_identifier(q) {
        return Question::Formless;
    }
    if is_by_address(q) {
        return Question::ByAddress(q.ciaddr());
    }
    if is_by_mac(q) {
        return Question::ByMac(q.mac());
    }
    Question::Formless
}

fn has_client_identifier(q: &Query<'_>) -> bool
    ensures { result ≡ has_client_identifier q.now }
{
    q.option(CLIENT_IDENTIFIER).present()
}

fn is_by_address(q: &Query<'_>) -> bool
    ensures { result ≡ is_by_address q.now }
{
    let bytes = q.bytes();
    q.ciaddr().0 != 0 && bytes[1] == 0 && bytes[2] == 0 && q.hardware() == [0; 16].as_slice()
}

fn is_by_mac(q: &Query<'_>) -> bool
    ensures { result ≡ is_by_mac q.now }
{
    let bytes = q.bytes();
    q.ciaddr().0 == 0 && bytes[1] == ETHERNET && bytes[2] == ETHERNET_LENGTH
}

pub(crate) fn is_formless(question: Question) -> bool
    ensures { result ≡ is_formless question }
{
    matches!(question, Question::Formless)
}

pub(crate) fn asks_by_address(question: Question) -> bool
    ensures { result ≡ asks_by_address question }
{
    matches!(question, Question::ByAddress(_))
}
