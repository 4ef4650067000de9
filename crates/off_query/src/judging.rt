//! The word of a query.

ghost use Rattle.std.specs.Prelude.{◌≡◌, ◌&&◌, is_some};
ghost use Rattle.std.specs.Str.{bytes_eq};
ghost use Rattle.off_account_rules.specs.Rows.{passes};
ghost use Rattle.off_account_rules.specs.Good.{is_live_bound};
ghost use Rattle.off_query_rules.specs.Asked.{asks_by_address};
ghost use Rattle.off_query_rules.specs.Answers.{bound_mac, is_for, is_active};
ghost use Rattle.off_query_rules.specs.Answers.{query_words, first_word};

use crate::asking::{asks_by_address, is_formless};
use off_base::{Ip4, Mac, Moment};
use off_defs::{Hold, Lease};
use off_query_rules::{QueryCase, QueryWord, Question};

/// The word of a query, by its rows.
pub(crate) fn word_of(now: Moment, question: Question, case: &QueryCase) -> QueryWord
    ensures { result ≡ first_word (query_words now.0 question case.now) }
{
    first_word(&[
        (QueryWord::Relay, case.site.is_none()),
        (QueryWord::Form, is_formless(question)),
        (QueryWord::Active, is_active(now, question, case.lease)),
        (QueryWord::Unassigned, is_unassigned(question, case.address)),
    ])
}

// The word of the first rule that holds.
fn first_word(rules: &[(QueryWord, bool)]) -> QueryWord
    ensures { result ≡ first_word rules.now }
{
    for rule in rules {
        if rule.1 {
            return rule.0;
        }
    }
    QueryWord::Unknown
}

// Whether a pool has the address that the query names.
fn is_unassigned(question: Question, address: Option<Ip4>) -> bool
    ensures { result ≡ (asks_by_address question && is_some address) }
{
    asks_by_address(question) && address.is_some()
}

fn is_active(now: Moment, question: Question, lease: Option<Lease>) -> bool
    ensures { result ≡ passes (is_active now.0 question) lease }
{
    match lease {
        Some(lease) => is_live_bound(now, lease) && is_for(question, lease.hold),
        None => false,
    }
}

fn is_live_bound(now: Moment, lease: Lease) -> bool
    ensures { result ≡ is_live_bound now.0 lease }
{
    matches!(lease.hold, Hold::Bound(_)) && now.0 < lease.expiry.0
}

fn is_for(question: Question, hold: Hold) -> bool
    ensures { result ≡ is_for question hold }
{
    match question {
        Question::ByMac(mac) => is_bound_to(mac, hold),
        Question::ByAddress(_) | Question::Formless => true,
    }
}

fn is_bound_to(mac: Mac, hold: Hold) -> bool
    ensures { result ≡ passes (λ owner. bytes_eq owner.0 mac.0) (bound_mac hold) }
{
    match bound_mac(hold) {
        Some(owner) => owner.0.as_slice() == mac.0.as_slice(),
        None => false,
    }
}

/// The client that is bound, if one is.
pub(crate) fn bound_mac(hold: Hold) -> Option<Mac>
    ensures { result ≡ bound_mac hold }
{
    match hold {
        Hold::Bound(mac) => Some(mac),
        Hold::Offered(_) | Hold::Declined => None,
    }
}
