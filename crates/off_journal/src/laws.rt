//! Laws of journals. What the functions do is of no use; their contracts are the laws.
ghost use Rattle.off_journal.specs.Laws.{OneJournal, GivenOpens, GoodOrBad, OneBad};

/// Bytes are a journal of one list of commits at most.
#[tactic(auto, using(crate::proofs::LawLemmas::one_journal))]
pub fn one_journal()
    ensures { OneJournal }
{}

/// What an opening gives is what opens.
pub fn given_opens()
    ensures { GivenOpens }
{}

/// No bytes both open and are bad.
pub fn good_or_bad()
    ensures { GoodOrBad }
{}

/// Bytes are bad at one place at most.
pub fn one_bad()
    ensures { OneBad }
{}
