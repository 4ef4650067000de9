//! Laws of requests and replies. The functions do nothing; their contracts are the laws.
ghost use Rattle.off_clerk.specs.Laws.{ShownReadBack};

/// What a clerk is shown of a subscriber or a modem, sent as the body of a PUT, puts the same row.
#[tactic(auto, using(crate::proofs::ReadBack::shown_read_back))]
pub fn a_shown_row_is_read_back()
    ensures { ShownReadBack }
{}
