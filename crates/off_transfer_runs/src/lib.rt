//! Laws of files over whole runs, over the definitions alone. Each function here does nothing: its
//! contract is the law.
#![tactic(auto)]

ghost use Rattle.off_transfer_runs.specs.Served.{FilesOfRuns};
ghost use Rattle.off_transfer_runs.specs.Closed.{ClosedAreQuiet};
ghost use Rattle.off_transfer_runs.specs.Answering.{WhoAnswersGetsAll, EachFileEnds};

/// Over each run: what a peer has acknowledged since its read request was accepted counts up from
/// 1, and the blocks that it got so join to a prefix of one file, the one that its modem had then;
/// to all of it where the transfer is done.
pub fn files_are_served_through()
    ensures { FilesOfRuns }
{}

/// A peer without a transfer is given no block, and nothing that it acknowledges counts, until a
/// read request of it is accepted. So the law above speaks of what goes behind a Tick that closes a
/// transfer, too.
pub fn a_peer_without_a_transfer_is_given_no_block()
    ensures { ClosedAreQuiet }
{}

/// A peer that acknowledges one packet after the other up to the last block, each before six Ticks
/// have passed and while the tables agree, gets its whole file.
pub fn who_answers_gets_the_whole_file()
    ensures { WhoAnswersGetsAll }
{}

/// Each file has a last block.
pub fn each_file_has_a_last_block()
    ensures { EachFileEnds }
{}
