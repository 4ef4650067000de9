ghost use Rattle.off_transfer_laws.specs.Laws.{TransferStepIsOne, TransferStepIsThere, OthersStay};
ghost use Rattle.off_transfer_laws.specs.Laws.{FewStay, AnswersGoBack, RefusalsLeave, ViewsDecide};
ghost use Rattle.off_transfer_laws.specs.Laws.{AgreementStands, AcceptedAgree, FilesAreOwn};
ghost use Rattle.off_transfer_laws.specs.Laws.{GoodHaveFiles, TickIsOne, TickIsThere, TickSends};
ghost use Rattle.off_transfer_laws.specs.Laws.{TickCloses, TickChanges};
ghost use Rattle.off_transfer_laws.specs.Origins.{EachHasAnOrigin, NextBlockGoes};
ghost use Rattle.off_transfer_laws.specs.SameRows.{RowsDecide};
ghost use Rattle.off_transfer_laws.specs.Sound.{StepKeepsSound, NumbersFit, TickKeepsSound};
ghost use Rattle.off_transfer_laws.specs.Texts.{TextsAreThese, RequestsAreRead, SizesFit};
ghost use Rattle.off_transfer_laws.specs.Texts.{SecondsFit};

/// A datagram gives one thing at a moment, for tables and transfers.
pub fn a_datagram_gives_one_thing()
    ensures { TransferStepIsOne }
{}

/// Each datagram gives something, whatever the tables and transfers are.
pub fn each_datagram_gives_something()
    ensures { TransferStepIsThere }
{}

/// A datagram leaves the transfers of all other peers as they are.
pub fn transfers_of_others_stay()
    ensures { OthersStay }
{}

/// Where no more than 256 transfers are live, a datagram leaves no more.
pub fn transfers_stay_few()
    ensures { FewStay }
{}

/// A transfer that a datagram leaves stood before, with the same file; or the datagram is its read
/// request, which agrees with the tables, and its file is the modem's.
pub fn each_transfer_has_an_origin()
    ensures { EachHasAnOrigin }
{}

/// Where the packet that was sent last is acknowledged, the file goes on and the tables agree, the
/// next block is sent.
pub fn the_next_block_goes()
    ensures { NextBlockGoes }
{}

/// A datagram is answered by one packet to its sender, or by none.
pub fn answers_go_back()
    ensures { AnswersGoBack }
{}

/// A datagram that is refused changes no transfer.
pub fn refusals_change_nothing()
    ensures { RefusalsLeave }
{}

/// Of the tables nothing but what is read for the peer's address decides.
pub fn equal_views_give_the_same()
    ensures { ViewsDecide }
{}

/// Of these no row but the site, the lease of the address, and the modem's that owns it, with its
/// class, its subscriber and the subscriber's add-ons.
pub fn no_other_row_decides()
    ensures { RowsDecide }
{}

/// The tables agree with a transfer exactly where its address is bound to its modem, the modem is
/// its subscriber's, and the name is the one that the site's secret makes.
pub fn agreement_stands_in_the_tables()
    ensures { AgreementStands }
{}

/// A request that is accepted agrees with the tables.
pub fn a_request_is_accepted_where_all_agrees()
    ensures { AcceptedAgree }
{}

/// What is built for a peer is its modem's file.
pub fn a_file_is_its_modems()
    ensures { FilesAreOwn }
{}

/// Each transfer keeps to what all begin with: its file is short, its size is served, and its last
/// block begins within the file.
pub fn transfers_stay_sound()
    ensures { StepKeepsSound }
{}

/// So a block's number is 776 at most.
pub fn block_numbers_fit()
    ensures { NumbersFit }
{}

/// In good tables a modem whose name is right has a file.
pub fn good_tables_have_the_file()
    ensures { GoodHaveFiles }
{}

/// A Tick does one thing to transfers.
pub fn a_tick_does_one_thing()
    ensures { TickIsOne }
{}

/// Each Tick does something.
pub fn each_tick_does_something()
    ensures { TickIsThere }
{}

/// A Tick sends as many packets as its line says.
pub fn a_tick_sends_as_many_as_it_says()
    ensures { TickSends }
{}

/// As many transfers are gone as the line of the Tick says.
pub fn a_tick_closes_as_many_as_it_says()
    ensures { TickCloses }
{}

/// A Tick changes no transfer but by sending its last packet again or by closing it, and makes
/// none.
pub fn a_tick_sends_again_or_closes()
    ensures { TickChanges }
{}

/// A Tick keeps transfers so too.
pub fn a_tick_keeps_transfers_sound()
    ensures { TickKeepsSound }
{}

/// The texts of bytes are those that stand in them, each ended by a zero byte.
pub fn texts_are_those_that_are_spelled()
    ensures { TextsAreThese }
{}

/// A read request says what its texts say.
pub fn requests_are_read_as_written()
    ensures { RequestsAreRead }
{}

/// A size that is asked for lies between 8 and 65,464.
pub fn sizes_that_are_read_fit()
    ensures { SizesFit }
{}

/// Seconds between resends that are asked for lie between 1 and 255.
pub fn seconds_that_are_read_fit()
    ensures { SecondsFit }
{}
