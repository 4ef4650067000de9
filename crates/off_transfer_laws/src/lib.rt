//! Laws of transfers and of Ticks, over the definitions alone. Each function here does nothing: its
//! contract is the law.
#![tactic(auto)]

mod laws;

pub use laws::{
    a_datagram_gives_one_thing, a_file_is_its_modems, a_request_is_accepted_where_all_agrees,
    a_tick_closes_as_many_as_it_says, a_tick_does_one_thing, a_tick_keeps_transfers_sound,
    a_tick_sends_again_or_closes, a_tick_sends_as_many_as_it_says, agreement_stands_in_the_tables,
    answers_go_back, block_numbers_fit, each_datagram_gives_something, each_tick_does_something,
    each_transfer_has_an_origin, equal_views_give_the_same, good_tables_have_the_file,
    no_other_row_decides, refusals_change_nothing, requests_are_read_as_written,
    seconds_that_are_read_fit, sizes_that_are_read_fit, texts_are_those_that_are_spelled,
    the_next_block_goes, transfers_of_others_stay, transfers_stay_few, transfers_stay_sound,
};
