use crate::desk::{Answer, NOW, answered, answers, is_import, keeper_of};
use off_base::{Ip4, Mac, Moment};
use off_defs::Key;
use off_office::Office;
use off_opening::count_rows;
use off_orders::{Command, Reply, Rule, sound};
use std::test::Fail;

// Class 1 has bad settings, pool 2 no relay, and pool 2 for devices too short a prefix: whoever
// reads them takes them as none. No opening lets them in.
#[test]
fn an_impossible_row_is_none(rt: HostRuntime) -> Result<(), Fail> {
    let alloc = rt.alloc();
    let bad = "class 1 \"gold\" 99=01\npool 2 0.0.0.0 0.0.0.9 24 0.0.0.1 0.0.0.0\n\
               device-pool 2 10.65.0.0 10.65.0.9 7 0.0.0.1 0.0.0.2";
    let mut keeper = keeper_of(alloc, bad)?;
    let counts = count_rows(alloc, &mut keeper)?;
    for (row, wanted) in [
        (
            "modem 02aabbccddee 7 1 \"\"",
            Answer::Refused(Rule::NoClass),
        ),
        (
            "class 1 \"gold\" 24{ 1=0001 6=07 } 25{ 1=0002 6=07 }",
            Answer::Done(1),
        ),
        ("pool 3 0.0.0.0 0.0.0.9 24 0.0.0.1 0.0.0.3", Answer::Done(2)),
        (
            "pool 3 10.65.0.0 10.65.0.9 24 0.0.0.1 0.0.0.3",
            Answer::Done(2),
        ),
        (
            "device-pool 3 10.65.0.0 10.65.0.9 24 0.0.0.1 0.0.0.2",
            Answer::Done(1),
        ),
    ] {
        assert!(rt;
            answers(alloc, &mut keeper, &counts, row)? == wanted,
            "{row}"
        );
    }
    let shown = answered(alloc, &mut keeper, &counts, &Command::Show(Key::Class(1)));
    assert!(rt; shown == Answer::Refused(Rule::NoRow));
    Ok(())
}

// The office shows, removes and refuses by itself, without an event.
#[test]
fn the_office_does_a_command(rt: HostRuntime) -> Result<(), Fail> {
    let alloc = rt.alloc();
    let mut keeper = keeper_of(alloc, "lease 10.64.0.10 declined t+100")?;
    let Ok(mut office) = Office::start(alloc, &mut keeper) else {
        return Err(Fail::new("the tables are good"));
    };
    for (at, command, done) in [
        (NOW + 50, Command::Remove(Key::Pool(1)), false),
        (NOW + 100, Command::Show(Key::Hub(0)), true),
        (NOW + 50, Command::Remove(Key::Pool(1)), true),
        (NOW, Command::Show(Key::Lease(Ip4(0x0a40_000a))), false),
        (
            NOW,
            Command::Remove(Key::Modem(Mac([2, 0xaa, 0xbb, 0xcc, 0xdd, 0xee]))),
            true,
        ),
    ] {
        if sound(&command) && !is_import(&command) {
            let answer: Option<Reply> = office.command(&mut keeper, Moment(at), &command).ok();
            assert_eq!(rt; answer.is_some(), done);
        }
    }
    Ok(())
}
