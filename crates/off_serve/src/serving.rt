ghost use Rattle.std.specs.Prelude.{◌≡◌, map, string_bytes, MatchOption};
ghost use Rattle.off_book.specs.Words.{job_of};
ghost use Rattle.off_words.specs.Reading.{asked_for, DrillsFew};
ghost use Rattle.off_turns.specs.Serving.{world_of};
ghost use Rattle.off_serve.specs.Headline.{Ended, ServesAsOffice, RefusesAll};
ghost use Rattle.off_serve.specs.Headline.{DoesJob, outside_of};

use off_drill_job::drill;
use off_import_job::import_input;
use off_jobs::{check_input, seal_input, tell, tell_memory};
use off_office::{Office, stay_closed};
use off_outside::{Keeper, Link, Sink, Source};
use off_turns::{Stop, serve_events};
use off_words::{Asked, read_words};
use std::alloc::Global;

/// The top call: does what the words ask, and answers the program's exit status.
///
/// `serve --store STORE --ports DHCP,TIME,TFTP,HTTP --turns N` opens the keeper's tables, takes
/// events from the link until an End, N of them at most, sends what the office says of each and
/// writes its line. `import --store STORE KIND BATCH` does the import that the source holds, in one
/// step, and writes its number of rows. `drill MODEMS` founds an office over tables without rows,
/// has so many modems boot, and writes what came of it. `seal HEX` seals the configuration file
/// that the source holds under the secret HEX and writes it; `check HEX` verifies one. Other words
/// are refused. Tables of earlier days, which have one site, get it as their hub 0 when `serve`,
/// `import` or `drill` opens them.
///
/// Status 0: an End was read, or N events were taken, or the job is done (for `check`: both values
/// are good). 1: the words fit no form. 2: the tables don't open, and the line names their least
/// bad key. 3: the keeper failed when the tables were opened, or in the steps of `import` or
/// `drill`. 4: the sink failed in the last write. 5: the link failed sixteen times in a row. 6:
/// memory was wanted outside of an event. 7: the source failed. 8: `check` finds a bad value or
/// refuses the file. 9: `seal` refuses the file, the import is refused, or `drill` finds rows.
pub fn run<L: Link, K: Keeper, S: Source, W: Sink>(
    alloc: Global,
    words: &[String],
    link: &mut L,
    keeper: &mut K,
    source: &mut S,
    out: &mut W,
) -> u8
    requires { (L.seen link.old).missed ≡ 0 }
    ensures { let old = outside_of
        (L.seen link.old) (K.seen keeper.old) (S.seen source.old) (W.seen out.old) in
        let new = outside_of
        (L.seen link.new) (K.seen keeper.new) (S.seen source.new) (W.seen out.new) in
        MatchOption (job_of (map string_bytes words.now))
        (RefusesAll old new result) (λ job. DoesJob job old new result) }
{
    match read_words(words) {
        Some(asked) => do_job(alloc, &asked, link, keeper, source, out),
        None => tell(out, b"words refused\n", 1),
    }
}

// Does what the words ask.
fn do_job<L: Link, K: Keeper, S: Source, W: Sink>(
    alloc: Global,
    asked: &Asked<'_>,
    link: &mut L,
    keeper: &mut K,
    source: &mut S,
    out: &mut W,
) -> u8
    requires missed { (L.seen link.old).missed ≡ 0 }
    requires few { DrillsFew asked.now }
    ensures { DoesJob (asked_for asked.now)
        (outside_of (L.seen link.old) (K.seen keeper.old) (S.seen source.old) (W.seen out.old))
        (outside_of (L.seen link.new) (K.seen keeper.new) (S.seen source.new) (W.seen out.new))
        result }
{
    match asked {
        Asked::Serve(form) => serve(alloc, form.turns, link, keeper, out),
        Asked::Import(form) => { import_input(alloc, form.kind, form.batch, keeper, source, out) }
        Asked::Drill(modems) => drill(alloc, *modems, link, keeper, out),
        Asked::Seal(secret) => seal_input(alloc, secret.as_slice(), source, out),
        Asked::Check(secret) => check_input(alloc, secret.as_slice(), source, out),
    }
}

// Opens the tables, serves, and writes the own line of the end.
fn serve<L: Link, K: Keeper, W: Sink>(
    alloc: Global,
    turns: u64,
    link: &mut L,
    keeper: &mut K,
    out: &mut W,
) -> u8
    requires { (L.seen link.old).missed ≡ 0 }
    ensures { ServesAsOffice turns (world_of (L.seen link.old) (K.seen keeper.old) (W.seen out.old))
        (world_of (L.seen link.new) (K.seen keeper.new) (W.seen out.new)) result }
{
    match Office::start(alloc, keeper) {
        Ok(mut office) => {
            let stop = serve_events(alloc, turns, &mut office, link, keeper, out);
            finish(stop, out)
        }
        Err(err) => stay_closed(err, out),
    }
}

// Writes the run's own line, where the end has one, and answers the status.
fn finish<W: Sink>(stop: Stop, out: &mut W) -> u8
    ensures { Ended stop result (W.seen out.old) (W.seen out.new) }
{
    match stop {
        Stop::Finished => 0,
        Stop::Memory => tell_memory(out),
        Stop::Link => tell(out, b"link refused\n", 5),
        Stop::Sink => 4,
    }
}
