//! `officed`: main, which makes the outside that its words ask for. No rule of the office stands
//! here.
#![tactic(auto)]

ghost use Rattle.std.specs.Prelude.{◌≡◌, ◌⊎◌, map, string_bytes, IfOk};
ghost use Rattle.officed.specs.Ending.{IfRan, RanOver, room_for};
ghost use Rattle.officed.specs.declared.ended.Ended.TheVariants.{NoMemory};

mod ended;

use ended::Ended;
use off_host::{
    Addresses, Log, LogSink, OpenErr, SocketLink, StandardInput, StandardOutput,
    open_standard_streams,
};
use off_outside::{Calls, Events, Keeper, Link, MemLink, Sink, Source};
use off_serve::run;
use off_store::{StoreErr, in_memory, open_keeper, place_named};
use off_words::place;
use std::env;
use std::io::ErrorKind;
use std::process::ExitCode;

// Room for what an office sends to 4,000 modems of a drill: 23,600 items of 2,861,600 bytes.
const DRILLED_ITEMS: usize = 24_000;

const DRILLED_OCTETS: usize = 3_200_000;

fn main(rt: HostRuntime) -> ExitCode {
    if !open_standard_streams() {
        return ExitCode::from(Ended::LogLost.status());
    }
    let mut words = Vec::new(rt.alloc());
    match env::args(&rt) {
        Ok(args) => {
            // The first is the program's name.
            for word in args.skip(1) {
                if words.push(word).is_err() {
                    return ExitCode::from(no_memory(&rt).status());
                }
            }
        }
        Err(error) => {
            if error.kind() == ErrorKind::OutOfMemory {
                return ExitCode::from(no_memory(&rt).status());
            }
            // A word that isn't text fits no form, nor do no words at all.
            words.clear();
        }
    }
    ExitCode::from(serve(&rt, words.as_slice()).status())
}

// Makes the outside that the words ask for, and hands it to the top call.
fn serve(rt: &HostRuntime, words: &[String]) -> Ended {
    let mut input = StandardInput::new(rt);
    let mut output = StandardOutput::new(rt);
    let Some(wanted) = place(words) else {
        return run_alone(rt, words, &mut in_memory(rt), &mut input, &mut output);
    };
    let mut keeper = match open_keeper(rt, place_named(wanted.store)) {
        Ok(keeper) => keeper,
        Err(StoreErr::Memory) => return no_memory(rt),
        Err(StoreErr::Refused) => return Ended::NoStore,
    };
    run_over(
        rt,
        words,
        &wanted.ports,
        &mut keeper,
        &mut input,
        &mut output,
    )
}

// Runs over a keeper, on sockets where events are to come. An import and a drill take none, so they
// have no ports.
fn run_over<K: Keeper>(
    rt: &HostRuntime,
    words: &[String],
    ports: &[u16; 4],
    keeper: &mut K,
    input: &mut StandardInput,
    output: &mut StandardOutput,
) -> Ended
    ensures { IfRan result (λ status.
        RanOver ⟦<MemLink as Link>⟧.seen ⟦<StandardOutput as Sink>⟧.seen
        (map string_bytes words.now) status (K.seen keeper.old) (K.seen keeper.new)
        (⟦<StandardInput as Source>⟧.seen input.old) (⟦<StandardInput as Source>⟧.seen input.new)
        ⊎ RanOver ⟦<SocketLink as Link>⟧.seen ⟦<LogSink as Sink>⟧.seen
        (map string_bytes words.now) status (K.seen keeper.old) (K.seen keeper.new)
        (⟦<StandardInput as Source>⟧.seen input.old)
        (⟦<StandardInput as Source>⟧.seen input.new)) }
{
    if ports[0] == 0 {
        return run_alone(rt, words, keeper, input, output);
    }
    match run_on_sockets(rt, words, ports, keeper, input) {
        Ok(ended) => ended,
        Err(OpenErr::Memory) => no_memory(rt),
        Err(OpenErr::Socket) => Ended::NoSocket,
    }
}

// Runs on sockets, with a log whose lines wait while there is more to be read.
fn run_on_sockets<K: Keeper>(
    rt: &HostRuntime,
    words: &[String],
    ports: &[u16; 4],
    keeper: &mut K,
    input: &mut StandardInput,
) -> Result<Ended, OpenErr>
    ensures { IfOk result (λ ended. IfRan ended (λ status.
        RanOver ⟦<SocketLink as Link>⟧.seen ⟦<LogSink as Sink>⟧.seen
        (map string_bytes words.now) status (K.seen keeper.old) (K.seen keeper.new)
        (⟦<StandardInput as Source>⟧.seen input.old)
        (⟦<StandardInput as Source>⟧.seen input.new))) }
{
    let log = Log::new(rt)?;
    let mut lines = LogSink::new(log.share()?);
    let mut link = open_link(rt, ports, log.share()?)?;
    let status = run(rt.alloc(), words, &mut link, keeper, input, &mut lines);
    if log.flush() {
        return Ok(Ended::Ran(status));
    }
    Ok(Ended::LogLost)
}

// Runs what takes no events: an import, a drill, a job over the streams, or words that fit no form.
// Its link is in memory, and has no events.
fn run_alone<K: Keeper>(
    rt: &HostRuntime,
    words: &[String],
    keeper: &mut K,
    input: &mut StandardInput,
    output: &mut StandardOutput,
) -> Ended
    ensures { IfRan result (λ status.
        RanOver ⟦<MemLink as Link>⟧.seen ⟦<StandardOutput as Sink>⟧.seen
        (map string_bytes words.now) status (K.seen keeper.old) (K.seen keeper.new)
        (⟦<StandardInput as Source>⟧.seen input.old)
        (⟦<StandardInput as Source>⟧.seen input.new)) }
{
    let events = Events::new(rt.alloc());
    let fails = Calls::new(rt.alloc());
    let (items, octets) = room_for(words);
    match MemLink::new(rt.alloc(), events, items, octets, fails) {
        Ok(mut link) => {
            let status = run(rt.alloc(), words, &mut link, keeper, input, output);
            Ended::Ran(status)
        }
        Err(_refused) => no_memory(rt),
    }
}

// How many items, and of how many bytes in all, are kept of what is sent. Only a drill sends.
fn room_for(words: &[String]) -> (usize, usize)
    ensures { result ≡ room_for (map string_bytes words.now) }
{
    match words.first() {
        Some(command) if command.as_str() == "drill" => (DRILLED_ITEMS, DRILLED_OCTETS),
        _ => (0, 0),
    }
}

// Opens the sockets on the addresses that the environment names.
fn open_link(rt: &HostRuntime, ports: &[u16; 4], log: Log) -> Result<SocketLink, OpenErr>
    ensures { IfOk result (λ link. (⟦<SocketLink as Link>⟧.seen link).missed ≡ 0) }
{
    let addresses = Addresses::wanted(rt)?;
    SocketLink::open(rt, addresses, ports, log)
}

// Says that memory was refused.
fn no_memory(rt: &HostRuntime) -> Ended
    ensures { result ≡ NoMemory }
{
    let _written = StandardOutput::new(rt).write(b"memory refused\n");
    Ended::NoMemory
}
