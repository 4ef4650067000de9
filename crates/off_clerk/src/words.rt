ghost use Rattle.std.specs.Prelude.{◌≡◌, ◌≤◌, length, IsTrue};
ghost use Rattle.off_http.specs.Reply.{is_reply_status};
ghost use Rattle.off_clerk_rules.specs.Faults.{word_of, status_of};
ghost use Rattle.off_clerk_rules.specs.Faults.{request_answer, http_answer, rule_answer};

use off_clerk_rules::{ClerkErr, Fault};
use off_http::HttpFault;
use off_orders::Rule;

// The status of an answer, and the word in it.
#[derive(Clone, Copy)]
struct Told {
    status: u16,
    word: &'static [u8],
}

/// The fault's word, in lower-case letters and dashes.
pub fn fault_word(f: &Fault) -> &'static [u8]
    ensures word { result.now ≡ word_of f.now }
    ensures short { length result.now ≤ 40 }
{
    answer_to(f).word
}

/// The status of the answer to the fault (RFC 9110, section 15): 400, 404, 405, 409, 413 or 422.
pub fn fault_status(f: &Fault) -> u16
    ensures exact { result ≡ status_of f.now }
    ensures known { IsTrue (is_reply_status result) }
{
    answer_to(f).status
}

fn answer_to(f: &Fault) -> Told
    ensures status { result.status ≡ status_of f.now }
    ensures word { result.word.now ≡ word_of f.now }
    ensures known { IsTrue (is_reply_status result.status) }
    ensures short { length result.word.now ≤ 40 }
{
    match *f {
        Fault::Clerk(err) => request_answer(err),
        Fault::Http(fault) => http_answer(fault),
        Fault::Rule { rule, .. } => rule_answer(rule),
    }
}

fn answer(status: u16, word: &'static [u8]) -> Told
    ensures status { result.status ≡ status }
    ensures word { result.word.now ≡ word.now }
{
    Told { status, word }
}

fn request_answer(err: ClerkErr) -> Told
    ensures status { result.status ≡ (request_answer err).status }
    ensures word { result.word.now ≡ (request_answer err).word }
    ensures known { IsTrue (is_reply_status result.status) }
    ensures short { length result.word.now ≤ 40 }
{
    match err {
        ClerkErr::NoPath => answer(404, b"no-path"),
        ClerkErr::NoMethod => answer(405, b"no-method"),
        ClerkErr::NotJson => answer(400, b"not-json"),
        ClerkErr::Field(_) => answer(400, b"field"),
        ClerkErr::Value(_) => answer(400, b"value"),
        ClerkErr::Import(fault) => answer(fault.status(), fault.word()),
    }
}

fn http_answer(fault: HttpFault) -> Told
    ensures status { result.status ≡ (http_answer fault).status }
    ensures word { result.word.now ≡ (http_answer fault).word }
    ensures known { IsTrue (is_reply_status result.status) }
    ensures short { length result.word.now ≤ 40 }
{
    match fault {
        HttpFault::Head => answer(400, b"head"),
        HttpFault::Body => answer(400, b"body"),
        HttpFault::TooLong => answer(413, b"too-long"),
    }
}

fn rule_answer(rule: Rule) -> Told
    ensures status { result.status ≡ (rule_answer rule).status }
    ensures word { result.word.now ≡ (rule_answer rule).word }
    ensures known { IsTrue (is_reply_status result.status) }
    ensures short { length result.word.now ≤ 40 }
{
    match rule {
        Rule::NoRow => answer(404, b"no-row"),
        Rule::HasModems => answer(409, b"has-modems"),
        Rule::ClassInUse => answer(409, b"class-in-use"),
        Rule::PoolOverlap(_) => answer(409, b"pool-overlap"),
        Rule::RelayTaken(_) => answer(409, b"relay-taken"),
        Rule::PoolHasLeases(_) => answer(409, b"pool-has-leases"),
        Rule::BatchDiffers(_) => answer(409, b"batch-differs"),
        Rule::HubInUse(_) => answer(409, b"hub-in-use"),
        Rule::DeviceOverlap(_) => answer(409, b"device-overlap"),
        Rule::NoSubscriber => answer(422, b"no-subscriber"),
        Rule::NoClass => answer(422, b"no-class"),
        Rule::NoHub => answer(422, b"no-hub"),
        Rule::PoolSize => answer(422, b"pool-size"),
        Rule::Tree(_) => answer(422, b"tree"),
        Rule::Limit(_, _) => answer(422, b"limit"),
        Rule::Site(_) => answer(422, b"site"),
    }
}
