use off_clerk::{Fault, fault_json, fault_status, fault_word};
use off_defs::Kind;
use off_http::HttpFault;
use off_orders::Rule;
use off_tree::{Path, TreeFault};
use script_words::{Line, Page, Unread};
use std::alloc::Global;

/// Prints the status, the word and the JSON text of a fault.
pub fn show_fault(alloc: Global, page: &mut Page, fault: &Fault) -> Result<(), Unread> {
    page.number(u64::from(fault_status(fault)))?;
    page.text(" ")?;
    page.raw(fault_word(fault))?;
    page.text(" ")?;
    let text = fault_json(alloc, fault)?;
    Ok(page.raw(text.as_slice())?)
}

/// `head`: the three faults of bytes that are no request.
pub fn head(alloc: Global, page: &mut Page) -> Result<(), Unread> {
    show_fault(alloc, page, &Fault::Http(HttpFault::Head))?;
    page.text("; ")?;
    show_fault(alloc, page, &Fault::Http(HttpFault::Body))?;
    page.text("; ")?;
    show_fault(alloc, page, &Fault::Http(HttpFault::TooLong))
}

/// `rule 3 pool-overlap 2`: how a broken rule is told, at a row of an import or at row 0.
pub fn rule(alloc: Global, page: &mut Page, line: Line<'_>) -> Result<(), Unread> {
    let mut line = line;
    let row = line.count()?;
    let rule = read_rule(&mut line)?;
    show_fault(alloc, page, &Fault::Rule { row, rule })
}

fn read_rule(line: &mut Line<'_>) -> Result<Rule, Unread> {
    match line.word() {
        b"no-row" => Ok(Rule::NoRow),
        b"has-modems" => Ok(Rule::HasModems),
        b"class-in-use" => Ok(Rule::ClassInUse),
        b"pool-overlap" => Ok(Rule::PoolOverlap(line.count()?)),
        b"relay-taken" => Ok(Rule::RelayTaken(line.count()?)),
        b"pool-has-leases" => Ok(Rule::PoolHasLeases(line.address()?)),
        b"batch-differs" => Ok(Rule::BatchDiffers(line.number(u64::MAX)?)),
        b"no-hub" => Ok(Rule::NoHub),
        b"hub-in-use" => Ok(Rule::HubInUse(line.count()?)),
        b"device-overlap" => Ok(Rule::DeviceOverlap(line.count()?)),
        b"no-subscriber" => Ok(Rule::NoSubscriber),
        b"no-class" => Ok(Rule::NoClass),
        b"pool-size" => Ok(Rule::PoolSize),
        b"limit" => Ok(Rule::Limit(read_kind(line.word())?, line.count()?)),
        b"site" => Ok(Rule::Site(line.byte()?)),
        b"tree" => Ok(Rule::Tree(read_fault(line)?)),
        _ => Err(Unread::Words),
    }
}

fn read_kind(word: &[u8]) -> Result<Kind, Unread> {
    match word {
        b"subscribers" => Ok(Kind::Subscribers),
        b"add-ons" => Ok(Kind::AddOns),
        b"modems" => Ok(Kind::Modems),
        b"classes" => Ok(Kind::Classes),
        b"pools" => Ok(Kind::Pools),
        b"batches" => Ok(Kind::Batches),
        b"hubs" => Ok(Kind::Hubs),
        b"device-pools" => Ok(Kind::DevicePools),
        _ => Err(Unread::Words),
    }
}

// Where the faults of settings are: at setting 3.
const PLACE: Path = Path {
    depth: 1,
    a: 3,
    b: 0,
    c: 0,
};

fn read_fault(line: &mut Line<'_>) -> Result<TreeFault, Unread> {
    match line.word() {
        b"unknown-code" => Ok(TreeFault::UnknownCode(PLACE)),
        b"length" => Ok(TreeFault::Length(PLACE)),
        b"range" => Ok(TreeFault::Range(PLACE)),
        b"missing" => Ok(TreeFault::Missing(PLACE)),
        b"twice" => Ok(TreeFault::Twice(PLACE)),
        b"flow-reference" => Ok(TreeFault::FlowReference(9)),
        b"classifier-reference" => Ok(TreeFault::ClassifierReference(9)),
        b"too-long" => Ok(TreeFault::TooLong(9)),
        _ => Err(Unread::Words),
    }
}
