ghost use Rattle.std.specs.Prelude.{◌≡◌, ◌++◌, codes, option_map, IfOk, OnOk};
ghost use Rattle.off_clerk_rules.specs.Faults.{fault_text, detail_of, request_answer};
ghost use Rattle.off_clerk_rules.specs.Faults.{rule_answer, tree_number};
ghost use Rattle.off_import_rules.specs.Faults.{fault_detail};
ghost use Rattle.off_clerk.specs.Details.{detail_text};

use crate::texts::{push_address, push_number};
use crate::words::fault_word;
use off_base::{Bytes, Ip4, NoMemory};
use off_clerk_rules::{ClerkErr, Fault, Name};
use off_import::{FaultText, fault_detail};
use off_import_rules::ImportFault;
use off_orders::Rule;
use off_tree::TreeFault;
use std::alloc::Global;

// Where the fault is, or what stands against the command.
#[derive(Drop)]
enum Detail {
    Field(Name),
    Number(u64),
    Address(Ip4),
    Import(FaultText),
}

/// The fault as a JSON object: its word, and where it is.
///
/// The only error is want of memory.
pub fn fault_json(alloc: Global, f: &Fault) -> Result<Bytes, NoMemory>
    ensures { IfOk result (λ text. text ≡ fault_text f.now) }
{
    let word = fault_word(f);
    match place_of(f) {
        Some(detail) => detailed(alloc, detail, word),
        None => plain(alloc, word),
    }
}

fn plain(alloc: Global, word: &[u8]) -> Result<Bytes, NoMemory>
    ensures { IfOk result (λ text. text ≡ codes "{\"fault\":\"" ++ word.now ++ codes "\"}") }
{
    let mut text = Bytes::new(alloc);
    text.push_all(b"{\"fault\":\"")?;
    text.push_all(word)?;
    text.push_all(b"\"}")?;
    Ok(text)
}

fn detailed(alloc: Global, detail: Detail, word: &[u8]) -> Result<Bytes, NoMemory>
    ensures { IfOk result (λ text. text ≡ codes "{\"at\":\"" ++ detail_text detail
        ++ codes "\",\"fault\":\"" ++ word.now ++ codes "\"}") }
{
    let mut text = Bytes::new(alloc);
    text.push_all(b"{\"at\":\"")?;
    push_detail(&mut text, detail)?;
    text.push_all(b"\",\"fault\":\"")?;
    text.push_all(word)?;
    text.push_all(b"\"}")?;
    Ok(text)
}

fn push_detail(text: &mut Bytes, detail: Detail) -> Result<(), NoMemory>
    ensures { OnOk result (text.new ≡ text.old ++ detail_text detail) }
{
    match detail {
        Detail::Field(name) => text.push_all(name.text().as_bytes()),
        Detail::Number(number) => push_number(text, number),
        Detail::Address(address) => push_address(text, address),
        Detail::Import(place) => text.push_all(place.as_slice()),
    }
}

fn place_of(f: &Fault) -> Option<Detail>
    ensures { option_map detail_text result ≡ detail_of f.now }
{
    match *f {
        Fault::Clerk(err) => field_of(err),
        Fault::Http(_) => None,
        Fault::Rule { row, rule } => {
            if row == 0 {
                cause_of(rule)
            } else {
                Some(Detail::Number(u64::from(row)))
            }
        }
    }
}

fn field_of(err: ClerkErr) -> Option<Detail>
    ensures { option_map detail_text result ≡ (request_answer err).about }
{
    match err {
        ClerkErr::Field(name) => Some(Detail::Field(name)),
        ClerkErr::Value(name) => Some(Detail::Field(name)),
        ClerkErr::Import(fault) => place_in_import(fault),
        ClerkErr::NoPath => None,
        ClerkErr::NoMethod => None,
        ClerkErr::NotJson => None,
    }
}

fn place_in_import(fault: ImportFault) -> Option<Detail>
    ensures { option_map detail_text result ≡ fault_detail fault }
{
    match fault_detail(fault) {
        Some(place) => Some(Detail::Import(place)),
        None => None,
    }
}

fn cause_of(rule: Rule) -> Option<Detail>
    ensures { option_map detail_text result ≡ (rule_answer rule).about }
{
    match rule {
        Rule::PoolOverlap(pool) => Some(Detail::Number(u64::from(pool))),
        Rule::RelayTaken(pool) => Some(Detail::Number(u64::from(pool))),
        Rule::PoolHasLeases(address) => Some(Detail::Address(address)),
        Rule::Tree(fault) => Some(Detail::Number(tree_number(fault))),
        Rule::BatchDiffers(batch) => Some(Detail::Number(batch)),
        Rule::HubInUse(pool) => Some(Detail::Number(u64::from(pool))),
        Rule::DeviceOverlap(pool) => Some(Detail::Number(u64::from(pool))),
        Rule::Limit(_, most) => Some(Detail::Number(u64::from(most))),
        Rule::Site(field) => Some(Detail::Number(u64::from(field))),
        _ => None,
    }
}

fn tree_number(fault: TreeFault) -> u64
    ensures { result ≡ tree_number fault }
{
    match fault {
        TreeFault::UnknownCode(_) => 1,
        TreeFault::Length(_) => 2,
        TreeFault::Range(_) => 3,
        TreeFault::Missing(_) => 4,
        TreeFault::Twice(_) => 5,
        TreeFault::FlowReference(_) => 6,
        TreeFault::ClassifierReference(_) => 7,
        TreeFault::TooLong(_) => 8,
    }
}
