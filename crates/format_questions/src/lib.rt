//! Answers questions of examples on formats, a line each: numbers and addresses, configuration
//! files and their MICs, trees of settings, keys and rows, imports, DHCP messages and the parts of
//! their options, relays' queries.
//!
//! `tests/examples/README.md` says how a question is written. The text that is expected comes from
//! public vectors, the standards' tables and `tests/examples/formats.py`, and never from what is
//! answered here.
#![tactic(auto)]

mod files;
mod imports;
mod messages;
mod replies;
mod tables;
mod texts;
mod trees;

use script_words::{Answers, Line, Page, Unread};
use std::alloc::Global;

/// The words of questions on formats.
pub struct Formats;

impl Answers for Formats {
    fn answer(&self, alloc: Global, page: &mut Page, text: &[u8]) -> Result<(), Unread> {
        let mut line = Line::over(text);
        match line.word() {
            b"number" => texts::number(alloc, page, line),
            b"mac" => texts::mac(alloc, page, line),
            b"ip" => texts::ip(alloc, page, line),
            b"secret" => texts::secret(alloc, page, line),
            b"short" => texts::short(alloc, page, line),
            b"extent" => files::extent_of(alloc, page, line),
            b"read" => files::read(alloc, page, line),
            b"spell" => files::spell(alloc, page, line),
            b"walk" => files::walk(alloc, page, line),
            b"hmac" => files::hmac(alloc, page, line),
            b"mics" => files::mics(alloc, page, line),
            b"seal" => files::seal_of(alloc, page, line),
            b"verify" => files::verify_of(alloc, page, line),
            b"class" => trees::class(alloc, page, line),
            b"add-on" => trees::add_on(alloc, page, line),
            b"fit" => trees::fit(alloc, page, line),
            b"key" => tables::key(page, line),
            b"key-of" => tables::key_of(alloc, page, line),
            b"row-of" => tables::row_of(alloc, page, line),
            b"sound" => tables::is_sound(alloc, page, line),
            b"import" => imports::import(alloc, page, line),
            b"options" => messages::options(alloc, page, line),
            b"option" => messages::option(alloc, page, line),
            b"relay" => messages::relay_of(alloc, page, line),
            b"device" => messages::device_of(alloc, page, line),
            b"docsis" => messages::docsis(alloc, page, line),
            b"dhcp" => messages::dhcp(alloc, page, line),
            b"dhcp-option" => messages::dhcp_option(alloc, page, line),
            b"query" => messages::query(alloc, page, line),
            b"offer" => replies::offer(alloc, page, line),
            b"nak" => replies::nak(alloc, page, line),
            _ => Err(Unread::Words),
        }
    }
}
