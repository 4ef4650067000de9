//! Answers questions of examples on what clerks ask, a line each: HTTP requests and replies,
//! commands and their JSON texts, faults, and the counts of tables.
//!
//! `tests/examples/README.md` says how a question is written. The text that is expected comes from
//! the standards' rules, docs/CLERK_API.md and `tests/examples/clerks.py`, and never from what is
//! answered here.
#![tactic(auto)]

mod commands;
mod counting;
mod deciding;
mod faults;
mod sessions;

use script_words::{Answers, Line, Page, Unread};
use std::alloc::Global;

/// The words of clerks' questions.
pub struct Clerks;

impl Answers for Clerks {
    fn answer(&self, alloc: Global, page: &mut Page, text: &[u8]) -> Result<(), Unread> {
        let mut line = Line::over(text);
        match line.word() {
            b"http" => sessions::http(alloc, page, line),
            b"reply" => sessions::reply(alloc, page, line),
            b"ask" => commands::ask(alloc, page, line),
            b"ask-bytes" => commands::ask_bytes(alloc, page, line),
            b"lease" => commands::lease(alloc, page, line),
            b"done" => commands::done(alloc, page),
            b"rows" => commands::rows(alloc, page, line),
            b"rule" => faults::rule(alloc, page, line),
            b"head" => faults::head(alloc, page),
            b"count" => counting::count(alloc, page, line),
            b"writes" => counting::writes(alloc, page, line),
            b"decide" => deciding::show_decision(alloc, page, line),
            _ => Err(Unread::Words),
        }
    }
}
