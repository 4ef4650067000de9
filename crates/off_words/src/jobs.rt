ghost use Rattle.std.specs.Prelude.{◌≡◌, ◌/◌, length, map, string_bytes, option_map, IfSome};
ghost use Rattle.off_book.specs.Words.{job_of, secret_of};
ghost use Rattle.off_words.specs.Reading.{asked_for, DrillsFew, keyed_secret, IsDecoded};

use crate::drill_words::read_drill_form;
use crate::import_words::{ImportForm, read_import_form};
use crate::words::{Form, read_form};
use off_base::Secret;

/// What the words ask for.
#[derive(Drop)]
pub enum Asked<'a> {
    Serve(Form<'a>),
    Import(ImportForm<'a>),
    /// To boot so many modems.
    Drill(u32),
    Seal(Secret),
    Check(Secret),
}

/// Reads the words, which stand behind the program's name. `None` comes exactly where they fit no
/// form.
pub fn read_words(words: &[String]) -> Option<Asked<'_>>
    ensures job { option_map asked_for result ≡ job_of (map string_bytes words.now) }
    ensures few { IfSome result DrillsFew }
{
    if let Some(form) = read_form(words) {
        return Some(Asked::Serve(form));
    }
    if let Some(form) = read_import_form(words) {
        return Some(Asked::Import(form));
    }
    if let Some(modems) = read_drill_form(words) {
        return Some(Asked::Drill(modems));
    }
    if let Some(secret) = read_keyed(words, "seal") {
        return Some(Asked::Seal(secret));
    }
    if let Some(secret) = read_keyed(words, "check") {
        return Some(Asked::Check(secret));
    }
    None
}

// The secret of a command and its secret, where the words are these two.
fn read_keyed(words: &[String], command: &str) -> Option<Secret>
    ensures { result ≡ keyed_secret command.now (map string_bytes words.now) }
{
    if words.len() != 2 {
        return None;
    }
    if words[0].as_str() != command {
        return None;
    }
    read_secret(words[1].as_bytes())
}

// A secret of 1 to 64 bytes in hexadecimal pairs.
fn read_secret(text: &[u8]) -> Option<Secret>
    ensures { result ≡ secret_of text.now }
{
    if text.is_empty() {
        return None;
    }
    if text.len() > 128 {
        return None;
    }
    let mut bytes = [0u8; 64];
    let count = text.len() / 2;
    if !decoded(text, &mut bytes[..count]) {
        return None;
    }
    Secret::read(&bytes[..count])
}

// Puts the bytes of hexadecimal pairs into their room, and tells whether the text is such pairs.
fn decoded(text: &[u8], room: &mut [u8]) -> bool
    requires { length room.old ≡ length text.now / 2 }
    ensures { IsDecoded result text.now room.new }
{
    match hex::decode_to_slice(text, room) {
        Ok(()) => true,
        Err(_fault) => false,
    }
}
