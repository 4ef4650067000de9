ghost use Rattle.std.specs.Prelude.{◌≡◌, length, map, string_bytes, option_map};
ghost use Rattle.off_book.specs.Words.{import_of, kind_of};
ghost use Rattle.off_words.specs.Reading.{import_form_of, import_flags_stand};

use crate::words::is_store;
use off_base::read_number;
use off_defs::ImportKind;

/// The words of `import`, read.
#[derive(Clone, Copy)]
pub struct ImportForm<'a> {
    pub store: &'a str,
    pub kind: ImportKind,
    pub batch: u64,
}

/// Reads the words of `import`.
pub fn read_import_form(words: &[String]) -> Option<ImportForm<'_>>
    ensures { option_map import_form_of result ≡ import_of (map string_bytes words.now) }
{
    if words.len() != 5 {
        return None;
    }
    if !has_import_flags(words) {
        return None;
    }
    let Some(kind) = read_kind(words[3].as_str()) else {
        return None;
    };
    let Some(batch) = read_number(words[4].as_bytes(), u64::MAX) else {
        return None;
    };
    let store = words[2].as_str();
    if !is_store(store.as_bytes()) {
        return None;
    }
    Some(ImportForm { store, kind, batch })
}

// Whether the words that are the same in each command stand in their places.
fn has_import_flags(words: &[String]) -> bool
    requires { length words.now ≡ 5 }
    ensures { result ≡ import_flags_stand (map string_bytes words.now) }
{
    words[0].as_str() == "import" && words[1].as_str() == "--store"
}

// Which rows a word names.
fn read_kind(word: &str) -> Option<ImportKind>
    ensures { result ≡ kind_of word.now }
{
    if word == "subscribers" {
        return Some(ImportKind::Subscribers);
    }
    if word == "modems" {
        return Some(ImportKind::Modems);
    }
    None
}
