ghost use Rattle.std.specs.Prelude.{◌≡◌, ◌==◌, ◌≤◌, [], ◌∷◌, length, map, string_bytes};
ghost use Rattle.std.specs.Prelude.{option_map, MatchOption};
ghost use Rattle.std.specs.List.{position_or_len};
ghost use Rattle.off_book.specs.Words.{serve_of, between_commas, four_ports, ports_of, port_of};
ghost use Rattle.off_book.specs.Words.{is_store};
ghost use Rattle.off_words.specs.Reading.{form_of, places_of, places_wanted, flags_stand};

use crate::drill_words::read_drill_form;
use crate::import_words::read_import_form;
use off_base::read_number;

/// The greatest number of events that `serve` may be asked to take.
pub const MOST_TURNS: u64 = 1_000_000_000_000_000;

/// What the words ask main to make: the store, and the ports of DHCP, time, TFTP and HTTP in this
/// order.
#[derive(Clone, Copy)]
pub struct Wanted<'a> {
    pub store: &'a str,
    pub ports: [u16; 4],
}

/// The words of `serve`, read.
#[derive(Clone, Copy)]
pub struct Form<'a> {
    pub store: &'a str,
    pub ports: [u16; 4],
    pub turns: u64,
}

/// What main is to make for these words, which stand behind the program's name.
///
/// `None` comes exactly where the words are none of the forms
/// `serve --store STORE --ports DHCP,TIME,TFTP,HTTP --turns N`, `import --store STORE KIND BATCH`
/// and `drill MODEMS`. The ports of the last two are 0, since they take no events, and the store of
/// `drill` is `memory`.
pub fn place(words: &[String]) -> Option<Wanted<'_>>
    ensures { option_map places_of result ≡ places_wanted (map string_bytes words.now) }
{
    if let Some(form) = read_form(words) {
        return Some(Wanted {
            store: form.store,
            ports: form.ports,
        });
    }
    if let Some(form) = read_import_form(words) {
        return Some(Wanted {
            store: form.store,
            ports: [0; 4],
        });
    }
    match read_drill_form(words) {
        Some(_modems) => Some(Wanted {
            store: "memory",
            ports: [0; 4],
        }),
        None => None,
    }
}

/// Reads the words of `serve`.
pub fn read_form(words: &[String]) -> Option<Form<'_>>
    ensures { option_map form_of result ≡ serve_of (map string_bytes words.now) }
{
    if words.len() != 7 {
        return None;
    }
    if !has_flags(words) {
        return None;
    }
    let Some(ports) = read_ports(words[4].as_bytes()) else {
        return None;
    };
    let Some(turns) = read_number(words[6].as_bytes(), MOST_TURNS) else {
        return None;
    };
    let store = words[2].as_str();
    if !is_store(store.as_bytes()) {
        return None;
    }
    Some(Form {
        store,
        ports,
        turns,
    })
}

// Whether the words that are the same in each command stand in their places.
fn has_flags(words: &[String]) -> bool
    requires { length words.now ≡ 7 }
    ensures { result ≡ flags_stand (map string_bytes words.now) }
{
    words[0].as_str() == "serve"
        && words[1].as_str() == "--store"
        && words[3].as_str() == "--ports"
        && words[5].as_str() == "--turns"
}

/// `memory`, or a path that isn't empty and doesn't begin with `-`.
pub(crate) fn is_store(text: &[u8]) -> bool
    ensures { result ≡ is_store text.now }
{
    !text.is_empty() && text[0] != b'-'
}

// Four ports with commas between them.
#[tactic(auto, using(off_book::proofs::WordLemmas::ports_between_commas))]
fn read_ports(text: &[u8]) -> Option<[u16; 4]>
    ensures { result ≡ ports_of text.now }
{
    let (first, behind_first) = cut_at_comma(text)?;
    let (second, behind_second) = cut_at_comma(behind_first)?;
    let (third, fourth) = cut_at_comma(behind_second)?;
    if let Some((_fourth, _fifth)) = cut_at_comma(fourth) {
        return None;
    }
    four_ports(first, second, third, fourth)
}

// The ports that four texts spell, if each spells one.
fn four_ports(dhcp: &[u8], time: &[u8], tftp: &[u8], http: &[u8]) -> Option<[u16; 4]>
    ensures { result ≡ four_ports (map port_of (dhcp.now ∷ time.now ∷ tftp.now ∷ http.now ∷ [])) }
{
    Some([
        read_port(dhcp)?,
        read_port(time)?,
        read_port(tftp)?,
        read_port(http)?,
    ])
}

// A port from 1 to 65535.
fn read_port(text: &[u8]) -> Option<u16>
    ensures { result ≡ port_of text.now }
{
    let Some(number) = read_number(text, 65_535) else {
        return None;
    };
    if number == 0 {
        return None;
    }
    Some(number as u16)
}

// The texts before and behind the first comma, or `None` where there is none.
#[tactic(auto, using(off_book::proofs::WordLemmas::ports_between_commas))]
fn cut_at_comma(text: &[u8]) -> Option<(&[u8], &[u8])>
    ensures { MatchOption result
        (between_commas text.now ≡ text.now ∷ [])
        (λ cut. between_commas text.now ≡ cut.0.now ∷ between_commas cut.1.now) }
{
    let at = comma_in(text);
    if at < text.len() {
        Some((&text[..at], &text[at + 1..]))
    } else {
        None
    }
}

// The place of the first comma, or the length where there is none.
fn comma_in(text: &[u8]) -> usize
    ensures place { result ≡ position_or_len (λ byte. byte == 44) text.now }
    ensures within { result ≤ length text.now }
{
    for (i, byte) in text.iter().enumerate() {
        if *byte == b',' {
            return i;
        }
    }
    text.len()
}
