ghost use Rattle.std.specs.Prelude.{◌≡◌, ◌≤◌, map, string_bytes, IfSome};
ghost use Rattle.off_book.specs.Words.{drill_of, drilled_of};

use off_base::read_number;

// The greatest number of modems that a drill boots.
const MOST_DRILLED: u64 = 4_000;

/// Reads the words of `drill`: how many modems it is to boot, from 1 to 4,000.
#[tactic(auto, unfolding(off_book::specs::Words::drill_of))]
pub fn read_drill_form(words: &[String]) -> Option<u32>
    ensures form { result ≡ drill_of (map string_bytes words.now) }
    ensures few { IfSome result (λ modems. modems ≤ 4000) }
{
    if words.len() != 2 {
        return None;
    }
    if words[0].as_str() != "drill" {
        return None;
    }
    read_modems(words[1].as_bytes())
}

// How many modems a text says.
fn read_modems(text: &[u8]) -> Option<u32>
    ensures form { result ≡ drilled_of text.now }
    ensures few { IfSome result (λ modems. modems ≤ 4000) }
{
    let modems = read_number(text, MOST_DRILLED)?;
    if modems == 0 {
        return None;
    }
    Some(modems as u32)
}
