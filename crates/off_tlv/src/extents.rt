ghost use Rattle.std.specs.Prelude.{◌≡◌, ◌<◌, ◌≤◌, List, length, true, Ok, Err, replicate};
ghost use Rattle.std.specs.Prelude.{MatchOption, MatchResult};
ghost use Rattle.off_base.specs.Tree.{Tree, spelling};
ghost use Rattle.off_tlv.specs.Grammar.{is_code, in_file, FileOf, EndsAt};
ghost use Rattle.off_tlv.specs.Fault.{CutAt, IsFirstFault};
ghost use Rattle.off_tlv.specs.Front.{Front, IsSetting, CutWithin, FirstOther};
ghost use Rattle.off_tlv.specs.Seen.{level_of};

use crate::faults::ReadFault;
use crate::levels::{Level, PAD};
use crate::walks::value_at;

/// The place of the end marker of a file by the grammar, or the file's first fault
/// (CM-SP-MULPIv3.1, annex D.1). It takes no memory.
pub fn extent(file: &[u8]) -> Result<usize, ReadFault>
    ensures found { MatchResult result (EndsAt file.now) (IsFirstFault file.now) }
    ensures only { (trees : List Tree) → FileOf file.now trees
        → result ≡ Ok (length (spelling trees)) }
    ensures first { (fault : ReadFault) → IsFirstFault file.now fault → result ≡ Err fault }
{
    found_extent(file)
}

fn found_extent(file: &[u8]) -> Result<usize, ReadFault>
    ensures { MatchResult result (EndsAt file.now) (IsFirstFault file.now) }
{
    match front(Level::File, file) {
        Err(cut) => Err(ReadFault::Cut(cut)),
        Ok(end) => marked_end(file, end),
    }
}

// The place behind a file's settings, where the end marker stands there and nothing but zeros
// behind it.
fn marked_end(file: &[u8], end: usize) -> Result<usize, ReadFault>
    requires { Front in_file file.now end }
    ensures { MatchResult result (EndsAt file.now) (IsFirstFault file.now) }
{
    if end >= file.len() {
        return Err(ReadFault::NoEnd);
    }
    if file[end] == PAD {
        return Err(ReadFault::EarlyPad(end));
    }
    let start = end + 1;
    match first_other(&file[start..]) {
        None => Ok(end),
        Some(pads) => Err(ReadFault::AfterEnd(start + pads)),
    }
}

// The place of the first byte that isn't zero.
fn first_other(bytes: &[u8]) -> Option<usize>
    ensures { MatchOption result (bytes.now ≡ replicate (length bytes.now) PAD)
        (FirstOther bytes.now) }
{
    for (place, byte) in bytes.iter().enumerate() {
        if *byte != PAD {
            return Some(place);
        }
    }
    None
}

// How far the settings of a level reach from the first byte on, or the place of the first that
// passes the end.
#[cycle(front)]
pub(crate) fn front(level: Level, bytes: &[u8]) -> Result<usize, usize>
    ensures { MatchResult result (Front (level_of level) bytes.now)
        (CutAt (level_of level) bytes.now) }
{
    let mut place = 0;
    while place < bytes.len() {
        let code = bytes[place];
        if !level.has(code) {
            return Ok(place);
        }
        let Some(value) = value_at(bytes, place) else {
            return Err(place);
        };
        if let Err(cut) = check_value(level, code, value) {
            return Err(place + 2 + cut);
        }
        place += 2 + value.len();
    }
    Ok(place)
}

// The place of the first setting in a group's value that passes its end. A leaf's value has none.
#[cycle(front)]
fn check_value(level: Level, code: u8, value: &[u8]) -> Result<(), usize>
    requires has { is_code (level_of level) code ≡ true }
    requires byte { length value.now ≤ 255 }
    ensures { MatchResult result (λ _. IsSetting (level_of level) code value.now)
        (CutWithin (level_of level) code value.now) }
{
    if !level.is_group(code) {
        return Ok(());
    }
    match front(level.inside(code), value) {
        Ok(_) => Ok(()),
        Err(cut) => Err(cut),
    }
}
