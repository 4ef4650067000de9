ghost use Rattle.std.specs.Prelude.{◌≡◌, ◌↔◌, IsTrue};
ghost use Rattle.off_base.specs.Tree.{row_of};
ghost use Rattle.off_base.specs.Setting.{tree_of};
ghost use Rattle.off_tlv.specs.Grammar.{in_file, AllShaped};
ghost use Rattle.off_tlv.specs.Front.{is_shaped, row_is_shaped};
ghost use Rattle.off_tlv.specs.Seen.{level_of};

use crate::levels::Level;
use off_base::{Setting, Settings};

/// Whether settings have the shape of a file's (CM-SP-MULPIv3.1, annexes C and D.1): groups stand
/// exactly where the grammar has them, and none has the code of a pad or of the end marker.
///
/// It takes no memory.
#[tactic(auto, using(crate::proofs::ShapeLemmas::answers))]
pub fn is_shaped(settings: &Settings) -> bool
    ensures { IsTrue result ↔ AllShaped in_file settings.now }
{
    are_shaped(Level::File, settings)
}

// Whether each of the settings of a level has its shape.
#[cycle(shaped)]
fn are_shaped(level: Level, settings: &Settings) -> bool
    ensures { result ≡ row_is_shaped (level_of level) (row_of settings.now) }
{
    for place in 0..settings.len() {
        if !has_shape(level, settings.get(place)) {
            return false;
        }
    }
    true
}

#[cycle(shaped)]
fn has_shape(level: Level, setting: &Setting) -> bool
    ensures { result ≡ is_shaped (level_of level) (tree_of setting.now) }
{
    match setting {
        Setting::Leaf { code, .. } => level.has(*code) && !level.is_group(*code),
        Setting::Group { code, parts } => {
            level.has(*code) && level.is_group(*code) && are_shaped(level.inside(*code), parts)
        }
    }
}
