ghost use Rattle.std.specs.Prelude.{◌≡◌, List, Err, IfOk, MatchResult};
ghost use Rattle.off_base.specs.Tree.{Tree, spelling};
ghost use Rattle.off_base.specs.Setting.{tree_of};
ghost use Rattle.off_tlv.specs.Grammar.{AllStand, FileOf};
ghost use Rattle.off_tlv.specs.Fault.{IsFirstFault};
ghost use Rattle.off_tlv.specs.Front.{IsSpelled, IsSetting, SpellsSetting};
ghost use Rattle.off_tlv.specs.Told.{WhyNotRead, Gives};
ghost use Rattle.off_tlv.specs.Seen.{level_of};
ghost use Rattle.off_tlv.specs.declared.faults.FileErr.TheVariants.{Read};
ghost use Rattle.off_tlv.specs.declared.faults.ReadFault.{ReadFault};

use crate::extents::extent;
use crate::faults::FileErr;
use crate::levels::Level;
use crate::walks::value_at;
use off_base::{Bytes, NoMemory, Setting, Settings};
use std::alloc::Global;

/// The settings that a file spells, or why there are none (CM-SP-MULPIv3.1, annex D.1). Want of
/// memory comes only where the file is good.
pub fn read_settings(alloc: Global, file: &[u8]) -> Result<Settings, FileErr>
    ensures found { MatchResult result (FileOf file.now) (WhyNotRead file.now) }
    ensures only { (trees : List Tree) → FileOf file.now trees → Gives trees result }
    ensures first { (fault : ReadFault) → IsFirstFault file.now fault → result ≡ Err (Read fault) }
{
    found_settings(alloc, file)
}

fn found_settings(alloc: Global, file: &[u8]) -> Result<Settings, FileErr>
    ensures { MatchResult result (FileOf file.now) (WhyNotRead file.now) }
{
    let end = match extent(file) {
        Ok(end) => end,
        Err(fault) => return Err(FileErr::Read(fault)),
    };
    match settings_of(alloc, Level::File, &file[..end]) {
        Ok(settings) => Ok(settings),
        Err(NoMemory) => Err(FileErr::Memory),
    }
}

// The settings of a level that spell the bytes.
#[cycle(settings)]
fn settings_of(alloc: Global, level: Level, bytes: &[u8]) -> Result<Settings, NoMemory>
    requires { IsSpelled (level_of level) bytes.now }
    ensures { IfOk result
        (λ settings. AllStand (level_of level) settings × (bytes.now ≡ spelling settings)) }
{
    let mut settings = Settings::new(alloc);
    let mut place = 0;
    while place < bytes.len() {
        let Some(value) = value_at(bytes, place) else {
            unreachable!()
        };
        settings.push(setting_of(alloc, level, bytes[place], value)?)?;
        place += 2 + value.len();
    }
    Ok(settings)
}

// The setting of a level that has the code and the value.
#[cycle(settings)]
fn setting_of(alloc: Global, level: Level, code: u8, value: &[u8]) -> Result<Setting, NoMemory>
    requires { IsSetting (level_of level) code value.now }
    ensures { IfOk result
        (λ setting. SpellsSetting (level_of level) code value.now (tree_of setting)) }
{
    if level.is_group(code) {
        let parts = settings_of(alloc, level.inside(code), value)?;
        return Ok(Setting::Group { code, parts });
    }
    let mut bytes = Bytes::new(alloc);
    bytes.push_all(value)?;
    Ok(Setting::Leaf { code, value: bytes })
}
