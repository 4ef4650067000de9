ghost use Rattle.std.specs.Prelude.{◌≡◌, ◌↔◌, IsTrue};
ghost use Rattle.off_base.specs.Tree.{AllFit};
ghost use Rattle.off_rows.specs.RowBytes.{IsOfKind, SettingsStand, IsShortSpelling};
ghost use Rattle.off_tlv.specs.Grammar.{in_file, AllStand};
ghost use Rattle.off_spelled.specs.RowKinds.{kind_at, row_kind};

use off_base::Settings;
use off_defs::{Key, Row};
use off_tlv::{is_shaped, spelled_len};

/// The longest spelling of settings whose length two bytes can say.
const MOST_SPELLING: usize = 65_535;

/// Whether the row is of the key's kind, and its settings can be read back.
#[tactic(auto, using(crate::proofs::SpellLemmas::of_kind, crate::proofs::SpellLemmas::kind_is))]
pub fn can_store(key: Key, row: &Row) -> bool
    ensures { IsTrue result ↔ (IsOfKind key row.now × SettingsStand row.now) }
{
    kind_at(key) == row_kind(row) && settings_stand(row)
}

// The kind of the rows that a key may have.
fn kind_at(key: Key) -> u8
    ensures { result ≡ kind_at key }
{
    match key {
        Key::Site => 1,
        Key::Subscriber(_) => 2,
        Key::AddOn(_, _) => 3,
        Key::Modem(_) => 4,
        Key::Class(_) => 5,
        Key::Pool(_) => 6,
        Key::Lease(_) => 7,
        Key::Held(_) => 8,
        Key::Batch(_) => 9,
        Key::Hub(_) => 1,
        Key::PoolHub(_) => 10,
        Key::DevicePool(_) => 6,
        Key::Device(_) => 11,
    }
}

fn row_kind(row: &Row) -> u8
    ensures { result ≡ row_kind row.now }
{
    match row {
        Row::Site(_) => 1,
        Row::Subscriber(_) => 2,
        Row::AddOn(_) => 3,
        Row::Modem(_) => 4,
        Row::Class(_) => 5,
        Row::Pool(_) => 6,
        Row::Lease(_) => 7,
        Row::Held(_) => 8,
        Row::Batch(_) => 9,
        Row::PoolHub(_) => 10,
        Row::Device(_) => 11,
    }
}

fn settings_stand(row: &Row) -> bool
    ensures { IsTrue result ↔ SettingsStand row.now }
{
    match row {
        Row::AddOn(settings) => stand(settings.as_settings()),
        Row::Class(class) => stand(class.settings.as_settings()),
        Row::Site(_) => true,
        Row::Subscriber(_) => true,
        Row::Modem(_) => true,
        Row::Pool(_) => true,
        Row::Lease(_) => true,
        Row::Held(_) => true,
        Row::Batch(_) => true,
        Row::PoolHub(_) => true,
        Row::Device(_) => true,
    }
}

// Whether settings are as a configuration file has them, and two bytes can say how long they are.
#[tactic(auto, using(crate::proofs::SpellLemmas::stand_rules))]
fn stand(settings: &Settings) -> bool
    ensures { IsTrue result ↔ (AllStand in_file settings.now × IsShortSpelling settings.now) }
{
    is_shaped(settings) && are_short(settings)
}

fn are_short(settings: &Settings) -> bool
    ensures { IsTrue result ↔ (AllFit settings.now × IsShortSpelling settings.now) }
{
    match spelled_len(settings) {
        Some(length) => length <= MOST_SPELLING,
        None => false,
    }
}
