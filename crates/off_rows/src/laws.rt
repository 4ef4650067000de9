//! Laws of keys and rows. What the functions do is of no use; their contracts are the laws.
ghost use Rattle.std.specs.Prelude.{◌≡◌, Some};
ghost use Rattle.off_rows.specs.Laws.{OrderedAsBytes, OneKey, OneSpelling, RowsReadBack};
ghost use Rattle.off_rows.specs.Laws.{OneBadPlace};

use crate::keys::{decode_key, encode_key};
use off_defs::Key;

/// The order of keys is the order of their bytes.
#[tactic(auto, using(crate::proofs::KeyOrder::ordered_as_bytes))]
pub fn keys_are_ordered_as_their_bytes()
    ensures { OrderedAsBytes }
{}

/// Different keys have different bytes.
#[tactic(auto, using(crate::proofs::KeyOrder::one_key))]
pub fn a_key_has_its_own_bytes()
    ensures { OneKey }
{}

/// `decode_key` gives back the key whose bytes `encode_key` gave.
pub fn a_key_is_read_back(k: &Key) -> Option<Key>
    ensures { result ≡ Some k.now }
{
    decode_key(encode_key(k).as_slice())
}

/// A row has one spelling, and bytes are the spelling of at most one row of a kind.
pub fn a_row_has_one_spelling()
    ensures { OneSpelling }
{}

/// `decode` gives back the row whose bytes `encode` gave, where its settings are as the grammar of
/// configuration files wants them.
#[tactic(auto, using(crate::proofs::Rows::rows_read_back))]
pub fn a_row_is_read_back()
    ensures { RowsReadBack }
{}

/// The place of the first byte that can't be read is one.
#[tactic(auto, using(crate::proofs::Rows::one_bad_place))]
pub fn a_bad_place_is_one()
    ensures { OneBadPlace }
{}
