//! The one spelling of what the tables hold: keys and rows.
//!
//! A key and a row have one list of bytes each, which a keeper stores. `decode` names the place of
//! the first byte that can't be read. `key_text` is what the log says of a key.
#![tactic(auto)]

mod devices;
mod faults;
mod fields;
mod keys;
mod laws;
mod reading;
mod writing;

pub use faults::RowErr;
pub use keys::{KeyBytes, decode_key, encode_key};
pub use laws::{
    a_bad_place_is_one, a_key_has_its_own_bytes, a_key_is_read_back, a_row_has_one_spelling,
    a_row_is_read_back, keys_are_ordered_as_their_bytes,
};
pub use off_base::Secret;
pub use off_defs::{
    Batch, Class, DeviceHold, DeviceLease, Hold, ImportKind, Key, KeyText, Lease, Modem, Pool, Row,
    Site, Subscriber, Write, Writes, copy_row, key_text,
};
pub use reading::decode;
pub use writing::encode;
