//! The bounds of a row's own numbers, which clerks, readers and rows in bytes keep alike.

/// How many add-ons a subscriber may have. They are numbered from 0.
pub const ADD_ONS: u8 = 8;

/// The greatest number of an add-on.
pub const LAST_ADD_ON: u8 = ADD_ONS - 1;

/// How many devices there may be behind a modem, of which there is one at least.
pub const MOST_DEVICES: u8 = 254;

/// How many leading bits of its addresses name a pool's network, at least.
pub const LEAST_PREFIX: u8 = 8;

/// How many do at most: 30 leave a network two addresses beside its own and that of all.
pub const MOST_PREFIX: u8 = 30;
