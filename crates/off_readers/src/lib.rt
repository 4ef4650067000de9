//! Readers of the tables that a keeper has: the row of a key, the row of each kind, and walks in
//! the order of keys.
//!
//! A row whose own values can't stand at its key is taken as none (`read_row` and those of `rows`).
//! Only the test of good tables reads rows as they are, by the keeper itself. A walk asks
//! `next_behind` again and again, each time behind the key that it got last; it ends over any
//! keeper, also one that gives keys in no order, since `room` of the place falls. The lemmas of
//! walks are in `proofs/`: what is left of a walk (`WalkLemmas`), what is gathered
//! (`GatherLemmas`), and what is folded from the back (`FoldLemmas`).
#![tactic(auto)]

mod addresses;
mod kinds;
mod possible;
mod reading;
mod rows;
mod walking;

pub use addresses::{has_address, overlaps, owner_of};
pub use kinds::{is_past_device_pools, is_past_pools};
pub use possible::{has_pool_size, is_lease_time, is_offset, is_possible};
pub use reading::{has_row, read_row};
pub use rows::{
    read_add_on, read_batch, read_class, read_device, read_device_pool, read_held, read_hub,
    read_lease, read_modem, read_pool, read_pool_hub, read_site, read_subscriber,
};
pub use walking::next_behind;
