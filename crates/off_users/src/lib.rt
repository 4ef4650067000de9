//! Who uses what: for each subscriber and each class how many modems name it, told without the
//! tables.
#![tactic(auto)]

mod named;
mod tallies;
mod users;
mod writes;

pub use named::Named;
pub use users::Users;
