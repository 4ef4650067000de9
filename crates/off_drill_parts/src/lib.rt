//! The parts of a drill that need no office: its rows and the commands that put them, what its
//! modems send, and how what comes back is counted.
#![tactic(auto)]

mod commands;
mod messages;
mod rows;
mod summary;
mod tallying;

pub use commands::{put_class, put_hub, put_modem, put_pool, put_subscriber};
pub use messages::{Ask, hoped_line, message};
pub use rows::BEGINS_AT;
pub use summary::{Line, summary_line};
pub use tallying::{count_said, none_yet};
