//! The jobs over a stream: `seal` signs a configuration file, `check` verifies one. Each reads its
//! source to the end, writes one text to its sink, and answers the program's exit status.
#![tactic(auto)]

mod checking;
mod input;
mod limits;
mod sealing;
mod telling;

pub use checking::check_input;
pub use input::{InputErr, read_input};
pub use sealing::seal_input;
pub use telling::{Line, numbered_line, refused_line, tell, tell_memory, tell_undone, tell_unread};
