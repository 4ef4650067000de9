use crate::DhcpWord;
use off_defs::{Sent, Writes};

/// What a message does: what it writes to the tables, what is sent for it, and the word with which
/// the log has it.
#[derive(Drop)]
pub struct LeaseStep {
    pub writes: Writes,
    pub reply: Option<Sent>,
    pub word: DhcpWord,
}
