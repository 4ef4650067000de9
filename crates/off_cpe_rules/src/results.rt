use crate::DeviceWord;
use off_defs::{Sent, Writes};

/// What a device's message does: what it writes to the tables, what is sent for it, and the word
/// with which the log has it.
#[derive(Drop)]
pub struct DeviceStep {
    pub writes: Writes,
    pub reply: Option<Sent>,
    pub word: DeviceWord,
}
