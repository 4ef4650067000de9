use crate::QueryWord;
use off_defs::Sent;

/// What becomes of a query: what is sent for it, and the word with which the log has it.
#[derive(Drop)]
pub struct QueryStep {
    pub reply: Option<Sent>,
    pub word: QueryWord,
}
