ghost use Rattle.std.specs.Prelude.{◌≡◌, ◌≤◌, length};
ghost use Rattle.off_query_rules.specs.Words.{query_text};

/// What became of a query.
#[derive(Clone, Copy, PartialEq, Eq)]
pub enum QueryWord {
    /// No pool has the relay, or the pool's hub has no row.
    Relay,
    /// It asks neither by address nor by hardware address.
    Form,
    /// A client has the address.
    Active,
    /// A pool of the hub has the address, and no client does.
    Unassigned,
    /// Neither.
    Unknown,
}

impl QueryWord {
    /// The text with which the log has it.
    pub fn text(self) -> &'static [u8]
        ensures text { result.now ≡ query_text self }
        ensures short { length result.now ≤ 16 }
    {
        match self {
            QueryWord::Relay => b"query-relay",
            QueryWord::Form => b"query-form",
            QueryWord::Active => b"query-active",
            QueryWord::Unassigned => b"query-unassigned",
            QueryWord::Unknown => b"query-unknown",
        }
    }
}
