/// How many bytes `seal` and `check` take at most.
pub const MOST_BYTES: usize = 65_536;
