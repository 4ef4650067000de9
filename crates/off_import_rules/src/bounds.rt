/// How many rows an import has at most.
pub const MOST_ROWS: u32 = 2000;
