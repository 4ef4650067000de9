/// What came of a drill.
#[derive(Clone, Copy, PartialEq, Eq)]
pub struct Tally {
    /// How many addresses were offered.
    pub offers: u64,
    /// How many were acknowledged.
    pub acks: u64,
    /// How many files were sent whole.
    pub files: u64,
    /// How many DATA packets were sent.
    pub blocks: u64,
    /// How many bytes of files these had.
    pub octets: u64,
}
