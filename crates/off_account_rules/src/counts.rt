/// How many rows there are of each kind of which there may be only so many.
#[derive(Clone, Copy, PartialEq, Eq)]
pub struct Counts {
    pub subscribers: u64,
    pub addons: u64,
    pub modems: u64,
    pub classes: u64,
    pub pools: u64,
    pub batches: u64,
    pub hubs: u64,
    pub device_pools: u64,
}
