/// A kind of rows of which there may be only so many.
#[derive(Clone, Copy, PartialEq, Eq)]
pub enum Kind {
    Subscribers,
    AddOns,
    Modems,
    Classes,
    Pools,
    Batches,
    Hubs,
    DevicePools,
}
