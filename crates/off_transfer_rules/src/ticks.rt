/// What a Tick did: how many transfers had their last packet sent again, and how many it closed.
#[derive(Clone, Copy, PartialEq, Eq)]
pub struct Ticked {
    pub again: u32,
    pub closed: u32,
}
