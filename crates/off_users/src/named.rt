/// The numbers of the subscriber and the class that a modem names.
#[derive(Clone, Copy, PartialEq, Eq)]
pub struct Named {
    pub subscriber: u32,
    pub class: u32,
}
