use off_files::Body;

/// A body that was built, with the numbers of the rows by which it was.
#[derive(Drop)]
pub struct KeptBody {
    pub subscriber: u32,
    pub class: u32,
    pub body: Body,
}
