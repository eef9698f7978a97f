// The lengths of scans within the limits, added up: how many bytes the scans have together, and how many the file has.
#[derive(Clone, Copy)]
pub struct Sizes {
    pub total: usize,
    pub size: usize,
}
