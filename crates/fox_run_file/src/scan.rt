// A whole scan at the start of a text: how many bytes come before its own, and how many bytes it has.
#[derive(Clone, Copy)]
pub struct Scan {
    pub head: usize,
    pub size: usize,
}

// The whole scans of a file: the place after the last of them, and their number.
#[derive(Clone, Copy)]
pub struct Scans {
    pub at: usize,
    pub number: usize,
}
