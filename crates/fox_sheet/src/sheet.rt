// What a well-formed sheet says, by the two steps in which it is read. A malformed one is told by the number of its first line that breaks its rule.
// A `size` stands apart from its buffer, which the caller lends: memory is fixed, with no heap, and the bytes are promised of a malformed sheet too
// (`ReadsSettings`, `ReadsTask`), where no struct is returned that could hold a slice of them.

// `size` is the number of bytes in the key.
#[derive(Clone, Copy)]
pub struct Settings {
    pub cipher: u32,
    pub rounds: u32,
    pub size: usize,
}

// `size` is the number of bytes in the block.
#[derive(Clone, Copy)]
pub struct Task {
    pub sealing: bool,
    pub size: usize,
}
