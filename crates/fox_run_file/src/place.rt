// Where a reader stands in a run file: the place of the next scan's first line, how many scans were passed, and where the next scan's bytes stand in the run.
#[derive(Clone, Copy)]
pub struct Place {
    pub at: usize,
    pub scans: usize,
    pub offset: usize,
}
