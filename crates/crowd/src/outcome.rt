// What came of a mapping in a crowd.
#[derive(Clone, Copy)]
pub struct Outcome {
    // how many other pages were entered
    pub others: usize,
    // the pmap holds nothing at the place any more
    pub forgotten: bool,
    // the pmap tells that the frame is modified
    pub modified: bool,
}
